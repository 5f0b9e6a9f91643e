//! Tests as lines of a table, with cells between bars.

/// The cell of a line with this number, without the blanks around it.
pub(crate) fn cell(line: &str, number: usize) -> &str {
    line.split('|').nth(number).unwrap_or("").trim()
}
