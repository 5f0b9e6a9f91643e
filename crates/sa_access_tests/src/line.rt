//! Tests as lines of a table, with cells between bars.

/// The cell of a line with this number, without the blanks around it.
pub(crate) fn cell(line: &str, number: usize) -> &str {
    line.split('|').nth(number).unwrap_or("").trim()
}

/// What stands before a mark and behind it: nothing, where there is no mark.
pub(crate) fn cut<'a>(text: &'a str, mark: &str) -> (&'a str, &'a str) {
    text.split_once(mark).unwrap_or((text, ""))
}
