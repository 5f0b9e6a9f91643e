//! Tests as lines of a table, with cells between bars.

use std::process::Abort;

/// The cell of a line with this number, without the blanks around it.
pub(crate) fn cell(line: &str, number: usize) -> &str {
    line.split('|').nth(number).unwrap_or("").trim()
}

/// Compares what came of a line with what is expected.
pub(crate) fn is_same(rt: &impl Abort, line: &str, found: &str, expected: &str) {
    assert_eq!(rt; found, expected, "{line}");
}
