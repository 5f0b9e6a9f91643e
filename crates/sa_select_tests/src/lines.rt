//! Outputs line by line. `..` in a wanted line stands for whatever a row leaves open.

use crate::program::printed;
use std::alloc::{AllocError, Global};
use std::process::Abort;
use std::test::Fail;

/// The cell of a row with this number, without the blanks around it.
pub(crate) fn cell(row: &str, number: usize) -> &str {
    row.split('|').nth(number).unwrap_or("").trim()
}

/// Whether a line has all parts of the wanted one, in their order.
fn is_line(line: &str, wanted: &str) -> bool {
    let mut rest = line;
    for part in wanted.split("..") {
        match rest.split_once(part) {
            Some((_, behind)) => rest = behind,
            None => return false,
        }
    }
    true
}

/// The script has an output of these lines.
pub(crate) fn prints(
    rt: &impl Abort,
    alloc: Global,
    script: &str,
    wanted: &str,
) -> Result<(), Fail> {
    let output = printed(alloc, script)?;
    let text = output.as_str();
    for (line, wanted) in text.lines().zip(wanted.lines()) {
        assert!(rt; is_line(line, wanted), "no {wanted} in {line}");
    }
    assert_eq!(rt; text.lines().count(), wanted.lines().count(), "{text}");
    Ok(())
}

/// The line of a Begin with this text, which stands as JSON writes it.
pub(crate) fn begin_line(alloc: Global, enabled: bool, text: &str) -> Result<String, AllocError> {
    format!(in alloc;
        "..\"enabled\":{enabled},\"event\":\"begin\",..\"text\":\"{text}\",\"turn\":..\n"
    )
}

/// The lines behind those of a session's statements.
pub(crate) const CLOSED: &str = "..\"event\":\"close\",..\n{\"done\":true}\n";
