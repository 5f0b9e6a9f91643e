//! Outputs line by line. `..` in a wanted line stands for whatever a row leaves open.

use super::texts::TABLE;
use super::*;

/// Whether a line has all parts of the wanted one, in their order.
fn is_line(line: &str, wanted: &str) -> bool {
    let mut rest = line;
    for part in wanted.split("..") {
        match rest.split_once(part) {
            Some((_, behind)) => rest = behind,
            None => return false,
        }
    }
    true
}

/// The sessions, over the table of three rows, have an output of these lines.
pub(crate) fn prints_lines(
    rt: &impl Abort,
    alloc: Global,
    name: &str,
    sessions: &str,
    wanted: &str,
) -> Result<(), Fail> {
    let script = format!(in alloc; "{TABLE} {sessions}")?;
    let (status, sink) = step_plain(alloc, script.into_bytes())?;
    assert_eq!(rt; status, 0, "{name}");
    are_lines(rt, name, text_of(&sink)?, wanted)
}

/// A text has these lines.
pub(crate) fn are_lines(rt: &impl Abort, name: &str, text: &str, wanted: &str) -> Result<(), Fail> {
    assert_eq!(rt;
        text.lines().count(),
        wanted.lines().count(),
        "{name}: {text}"
    );
    for (line, wanted) in text.lines().zip(wanted.lines()) {
        assert!(rt; is_line(line, wanted), "{name}: no {wanted} in {line}");
    }
    Ok(())
}
