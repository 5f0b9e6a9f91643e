//! Statements that are refused, and where.

use crate::lines::{CLOSED, begin_line, cell, prints};
use crate::table::TABLE;
use std::alloc::{AllocError, Global};
use std::process::Abort;
use std::test::Fail;

/// Each row of a text: a statement with `^` before the place that is told, and the reason. The statements
/// run one after the other in one session.
pub(crate) fn each_is_refused(rt: &impl Abort, alloc: Global, rows: &str) -> Result<(), Fail> {
    let mut script = format!(in alloc; "{TABLE} SESSION 1;")?;
    let mut wanted = String::new(alloc);
    for row in rows.split('\n') {
        let (before, behind) = cell(row, 0).split_once('^').unwrap_or(("", ""));
        let statement = format!(in alloc; "{before}{behind}")?;
        script.push_str(statement.as_str())?;
        script.push_str(";")?;
        wanted.push_str(begin_line(alloc, false, statement.as_str())?.as_str())?;
        wanted.push_str(end_line(alloc, before.len(), cell(row, 1))?.as_str())?;
    }
    wanted.push_str(CLOSED)?;
    prints(rt, alloc, script.as_str(), wanted.as_str())
}

/// The line of the End of a statement that is refused at this place.
fn end_line(alloc: Global, place: usize, why: &str) -> Result<String, AllocError> {
    format!(in alloc;
        "..\"event\":\"end\",..\"kind\":\"refused\",\"place\":{place},\"why\":\"{why}\"}},..\"steps\":0,..\n"
    )
}
