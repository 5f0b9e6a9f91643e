//! Conditions with the rows for which they are TRUE.

use crate::giving::push_select;
use crate::lines::{CLOSED, cell, prints};
use crate::table::TABLE;
use std::alloc::{AllocError, Global};
use std::process::Abort;
use std::test::Fail;

/// Each row of a text: a condition, its canonical text as JSON writes it, and the ids of the rows for which
/// it is TRUE. The SELECTs of these ids run one after the other in one session.
pub(crate) fn each_finds(rt: &impl Abort, alloc: Global, rows: &str) -> Result<(), Fail> {
    let mut script = format!(in alloc; "{TABLE} SESSION 1;")?;
    let mut wanted = String::new(alloc);
    for row in rows.split('\n') {
        script.push_str(select(alloc, cell(row, 0))?.as_str())?;
        script.push_str(";")?;
        let text = select(alloc, cell(row, 1))?;
        push_select(alloc, &mut wanted, text.as_str(), "\"id\"", cell(row, 2))?;
    }
    wanted.push_str(CLOSED)?;
    prints(rt, alloc, script.as_str(), wanted.as_str())
}

/// The SELECT of the ids for which a condition is TRUE.
fn select(alloc: Global, condition: &str) -> Result<String, AllocError> {
    format!(in alloc; "SELECT id FROM n WHERE {condition}")
}
