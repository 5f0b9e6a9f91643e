//! SELECTs with the columns and the rows that they give.

use crate::lines::{CLOSED, begin_line, cell, prints};
use crate::table::{SCAN_STEPS, TABLE};
use std::alloc::{AllocError, Global};
use std::process::Abort;
use std::test::Fail;

/// Each row of a text: a SELECT; its canonical text, its columns and the rows that it gives, as JSON has
/// them. The SELECTs run one after the other in one session.
pub(crate) fn each_gives(rt: &impl Abort, alloc: Global, rows: &str) -> Result<(), Fail> {
    let mut script = format!(in alloc; "{TABLE} SESSION 1;")?;
    let mut wanted = String::new(alloc);
    for row in rows.split('\n') {
        script.push_str(cell(row, 0))?;
        script.push_str(";")?;
        push_select(alloc, &mut wanted, cell(row, 1), cell(row, 2), cell(row, 3))?;
    }
    wanted.push_str(CLOSED)?;
    prints(rt, alloc, script.as_str(), wanted.as_str())
}

/// Puts the lines of a SELECT that gives these rows at the end of what is wanted.
pub(crate) fn push_select(
    alloc: Global,
    wanted: &mut String,
    text: &str,
    columns: &str,
    rows: &str,
) -> Result<(), AllocError> {
    let lines = row_lines(alloc, rows)?;
    wanted.push_str(begin_line(alloc, true, text)?.as_str())?;
    let count = lines.as_str().lines().count();
    wanted.push_str(end_line(alloc, columns, count)?.as_str())?;
    wanted.push_str(lines.as_str())
}

/// The line of the End of a SELECT that gives so many rows: a step gives each.
fn end_line(alloc: Global, columns: &str, count: usize) -> Result<String, AllocError> {
    let steps = count.wrapping_add(SCAN_STEPS);
    format!(in alloc;
        "..\"event\":\"end\",..\"columns\":[{columns}],\"count\":{count},\"kind\":\"rows\"}},..\"steps\":{steps},..\n"
    )
}

/// The lines of these rows, which stand apart by `;`.
fn row_lines(alloc: Global, rows: &str) -> Result<String, AllocError> {
    let mut lines = String::new(alloc);
    for row in rows.split(';') {
        let values = row.trim();
        if !values.is_empty() {
            lines.push_str(format!(in alloc; "{{\"row\":[{values}]}}\n")?.as_str())?;
        }
    }
    Ok(lines)
}
