//! Documents of SELECTs that another session asks for.

use crate::lines::cell;
use crate::program::printed;
use crate::table::TABLE;
use std::alloc::{AllocError, Global};
use std::process::Abort;
use std::test::Fail;

/// Each row of a text: a SELECT of one table, the alias of that, and the condition of its plan as JSON
/// writes it, which is empty where it has none. A SHOW EXPLAIN shows that.
pub(crate) fn each_explains(rt: &impl Abort, alloc: Global, rows: &str) -> Result<(), Fail> {
    for row in rows.split('\n') {
        let table = table_text(alloc, row, "")?;
        let document = document(alloc, table.as_str(), "")?;
        shows(rt, alloc, "EXPLAIN", row, document.as_str())?;
    }
    Ok(())
}

/// Each row of a text: the same, and of how many rows read how many passed and were given out after four
/// steps, with the share of those that passed. A SHOW ANALYZE shows that.
pub(crate) fn each_analyzes(rt: &impl Abort, alloc: Global, rows: &str) -> Result<(), Fail> {
    for row in rows.split('\n') {
        let table = table_text(alloc, row, counters_text(alloc, row)?.as_str())?;
        let block = format!(in alloc; "\"r_sent\":{},\"r_steps\":4,", cell(row, 5))?;
        let document = document(alloc, table.as_str(), block.as_str())?;
        shows(rt, alloc, "ANALYZE", row, document.as_str())?;
    }
    Ok(())
}

/// A session asks for the SELECT of a row after its Begin, is answered after four steps, and shows this.
fn shows(
    rt: &impl Abort,
    alloc: Global,
    kind: &str,
    row: &str,
    document: &str,
) -> Result<(), Fail> {
    let statement = cell(row, 0);
    let script = format!(in alloc;
        "{TABLE} QUANTUM 4; SESSION 1; {statement}; SESSION 2; SHOW {kind} FOR 1; SCHEDULE 1 2 2 1"
    )?;
    let output = printed(alloc, script.as_str())?;
    let shown = format!(in alloc; "\"outcome\":{{\"document\":{document},\"kind\":\"shown\"}}")?;
    assert!(rt;
        output.contains(shown.as_str()),
        "{kind} {row}: no {shown} in {output}"
    );
    Ok(())
}

/// The document with this table, and these members of its block.
fn document(alloc: Global, table: &str, block: &str) -> Result<String, AllocError> {
    format!(in alloc;
        "{{\"query_block\":{{\"cost\":\"55\",\"nested_loop\":[{{\"table\":{table}}}],{block}\"select_id\":1}}}}"
    )
}

/// The table of a row in its document, with what was counted.
fn table_text(alloc: Global, row: &str, counters: &str) -> Result<String, AllocError> {
    let alias = cell(row, 1);
    let condition = condition_text(alloc, cell(row, 2))?;
    format!(in alloc;
        "{{\"access_type\":\"ALL\",{condition}{counters}\"rows\":7,\"table_name\":\"{alias}\"}}"
    )
}

/// The condition as a member, if there is one.
fn condition_text(alloc: Global, condition: &str) -> Result<String, AllocError> {
    if condition.is_empty() {
        Ok(String::new(alloc))
    } else {
        format!(in alloc; "\"attached_condition\":\"{condition}\",")
    }
}

/// What the document of a row tells of its counters.
fn counters_text(alloc: Global, row: &str) -> Result<String, AllocError> {
    let (read, passed, share) = (cell(row, 3), cell(row, 4), cell(row, 6));
    format!(in alloc;
        "\"r_filtered\":\"{share}\",\"r_loops\":1,\"r_rows\":\"{read}.00\",\"r_total_passed\":{passed},\"r_total_rows\":{read},"
    )
}
