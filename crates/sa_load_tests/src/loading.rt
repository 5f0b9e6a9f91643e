//! A text is loaded, and what comes of it compared.

use crate::line::{bytes, cell, is_same};
use crate::shown::shown;
use crate::table::table;
use sa_load::{LoadFault, load_csv};
use sa_table::Tables;
use sa_value::OutOfMemory;
use std::alloc::{AllocError, Global};
use std::process::Abort;

/// Each line of a table: name, columns, text, number of rows or fault, cells.
pub(crate) fn each_loads(rt: &impl Abort, alloc: Global, lines: &str) -> Result<(), OutOfMemory> {
    for line in lines.split('\n') {
        let tables = loaded(rt, alloc, line)?;
        holds(rt, alloc, line, &tables)?;
    }
    Ok(())
}

/// The table into which the text of a line was loaded, which was answered as the line says.
fn loaded(rt: &impl Abort, alloc: Global, line: &str) -> Result<Tables, OutOfMemory> {
    let mut tables = table(rt, alloc, cell(line, 1))?;
    let text = bytes(alloc, cell(line, 2))?;
    let given = load(rt, alloc, &mut tables, text.as_slice())?;
    is_same(rt, line, given.as_str(), cell(line, 3));
    Ok(tables)
}

/// Compares the cells of a table with those of a line.
fn holds(rt: &impl Abort, alloc: Global, line: &str, tables: &Tables) -> Result<(), OutOfMemory> {
    let cells = shown(rt, alloc, tables)?;
    let expected = bytes(alloc, cell(line, 4))?;
    assert_eq!(rt; cells.as_bytes(), expected.as_slice(), "{line}");
    Ok(())
}

/// What a text is answered that is loaded into the first table.
pub(crate) fn load(
    rt: &impl Abort,
    alloc: Global,
    tables: &mut Tables,
    text: &[u8],
) -> Result<String, AllocError> {
    assert!(rt; 0 < tables.len());
    answer(alloc, load_csv(alloc, text, tables, 0))
}

fn answer(alloc: Global, given: Result<u32, LoadFault>) -> Result<String, AllocError> {
    match given {
        Ok(count) => format!(in alloc; "{count}"),
        Err(LoadFault::Bad { number, cause }) => format!(in alloc; "{number}: {cause:?}"),
        Err(LoadFault::OutOfMemory) => format!(in alloc; "out of memory"),
    }
}
