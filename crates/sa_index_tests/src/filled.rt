//! A table with rows.

use crate::definition::definition;
use crate::value::row;
use sa_table::Tables;
use sa_value::{OutOfMemory, Row};
use std::alloc::Global;
use std::process::Abort;

/// One table, with the rows that a text writes, `;` between two.
pub(crate) fn filled(
    rt: &impl Abort,
    alloc: Global,
    def: &str,
    rows: &str,
) -> Result<Tables, OutOfMemory> {
    let mut tables = Tables::new(alloc);
    create(rt, alloc, &mut tables, "t", def)?;
    if !rows.is_empty() {
        for text in rows.split(';') {
            add(rt, &mut tables, 0, row(alloc, text.trim())?);
        }
    }
    Ok(tables)
}

/// Makes a table, of a definition that has no fault.
pub(crate) fn create(
    rt: &impl Abort,
    alloc: Global,
    tables: &mut Tables,
    name: &str,
    def: &str,
) -> Result<(), OutOfMemory> {
    let created = tables.create(definition(alloc, name, def)?);
    assert!(rt; created.is_ok(), "{def}");
    Ok(())
}

/// Adds a row, which has no fault.
pub(crate) fn add(rt: &impl Abort, tables: &mut Tables, table: u32, row: Row) {
    assert!(rt; table < tables.len());
    let added = tables.add_row(table, row);
    assert!(rt; added.is_ok());
}
