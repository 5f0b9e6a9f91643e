//! One table with rows, and what is in it.

ghost use Rattle.std.specs.Prelude.{◌<◌, length};
ghost use Rattle.sa_table.specs.Table.{row_count};

use crate::definition::definition;
use crate::row::row;
use sa_table::{RowFault, Tables};
use sa_value::{OutOfMemory, Row, ValueRef};
use std::alloc::{AllocError, Global};
use std::process::Abort;

/// A table without rows, of a definition that has no fault.
pub(crate) fn empty(rt: &impl Abort, alloc: Global, def: &str) -> Result<Tables, OutOfMemory> {
    let mut tables = Tables::new(alloc);
    let created = tables.create(definition(alloc, def)?);
    assert!(rt; created.is_ok(), "{def}");
    Ok(tables)
}

/// Puts these rows into the first table, which takes each.
pub(crate) fn fill(
    rt: &impl Abort,
    alloc: Global,
    tables: &mut Tables,
    rows: &str,
) -> Result<(), OutOfMemory> {
    if rows.is_empty() {
        return Ok(());
    }
    for text in rows.split(';') {
        let added = add(rt, tables, row(alloc, text.trim())?);
        assert!(rt; added.is_ok(), "{rows}");
    }
    Ok(())
}

/// Adds a row to the first table.
pub(crate) fn add(rt: &impl Abort, tables: &mut Tables, row: Row) -> Result<u32, RowFault> {
    assert!(rt; 0 < tables.len());
    tables.add_row(0, row)
}

/// How many rows the first table has.
pub(crate) fn count(rt: &impl Abort, tables: &Tables) -> u32 {
    assert!(rt; 0 < tables.len());
    tables.count(0)
}

/// The cells of the first table, with `;` between two rows.
pub(crate) fn shown(
    rt: &impl Abort,
    alloc: Global,
    tables: &Tables,
) -> Result<String, OutOfMemory> {
    let mut text = String::new(alloc);
    assert!(rt; 0 < tables.len());
    for row in 0..tables.count(0) {
        if row > 0 {
            text.push_str("; ")?;
        }
        push_row(rt, alloc, &mut text, tables, row)?;
    }
    Ok(text)
}

fn push_row(
    rt: &impl Abort,
    alloc: Global,
    text: &mut String,
    tables: &Tables,
    row: u32,
) -> Result<(), OutOfMemory>
    requires table_there { 0 < length tables.now }
    requires row_there { row < row_count tables.now 0 }
{
    let columns = tables.def(0).columns.len();
    assert!(rt; columns <= 32);
    for column in 0..columns {
        if column > 0 {
            text.push_str(", ")?;
        }
        push_value(alloc, text, tables.cell(0, row, column as u32))?;
    }
    Ok(())
}

fn push_value(alloc: Global, text: &mut String, value: ValueRef<'_>) -> Result<(), OutOfMemory> {
    text.push_str(value_text(alloc, value)?.as_str())?;
    Ok(())
}

fn value_text(alloc: Global, value: ValueRef<'_>) -> Result<String, AllocError> {
    match value {
        ValueRef::Null => String::from_str(alloc, "NULL"),
        ValueRef::Int(number) => format!(in alloc; "{number}"),
        ValueRef::Big(number) => format!(in alloc; "BIG {number}"),
        ValueRef::Text(held) => format!(in alloc; "'{held}'"),
    }
}
