//! What is in a table.

ghost use Rattle.std.specs.Prelude.{◌<◌, length};
ghost use Rattle.sa_table.specs.Table.{row_count};

use sa_table::Tables;
use sa_value::{OutOfMemory, ValueRef};
use std::alloc::{AllocError, Global};
use std::process::Abort;

/// How many rows the first table has.
pub(crate) fn count(rt: &impl Abort, tables: &Tables) -> u32 {
    assert!(rt; 0 < tables.len());
    tables.count(0)
}

/// The cells of the first table, with `;` between two rows.
pub(crate) fn shown(
    rt: &impl Abort,
    alloc: Global,
    tables: &Tables,
) -> Result<String, OutOfMemory> {
    let mut text = String::new(alloc);
    assert!(rt; 0 < tables.len());
    for row in 0..tables.count(0) {
        if row > 0 {
            text.push_str("; ")?;
        }
        push_row(rt, alloc, &mut text, tables, row)?;
    }
    Ok(text)
}

fn push_row(
    rt: &impl Abort,
    alloc: Global,
    text: &mut String,
    tables: &Tables,
    row: u32,
) -> Result<(), OutOfMemory>
    requires table_there { 0 < length tables.now }
    requires row_there { row < row_count tables.now 0 }
{
    let columns = tables.def(0).columns.len();
    assert!(rt; columns <= 32);
    for column in 0..columns {
        if column > 0 {
            text.push_str(", ")?;
        }
        push_value(alloc, text, tables.cell(0, row, column as u32))?;
    }
    Ok(())
}

fn push_value(alloc: Global, text: &mut String, value: ValueRef<'_>) -> Result<(), OutOfMemory> {
    text.push_str(value_text(alloc, value)?.as_str())?;
    Ok(())
}

fn value_text(alloc: Global, value: ValueRef<'_>) -> Result<String, AllocError> {
    match value {
        ValueRef::Null => String::from_str(alloc, "NULL"),
        ValueRef::Int(number) => format!(in alloc; "{number}"),
        ValueRef::Big(number) => format!(in alloc; "BIG {number}"),
        ValueRef::Text(held) => format!(in alloc; "'{held}'"),
    }
}
