//! What tables hold, in lines that a table of tests can hold.

ghost use Rattle.std.specs.Prelude.{◌<◌, length};
ghost use Rattle.sa_table.specs.Table.{column_count, row_count};

use sa_table::{ColumnDef, ColumnKind, KeyDef, TableDef, Tables};
use sa_value::ValueRef;
use std::alloc::Global;
use std::test::Fail;

/// The definitions of all tables: `t: a INT, b VARCHAR(5) NOT NULL; PRIMARY primary 0; k2 key 1 0`.
pub(crate) fn definitions(alloc: Global, tables: &Tables) -> Result<String, Fail> {
    let mut line = String::new(alloc);
    for table in 0..tables.len() {
        if table > 0 {
            line.push_str(" / ")?;
        }
        push_definition(alloc, &mut line, tables.def(table))?;
    }
    Ok(line)
}

fn push_definition(alloc: Global, line: &mut String, def: &TableDef) -> Result<(), Fail> {
    line.push_str(def.name.as_str())?;
    let mut before = ": ";
    for column in def.columns.as_slice() {
        line.push_str(before)?;
        line.push_str(column_text(alloc, column)?.as_str())?;
        before = ", ";
    }
    for key in def.keys.as_slice() {
        line.push_str("; ")?;
        push_key(alloc, line, key)?;
    }
    Ok(())
}

fn column_text(alloc: Global, column: &ColumnDef) -> Result<String, Fail> {
    let name = column.name.as_str();
    let kind = kind_text(alloc, column.kind)?;
    let option = if column.not_null { " NOT NULL" } else { "" };
    Ok(format!(in alloc; "{name} {kind}{option}")?)
}

fn kind_text(alloc: Global, kind: ColumnKind) -> Result<String, Fail> {
    Ok(match kind {
        ColumnKind::Int => String::from_str(alloc, "INT")?,
        ColumnKind::BigInt => String::from_str(alloc, "BIGINT")?,
        ColumnKind::VarChar(characters) => format!(in alloc; "VARCHAR({characters})")?,
    })
}

fn push_key(alloc: Global, line: &mut String, key: &KeyDef) -> Result<(), Fail> {
    line.push_str(key.name.as_str())?;
    line.push_str(key_word(key))?;
    for part in key.parts.as_slice() {
        line.push_str(format!(in alloc; " {part}")?.as_str())?;
    }
    Ok(())
}

fn key_word(key: &KeyDef) -> &'static str {
    if key.primary {
        " primary"
    } else if key.unique {
        " unique"
    } else {
        " key"
    }
}

/// The rows of all tables: `1 'x' | NULL 'y' / 7`.
pub(crate) fn rows(alloc: Global, tables: &Tables) -> Result<String, Fail> {
    let mut line = String::new(alloc);
    for table in 0..tables.len() {
        if table > 0 {
            line.push_str(" / ")?;
        }
        push_rows(alloc, &mut line, tables, table)?;
    }
    Ok(line)
}

fn push_rows(alloc: Global, line: &mut String, tables: &Tables, table: u32) -> Result<(), Fail>
    requires { table < length tables.now }
{
    for row in 0..tables.count(table) {
        if row > 0 {
            line.push_str(" | ")?;
        }
        push_row(alloc, line, tables, table, row)?;
    }
    Ok(())
}

fn push_row(
    alloc: Global,
    line: &mut String,
    tables: &Tables,
    table: u32,
    row: u32,
) -> Result<(), Fail>
    requires table_there { table < length tables.now }
    requires row_there { row < row_count tables.now table }
{
    let columns = tables.def(table).columns.len();
    if columns > 32 {
        return Err(Fail::new("too many columns"));
    }
    for column in 0..columns {
        if column > 0 {
            line.push_str(" ")?;
        }
        push_value(alloc, line, tables.cell(table, row, column as u32))?;
    }
    Ok(())
}

fn push_value(alloc: Global, line: &mut String, value: ValueRef<'_>) -> Result<(), Fail> {
    match value {
        ValueRef::Null => line.push_str("NULL")?,
        ValueRef::Int(number) => line.push_str(format!(in alloc; "{number}")?.as_str())?,
        ValueRef::Big(number) => line.push_str(format!(in alloc; "big {number}")?.as_str())?,
        ValueRef::Text(text) => line.push_str(format!(in alloc; "'{text}'")?.as_str())?,
    }
    Ok(())
}
