//! Tables written as texts.
//!
//! `u id! v name$ / UNIQUE id, KEY v id` is a table u with the columns id, v and name and two keys.
//! A column with `!` is NOT NULL, one with `$` a text, and all others are INT. A row is written
//! `1,NULL,'A`.

use crate::line::cut;
use sa_table::{ColumnDef, ColumnDefs, ColumnKind, KeyDef, KeyDefs, Parts, TableDef, Tables};
use sa_value::{OutOfMemory, Row, Text, Value};
use std::alloc::Global;
use std::process::Abort;

/// The tables of a text, `;` between two, with the rows of another.
pub(crate) fn filled(
    rt: &impl Abort,
    alloc: Global,
    defs: &str,
    rows: &str,
) -> Result<Tables, OutOfMemory> {
    let mut tables = Tables::new(alloc);
    for (number, text) in defs.split(';').enumerate() {
        let created = tables.create(definition(alloc, text.trim())?);
        assert!(rt; created.is_ok(), "{text}");
        let rows = rows.split(';').nth(number).unwrap_or("");
        add_rows(rt, alloc, &mut tables, rows.trim())?;
    }
    Ok(tables)
}

/// Puts rows into the last table.
fn add_rows(
    rt: &impl Abort,
    alloc: Global,
    tables: &mut Tables,
    text: &str,
) -> Result<(), OutOfMemory> {
    if text.is_empty() {
        return Ok(());
    }
    for text in text.split(' ') {
        assert!(rt; tables.len() > 0);
        let added = tables.add_row(tables.len() - 1, row(alloc, text)?);
        assert!(rt; added.is_ok(), "{text}");
    }
    Ok(())
}

fn row(alloc: Global, text: &str) -> Result<Row, OutOfMemory> {
    let mut values = Vec::new(alloc);
    for text in text.split(',') {
        values.push(value(alloc, text)?)?;
    }
    Ok(Row::from_vec(values))
}

fn value(alloc: Global, text: &str) -> Result<Value, OutOfMemory> {
    if let Some(text) = text.strip_prefix('\'') {
        return Ok(Value::Text(Text::from_str(alloc, text)?));
    }
    Ok(match text.parse() {
        Ok(number) => Value::Int(number),
        Err(_) => Value::Null,
    })
}

fn definition(alloc: Global, text: &str) -> Result<TableDef, OutOfMemory> {
    let (table, keys) = cut(text, " / ");
    let (name, columns) = cut(table, " ");
    let name = Text::from_str(alloc, name)?;
    let keys = keys_in(alloc, columns, keys)?;
    Ok(TableDef {
        name,
        columns: columns_in(alloc, columns)?,
        keys,
    })
}

fn columns_in(alloc: Global, text: &str) -> Result<ColumnDefs, OutOfMemory> {
    let mut columns = Vec::new(alloc);
    for text in text.split(' ') {
        columns.push(ColumnDef {
            name: Text::from_str(alloc, name_of(text))?,
            kind: kind_of(text),
            not_null: text.ends_with('!'),
        })?;
    }
    Ok(ColumnDefs::from_vec(columns))
}

/// The name of a column without its marks.
fn name_of(text: &str) -> &str {
    cut(cut(text, "!").0, "$").0
}

fn kind_of(text: &str) -> ColumnKind {
    if text.ends_with('$') {
        ColumnKind::VarChar(9)
    } else {
        ColumnKind::Int
    }
}

fn keys_in(alloc: Global, columns: &str, text: &str) -> Result<KeyDefs, OutOfMemory> {
    let mut keys = Vec::new(alloc);
    if text.is_empty() {
        return Ok(KeyDefs::from_vec(keys));
    }
    for (number, text) in text.split(',').enumerate() {
        let (kind, parts) = cut(text.trim(), " ");
        keys.push(KeyDef {
            name: Text::from_string(format!(in alloc; "k{number}")?),
            unique: kind == "UNIQUE",
            primary: kind == "PRIMARY",
            parts: parts_in(alloc, columns, parts)?,
        })?;
    }
    Ok(KeyDefs::from_vec(keys))
}

fn parts_in(alloc: Global, columns: &str, text: &str) -> Result<Parts, OutOfMemory> {
    let mut parts = Vec::new(alloc);
    for part in text.split(' ') {
        parts.push(number_of(columns, part))?;
    }
    Ok(Parts::from_vec(parts))
}

/// The number of the column with this name.
fn number_of(columns: &str, name: &str) -> u32 {
    let mut number = 0;
    for column in columns.split(' ') {
        if name_of(column) == name {
            return number;
        }
        number = u32::saturating_add(number, 1);
    }
    number
}
