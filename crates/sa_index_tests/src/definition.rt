//! Definitions written as texts.
//!
//! `INT, VARCHAR(3) / KEY 0, UNIQUE 1 0` is a table of two columns and two keys, whose parts are
//! numbers of columns. A key without parts is written `KEY`.

use sa_table::{ColumnDef, ColumnDefs, ColumnKind, KeyDef, KeyDefs, Parts, TableDef};
use sa_value::{OutOfMemory, Text};
use std::alloc::Global;

/// The definition that a text writes, of a table with this name.
pub(crate) fn definition(alloc: Global, name: &str, text: &str) -> Result<TableDef, OutOfMemory> {
    let (columns, keys) = cut(text, " / ");
    let name = Text::from_str(alloc, name)?;
    let columns = columns_in(alloc, columns)?;
    let keys = keys_in(alloc, keys)?;
    Ok(TableDef {
        name,
        columns,
        keys,
    })
}

/// What stands before a mark and behind it: nothing, where there is no mark.
fn cut<'a>(text: &'a str, mark: &str) -> (&'a str, &'a str) {
    text.split_once(mark).unwrap_or((text, ""))
}

fn columns_in(alloc: Global, text: &str) -> Result<ColumnDefs, OutOfMemory> {
    let mut columns = Vec::new(alloc);
    for (number, kind) in text.split(',').enumerate() {
        columns.push(ColumnDef {
            name: Text::from_string(format!(in alloc; "c{number}")?),
            kind: kind_of(kind.trim()),
            not_null: false,
        })?;
    }
    Ok(ColumnDefs::from_vec(columns))
}

/// The kind that a text writes. A VARCHAR has up to three characters.
fn kind_of(text: &str) -> ColumnKind {
    if text == "INT" {
        ColumnKind::Int
    } else if text == "BIGINT" {
        ColumnKind::BigInt
    } else {
        ColumnKind::VarChar(3)
    }
}

fn keys_in(alloc: Global, text: &str) -> Result<KeyDefs, OutOfMemory> {
    let mut keys = Vec::new(alloc);
    if text.is_empty() {
        return Ok(KeyDefs::from_vec(keys));
    }
    for (number, text) in text.split(',').enumerate() {
        let (kind, parts) = cut(text.trim(), " ");
        keys.push(KeyDef {
            name: Text::from_string(format!(in alloc; "k{number}")?),
            unique: kind == "UNIQUE",
            primary: false,
            parts: parts_in(alloc, parts)?,
        })?;
    }
    Ok(KeyDefs::from_vec(keys))
}

fn parts_in(alloc: Global, text: &str) -> Result<Parts, OutOfMemory> {
    let mut parts = Vec::new(alloc);
    if !text.is_empty() {
        for part in text.split(' ') {
            parts.push(part.parse().unwrap_or(u32::MAX))?;
        }
    }
    Ok(Parts::from_vec(parts))
}
