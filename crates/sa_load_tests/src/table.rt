//! Tables written as texts.
//!
//! `INT NOT NULL, VARCHAR(3) / 0 1` is a table of two columns and a unique key over both.

use sa_table::{ColumnDef, ColumnDefs, ColumnKind, KeyDef, KeyDefs, Parts, TableDef, Tables};
use sa_value::{OutOfMemory, Text};
use std::alloc::Global;
use std::process::Abort;

/// One table without rows.
pub(crate) fn table(rt: &impl Abort, alloc: Global, text: &str) -> Result<Tables, OutOfMemory> {
    let mut tables = Tables::new(alloc);
    let created = tables.create(definition(alloc, text)?);
    assert!(rt; created.is_ok(), "{text}");
    Ok(tables)
}

fn definition(alloc: Global, text: &str) -> Result<TableDef, OutOfMemory> {
    let (columns, parts) = cut(text, " / ");
    let name = Text::from_str(alloc, "t")?;
    let columns = columns_in(alloc, columns)?;
    let keys = keys_in(alloc, parts)?;
    Ok(TableDef {
        name,
        columns,
        keys,
    })
}

/// What stands before a mark and behind it: nothing, where there is no mark.
fn cut<'a>(text: &'a str, mark: &str) -> (&'a str, &'a str) {
    text.split_once(mark).unwrap_or((text, ""))
}

fn columns_in(alloc: Global, text: &str) -> Result<ColumnDefs, OutOfMemory> {
    let mut columns = Vec::new(alloc);
    for (number, text) in text.split(',').enumerate() {
        let name = Text::from_string(format!(in alloc; "c{number}")?);
        columns.push(column(name, text.trim()))?;
    }
    Ok(ColumnDefs::from_vec(columns))
}

fn column(name: Text, text: &str) -> ColumnDef {
    let (kind, not_null) = match text.strip_suffix(" NOT NULL") {
        Some(kind) => (kind, true),
        None => (text, false),
    };
    ColumnDef {
        name,
        kind: kind_of(kind),
        not_null,
    }
}

fn kind_of(text: &str) -> ColumnKind {
    if text == "INT" {
        ColumnKind::Int
    } else if text == "BIGINT" {
        ColumnKind::BigInt
    } else {
        ColumnKind::VarChar(length_in(text))
    }
}

fn length_in(text: &str) -> u32 {
    let (_, length) = cut(text, "(");
    number_in(cut(length, ")").0)
}

/// The number that a text writes, or one that is too great for whatever it counts.
fn number_in(text: &str) -> u32 {
    text.parse().unwrap_or(u32::MAX)
}

/// A unique key over these columns, or none.
fn keys_in(alloc: Global, text: &str) -> Result<KeyDefs, OutOfMemory> {
    let mut keys = Vec::new(alloc);
    if !text.is_empty() {
        keys.push(key(alloc, text)?)?;
    }
    Ok(KeyDefs::from_vec(keys))
}

fn key(alloc: Global, text: &str) -> Result<KeyDef, OutOfMemory> {
    let name = Text::from_str(alloc, "u")?;
    let parts = parts_in(alloc, text)?;
    Ok(KeyDef {
        name,
        unique: true,
        primary: false,
        parts,
    })
}

fn parts_in(alloc: Global, text: &str) -> Result<Parts, OutOfMemory> {
    let mut parts = Vec::new(alloc);
    for part in text.split(' ') {
        parts.push(number_in(part))?;
    }
    Ok(Parts::from_vec(parts))
}
