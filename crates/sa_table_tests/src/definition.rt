//! Definitions written as texts.
//!
//! `t: a INT NOT NULL, b VARCHAR(3) / PRIMARY p 0, UNIQUE u 0 1` is a table of two columns and two
//! keys, whose parts are numbers of columns. `33*a INT` stands for 33 columns, from `a0` to `a32`,
//! and `9*KEY k 0` for nine keys.

use sa_table::{ColumnDef, ColumnDefs, ColumnKind, KeyDef, KeyDefs, Parts, TableDef};
use sa_value::{OutOfMemory, Text};
use std::alloc::Global;

/// The definition that a text writes.
pub(crate) fn definition(alloc: Global, text: &str) -> Result<TableDef, OutOfMemory> {
    let (name, lists) = cut(text, ": ");
    let (columns, keys) = cut(lists, " / ");
    let name = Text::from_str(alloc, name)?;
    let columns = columns_in(alloc, columns)?;
    let keys = keys_in(alloc, keys)?;
    Ok(TableDef {
        name,
        columns,
        keys,
    })
}

/// What stands before a mark and behind it: nothing, where there is no mark.
fn cut<'a>(text: &'a str, mark: &str) -> (&'a str, &'a str) {
    text.split_once(mark).unwrap_or((text, ""))
}

fn columns_in(alloc: Global, text: &str) -> Result<ColumnDefs, OutOfMemory> {
    let mut columns = Vec::new(alloc);
    for text in text.split(',') {
        push_columns(alloc, &mut columns, text.trim())?;
    }
    Ok(ColumnDefs::from_vec(columns))
}

fn push_columns(
    alloc: Global,
    columns: &mut Vec<ColumnDef>,
    text: &str,
) -> Result<(), OutOfMemory> {
    let (count, text) = times(text);
    let (name, kind) = cut(text, " ");
    for number in 0..count {
        let name = numbered(alloc, name, count, number)?;
        columns.push(column(name, kind))?;
    }
    Ok(())
}

fn column(name: Text, text: &str) -> ColumnDef {
    let (kind, not_null) = match text.strip_suffix(" NOT NULL") {
        Some(kind) => (kind, true),
        None => (text, false),
    };
    ColumnDef {
        name,
        kind: kind_of(kind),
        not_null,
    }
}

fn kind_of(text: &str) -> ColumnKind {
    if text == "INT" {
        ColumnKind::Int
    } else if text == "BIGINT" {
        ColumnKind::BigInt
    } else {
        ColumnKind::VarChar(length_in(text))
    }
}

fn length_in(text: &str) -> u32 {
    let (_, length) = cut(text, "(");
    number_in(cut(length, ")").0)
}

/// The number that a text writes, or one that is too great for whatever it counts.
fn number_in(text: &str) -> u32 {
    text.parse().unwrap_or(u32::MAX)
}

fn keys_in(alloc: Global, text: &str) -> Result<KeyDefs, OutOfMemory> {
    let mut keys = Vec::new(alloc);
    if !text.is_empty() {
        for text in text.split(',') {
            push_keys(alloc, &mut keys, text.trim())?;
        }
    }
    Ok(KeyDefs::from_vec(keys))
}

fn push_keys(alloc: Global, keys: &mut Vec<KeyDef>, text: &str) -> Result<(), OutOfMemory> {
    let (count, text) = times(text);
    let (kind, text) = cut(text, " ");
    let (name, parts) = cut(text, " ");
    for number in 0..count {
        let name = numbered(alloc, name, count, number)?;
        keys.push(key(kind, name, parts_in(alloc, parts)?))?;
    }
    Ok(())
}

fn key(kind: &str, name: Text, parts: Parts) -> KeyDef {
    KeyDef {
        name,
        unique: kind == "UNIQUE",
        primary: kind == "PRIMARY",
        parts,
    }
}

fn parts_in(alloc: Global, text: &str) -> Result<Parts, OutOfMemory> {
    let mut parts = Vec::new(alloc);
    for part in text.split(' ') {
        parts.push(number_in(part))?;
    }
    Ok(Parts::from_vec(parts))
}

/// How often something is meant, and what: `3*a` means `a` three times.
pub(crate) fn times(text: &str) -> (u32, &str) {
    match text.split_once('*') {
        Some((count, text)) => (number_in(count), text),
        None => (1, text),
    }
}

/// A name, with its number where there are more than one.
fn numbered(alloc: Global, name: &str, count: u32, number: u32) -> Result<Text, OutOfMemory> {
    if count == 1 {
        return Text::from_str(alloc, name);
    }
    Ok(Text::from_string(format!(in alloc; "{name}{number}")?))
}
