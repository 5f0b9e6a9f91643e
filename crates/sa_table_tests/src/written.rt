//! The text that writes a definition.

use sa_table::{ColumnDef, ColumnKind, KeyDef, TableDef};
use sa_value::OutOfMemory;
use std::alloc::{AllocError, Global};

/// The text that writes a definition.
pub(crate) fn written(alloc: Global, def: &TableDef) -> Result<String, OutOfMemory> {
    let mut text = String::from_str(alloc, def.name.as_str())?;
    push_columns(alloc, &mut text, def.columns.as_slice())?;
    push_keys(alloc, &mut text, def.keys.as_slice())?;
    Ok(text)
}

fn push_columns(
    alloc: Global,
    text: &mut String,
    columns: &[ColumnDef],
) -> Result<(), OutOfMemory> {
    let mut before = ": ";
    for column in columns {
        text.push_str(before)?;
        text.push_str(column_text(alloc, column)?.as_str())?;
        before = ", ";
    }
    Ok(())
}

fn column_text(alloc: Global, column: &ColumnDef) -> Result<String, AllocError> {
    let name = column.name.as_str();
    let kind = kind_text(alloc, column.kind)?;
    let option = if column.not_null { " NOT NULL" } else { "" };
    format!(in alloc; "{name} {kind}{option}")
}

fn kind_text(alloc: Global, kind: ColumnKind) -> Result<String, AllocError> {
    match kind {
        ColumnKind::Int => String::from_str(alloc, "INT"),
        ColumnKind::BigInt => String::from_str(alloc, "BIGINT"),
        ColumnKind::VarChar(length) => format!(in alloc; "VARCHAR({length})"),
    }
}

fn push_keys(alloc: Global, text: &mut String, keys: &[KeyDef]) -> Result<(), OutOfMemory> {
    let mut before = " / ";
    for key in keys {
        text.push_str(before)?;
        push_key(alloc, text, key)?;
        before = ", ";
    }
    Ok(())
}

fn push_key(alloc: Global, text: &mut String, key: &KeyDef) -> Result<(), OutOfMemory> {
    text.push_str(key_word(key))?;
    text.push_str(key.name.as_str())?;
    for part in key.parts.as_slice() {
        text.push_str(format!(in alloc; " {part}")?.as_str())?;
    }
    Ok(())
}

fn key_word(key: &KeyDef) -> &'static str {
    if key.primary {
        "PRIMARY "
    } else if key.unique {
        "UNIQUE "
    } else {
        "KEY "
    }
}
