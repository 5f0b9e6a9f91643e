//! The tables that the statements are over.

use sa_table::{ColumnDef, ColumnDefs, ColumnKind, KeyDefs, TableDef, Tables};
use sa_value::{OutOfMemory, Text};
use std::alloc::Global;
use std::test::Fail;

/// Each table with its columns. What begins with `s` is a text, with `l` a BIGINT, and all else an
/// INT.
const TABLES: [&str; 4] = [
    "t a",
    "u a b c s l",
    "v d e s2",
    "w w1 w2 w3 w4 w5 w6 w7 w8 w9 w10 w11 w12 w13 w14 w15 w16",
];

/// All tables.
pub(crate) fn tables(alloc: Global) -> Result<Tables, Fail> {
    let mut tables = Tables::new(alloc);
    for text in TABLES {
        tables.create(definition(alloc, text)?)?;
    }
    Ok(tables)
}

fn definition(alloc: Global, text: &str) -> Result<TableDef, OutOfMemory> {
    let (name, columns) = text.split_once(' ').unwrap_or((text, ""));
    let mut defs = Vec::new(alloc);
    for column in columns.split(' ') {
        defs.push(ColumnDef {
            name: Text::from_str(alloc, column)?,
            kind: kind_of(column),
            not_null: false,
        })?;
    }
    Ok(TableDef {
        name: Text::from_str(alloc, name)?,
        columns: ColumnDefs::from_vec(defs),
        keys: KeyDefs::new(alloc),
    })
}

fn kind_of(column: &str) -> ColumnKind {
    if column.starts_with("s") {
        ColumnKind::VarChar(5)
    } else if column.starts_with("l") {
        ColumnKind::BigInt
    } else {
        ColumnKind::Int
    }
}
