ghost use Rattle.std.specs.Prelude.{◌≡◌, ◌≤◌, nat_lt, length, map, codes, slice_get, if◌then◌else◌, All, OnOk, IfOk, IfErr};
ghost use Rattle.std.specs.List.{enumerate_from, list_any, position, position_or_len};
ghost use Rattle.sa_table.specs.Create.{same_name};
ghost use Rattle.sa_script.specs.Create.{CantCreate, Creates, column_of, def_of, key_of, kind_of, part_of, table_kind, written_name};
ghost use Rattle.sa_script.specs.inner.Setup.{IsSmall, fault_of, is_column, limits_passed};
ghost use Rattle.sa_script.specs.inner.Tells.{Tells};

use crate::fault::{ScriptFault, ScriptKind};
use crate::named::is_same;
use sa_ast::{ColumnTree, CreateTree, KeyTree, KindTree};
use sa_table::{
    ColumnDef, ColumnDefs, ColumnKind, KeyDef, KeyDefs, Parts, TableDef, TableFault, Tables,
};
use sa_value::{OutOfMemory, Text};
use std::alloc::Global;

/// The limits of a definition. One that passes them is not made, however long it is.
const MOST_TABLES: u32 = 32;

const MOST_COLUMNS: usize = 32;

const MOST_KEYS: usize = 8;

const MOST_PARTS: usize = 4;

/// Makes the table of a CREATE TABLE. A fault stands at the table's name.
///
/// Source: MariaDB Knowledge Base, "CREATE TABLE".
pub(crate) fn create(
    alloc: Global,
    tables: &mut Tables,
    tree: CreateTree,
) -> Result<(), ScriptFault>
    ensures created { OnOk result (Creates tables.old tree tables.new) }
    ensures fault { IfErr result (Tells (CantCreate tables.old tree)) }
{
    let place = tree.name.place;
    if let Some(fault) = limit_fault(tables.len(), &tree) {
        return Err(definition_fault(fault, place));
    }
    let def = table_def(alloc, &tree)?;
    match tables.create(def) {
        Ok(_) => Ok(()),
        Err(fault) => Err(definition_fault(fault, place)),
    }
}

/// How a fault of a definition is told.
fn definition_fault(fault: TableFault, place: usize) -> ScriptFault
    ensures { result ≡ fault_of (table_kind fault) place None }
{
    let kind = match fault {
        TableFault::TooManyTables => ScriptKind::TooManyTables,
        TableFault::TooManyColumns => ScriptKind::TooManyColumns,
        TableFault::TooManyKeys => ScriptKind::TooManyKeys,
        TableFault::TooManyParts => ScriptKind::TooManyParts,
        TableFault::DuplicateName => ScriptKind::DuplicateName,
        TableFault::UnknownColumn => ScriptKind::UnknownColumn,
        TableFault::SecondPrimary => ScriptKind::SecondPrimary,
        TableFault::OutOfMemory => return ScriptFault::OutOfMemory,
    };
    ScriptFault::at(kind, place)
}

/// The first limit that a definition passes beside so many tables.
fn limit_fault(tables: u32, tree: &CreateTree) -> Option<TableFault>
    ensures { result ≡ slice_get (limits_passed tables tree.now) 0 }
{
    if tables >= MOST_TABLES {
        Some(TableFault::TooManyTables)
    } else if tree.columns.len() > MOST_COLUMNS {
        Some(TableFault::TooManyColumns)
    } else if tree.keys.len() > MOST_KEYS {
        Some(TableFault::TooManyKeys)
    } else if has_long_key(tree.keys.as_slice()) {
        Some(TableFault::TooManyParts)
    } else {
        None
    }
}

fn has_long_key(keys: &[KeyTree]) -> bool
    ensures { result ≡ list_any (λ (key : KeyTree). nat_lt 4 (length key.columns)) keys.now }
{
    keys.iter().any(|key| key.columns.len() > MOST_PARTS)
}

/// What a definition says.
fn table_def(alloc: Global, tree: &CreateTree) -> Result<TableDef, OutOfMemory>
    requires { IsSmall tree.now }
    ensures { IfOk result (λ def. def ≡ def_of tree.now) }
{
    let name = tree.name.name.copy(alloc)?;
    let columns = column_defs(alloc, tree.columns.as_slice())?;
    let keys = key_defs(alloc, tree.columns.as_slice(), tree.keys.as_slice())?;
    Ok(TableDef {
        name,
        columns,
        keys,
    })
}

fn column_defs(alloc: Global, columns: &[ColumnTree]) -> Result<ColumnDefs, OutOfMemory>
    ensures { IfOk result (λ defs. defs ≡ map column_of columns.now) }
{
    let mut defs = Vec::with_capacity(alloc, columns.len())?;
    for column in columns {
        defs.push(column_def(alloc, column)?)?;
    }
    Ok(ColumnDefs::from_vec(defs))
}

fn column_def(alloc: Global, column: &ColumnTree) -> Result<ColumnDef, OutOfMemory>
    ensures { IfOk result (λ def. def ≡ column_of column.now) }
{
    Ok(ColumnDef {
        name: column.name.copy(alloc)?,
        kind: column_kind(column.kind),
        not_null: column.not_null,
    })
}

fn column_kind(kind: KindTree) -> ColumnKind
    ensures { result ≡ kind_of kind }
{
    match kind {
        KindTree::Int => ColumnKind::Int,
        KindTree::BigInt => ColumnKind::BigInt,
        KindTree::VarChar(characters) => ColumnKind::VarChar(characters),
    }
}

/// The keys, which are numbered from 1 on.
fn key_defs(alloc: Global, columns: &[ColumnTree], keys: &[KeyTree]) -> Result<KeyDefs, OutOfMemory>
    requires columns { length columns.now ≤ 32 }
    requires parts { All (λ (key : KeyTree). length key.columns ≤ 4) keys.now }
    ensures { IfOk result (λ defs. defs ≡ map (key_of columns.now) (enumerate_from 1 keys.now)) }
{
    let mut defs = Vec::with_capacity(alloc, keys.len())?;
    for (index, key) in keys.iter().enumerate() {
        defs.push(key_def(alloc, columns, index + 1, key)?)?;
    }
    Ok(KeyDefs::from_vec(defs))
}

fn key_def(
    alloc: Global,
    columns: &[ColumnTree],
    number: usize,
    key: &KeyTree,
) -> Result<KeyDef, OutOfMemory>
    requires columns { length columns.now ≤ 32 }
    requires parts { length key.now.columns ≤ 4 }
    ensures { IfOk result (λ def. def ≡ key_of columns.now (number, key.now)) }
{
    let name = key_name(alloc, number, key)?;
    let parts = key_parts(alloc, columns, key.columns.as_slice())?;
    Ok(KeyDef {
        name,
        unique: key.unique,
        primary: key.primary,
        parts,
    })
}

/// The name of a key, which has one of its own where none is written.
fn key_name(alloc: Global, number: usize, key: &KeyTree) -> Result<Text, OutOfMemory>
    ensures { let written = written_name number key.now.name in
        let name = if key.now.primary then codes "PRIMARY" else written in
        IfOk result (λ text. text ≡ name) }
{
    if key.primary {
        return Text::from_str(alloc, "PRIMARY");
    }
    match &key.name {
        Some(name) => name.copy(alloc),
        None => Ok(Text::from_string(format!(in alloc; "k{number}")?)),
    }
}

fn key_parts(alloc: Global, columns: &[ColumnTree], names: &[Text]) -> Result<Parts, OutOfMemory>
    requires columns { length columns.now ≤ 32 }
    requires names { length names.now ≤ 4 }
    ensures { IfOk result (λ parts. parts ≡ map (part_of columns.now names.now) names.now) }
{
    let mut parts = Vec::with_capacity(alloc, names.len())?;
    for name in names {
        parts.push(part_of(columns, names, name.as_str()))?;
    }
    Ok(Parts::from_vec(parts))
}

/// The number of a key's column. A name of no column stands for one past them.
fn part_of(columns: &[ColumnTree], names: &[Text], name: &str) -> u32
    requires columns { length columns.now ≤ 32 }
    requires names { length names.now ≤ 4 }
    ensures { result ≡ part_of columns.now names.now name.now }
{
    let index = column_index(columns, name);
    if index == columns.len() {
        (index + name_index(names, name)) as u32
    } else {
        index as u32
    }
}

/// Which column has a name, or how many columns there are.
fn column_index(columns: &[ColumnTree], name: &str) -> usize
    ensures index { result ≡ position_or_len (is_column name.now) columns.now }
    ensures few { result ≤ length columns.now }
{
    column_named(columns, name).unwrap_or(columns.len())
}

fn column_named(columns: &[ColumnTree], name: &str) -> Option<usize>
    ensures { result ≡ position (is_column name.now) columns.now }
{
    columns
        .iter()
        .position(|column| is_same(column.name.as_str(), name))
}

/// Where a name stands first, or how many names there are.
fn name_index(names: &[Text], name: &str) -> usize
    ensures index { result ≡ position_or_len (same_name name.now) names.now }
    ensures few { result ≤ length names.now }
{
    name_at(names, name).unwrap_or(names.len())
}

fn name_at(names: &[Text], name: &str) -> Option<usize>
    ensures { result ≡ position (same_name name.now) names.now }
{
    names.iter().position(|other| is_same(name, other.as_str()))
}
