ghost use Rattle.std.specs.Prelude.{◌≡◌, length, map, nat_eq, nat_lt, nat_le, ◌||◌, ◌++◌, count_by};
ghost use Rattle.std.specs.List.{enumerate_from, list_any};
ghost use Rattle.sa_table.specs.Table.{is_part, is_primary_part, raised_column, raised};
ghost use Rattle.sa_table.specs.Create.{same_name, any_alike, same_key_name, has_duplicate_name, table_faults, told};
ghost use Rattle.sa_table.specs.inner.First.{first};

use crate::def::{ColumnDef, KeyDef, TableDef};
use crate::fault::TableFault;
use crate::stored::StoredTable;

/// The limits of a definition.
const MOST_TABLES: usize = 32;

const MOST_COLUMNS: usize = 32;

const MOST_KEYS: usize = 8;

const MOST_PARTS: usize = 4;

/// The first fault of a definition that is to stand beside these tables.
pub(crate) fn table_fault(tables: &[StoredTable], def: &TableDef) -> Option<TableFault>
    ensures { result ≡ first (table_faults tables.now def.now) }
{
    match limit_fault(tables, def) {
        Some(fault) => Some(fault),
        None => name_fault(tables, def),
    }
}

/// The first limit that a definition passes.
fn limit_fault(tables: &[StoredTable], def: &TableDef) -> Option<TableFault>
    ensures { result ≡ first (
        told (nat_le 32 (length tables.now)) TableFault.TooManyTables
        ++ told (nat_lt 32 (length def.now.columns)) TableFault.TooManyColumns
        ++ told (nat_lt 8 (length def.now.keys)) TableFault.TooManyKeys
        ++ told (list_any (λ key. nat_lt 4 (length key.parts)) def.now.keys) TableFault.TooManyParts) }
{
    if tables.len() >= MOST_TABLES {
        Some(TableFault::TooManyTables)
    } else if def.columns.len() > MOST_COLUMNS {
        Some(TableFault::TooManyColumns)
    } else if def.keys.len() > MOST_KEYS {
        Some(TableFault::TooManyKeys)
    } else if has_long_key(def.keys.as_slice()) {
        Some(TableFault::TooManyParts)
    } else {
        None
    }
}

/// The first fault of the names of a definition and of what they name.
fn name_fault(tables: &[StoredTable], def: &TableDef) -> Option<TableFault>
    ensures { result ≡ first (
        told (has_duplicate_name tables.now def.now) TableFault.DuplicateName
        ++ told (list_any (λ key. list_any (nat_le (length def.now.columns)) key.parts) def.now.keys)
        TableFault.UnknownColumn
        ++ told (nat_lt 1 (count_by (λ key. key.primary) def.now.keys)) TableFault.SecondPrimary) }
{
    if has_duplicate_name(tables, def) {
        Some(TableFault::DuplicateName)
    } else if has_unknown_column(def.keys.as_slice(), def.columns.len()) {
        Some(TableFault::UnknownColumn)
    } else if primary_count(def.keys.as_slice()) > 1 {
        Some(TableFault::SecondPrimary)
    } else {
        None
    }
}

fn has_long_key(keys: &[KeyDef]) -> bool
    ensures { result ≡ list_any (λ key. nat_lt 4 (length key.parts)) keys.now }
{
    keys.iter().any(|key| key.parts.len() > MOST_PARTS)
}

fn primary_count(keys: &[KeyDef]) -> usize
    ensures { result ≡ count_by (λ key. key.primary) keys.now }
{
    keys.iter().filter(|key| key.primary).count()
}

fn has_duplicate_name(tables: &[StoredTable], def: &TableDef) -> bool
    ensures { result ≡ has_duplicate_name tables.now def.now }
{
    if has_name(tables, def.name.as_str()) || has_column_twice(def.columns.as_slice()) {
        return true;
    }
    let keys = def.keys.as_slice();
    any_part_twice(keys) || has_key_twice(keys)
}

fn any_part_twice(keys: &[KeyDef]) -> bool
    ensures { result ≡ list_any (λ key. any_alike nat_eq key.parts) keys.now }
{
    keys.iter().any(|key| has_part_twice(key.parts.as_slice()))
}

fn has_name(tables: &[StoredTable], name: &str) -> bool
    ensures { result ≡ list_any (λ table. same_name table.def.name name.now) tables.now }
{
    tables.iter().any(|table| table.has_name(name))
}

fn has_column_twice(columns: &[ColumnDef]) -> bool
    ensures { result ≡ any_alike (λ a b. same_name a.name b.name) columns.now }
{
    for (number, column) in columns.iter().enumerate() {
        if has_column(&columns[number + 1..], column.name.as_str()) {
            return true;
        }
    }
    false
}

fn has_column(columns: &[ColumnDef], name: &str) -> bool
    ensures { result ≡ list_any (λ column. same_name name.now column.name) columns.now }
{
    columns
        .iter()
        .any(|column| is_same(name, column.name.as_str()))
}

fn has_part_twice(parts: &[u32]) -> bool
    ensures { result ≡ any_alike nat_eq parts.now }
{
    for (number, part) in parts.iter().enumerate() {
        if parts[number + 1..].contains(part) {
            return true;
        }
    }
    false
}

fn has_key_twice(keys: &[KeyDef]) -> bool
    ensures { result ≡ any_alike same_key_name keys.now }
{
    for (number, key) in keys.iter().enumerate() {
        if has_key_like(&keys[number + 1..], key) {
            return true;
        }
    }
    false
}

fn has_key_like(keys: &[KeyDef], key: &KeyDef) -> bool
    ensures { result ≡ list_any (same_key_name key.now) keys.now }
{
    keys.iter().any(|other| is_key_like(key, other))
}

fn is_key_like(key: &KeyDef, other: &KeyDef) -> bool
    ensures { result ≡ same_key_name key.now other.now }
{
    is_same(key.name.as_str(), other.name.as_str()) && !(key.primary && other.primary)
}

pub(crate) fn is_same(a: &str, b: &str) -> bool
    ensures { result ≡ same_name a.now b.now }
{
    a == b
}

fn has_unknown_column(keys: &[KeyDef], columns: usize) -> bool
    ensures { result ≡ list_any (λ key. list_any (nat_le columns) key.parts) keys.now }
{
    keys.iter()
        .any(|key| has_part_past(key.parts.as_slice(), columns))
}

fn has_part_past(parts: &[u32], columns: usize) -> bool
    ensures { result ≡ list_any (nat_le columns) parts.now }
{
    parts.iter().any(|part| columns <= *part as usize)
}

fn is_part(column: usize, key: &KeyDef) -> bool
    ensures { result ≡ is_part column key.now }
{
    key.parts
        .as_slice()
        .iter()
        .any(|part| *part as usize == column)
}

fn is_primary_part(keys: &[KeyDef], column: usize) -> bool
    ensures { result ≡ is_primary_part keys.now column }
{
    keys.iter().any(|key| key.primary && is_part(column, key))
}

/// The columns, with those of the primary key NOT NULL.
pub(crate) fn raise(mut columns: Vec<ColumnDef>, keys: &[KeyDef]) -> Vec<ColumnDef>
    ensures { result.items ≡ map (raised_column keys.now) (enumerate_from 0 columns.items) }
{
    for number in 0..columns.len() {
        let primary = is_primary_part(keys, number);
        raise_column(&mut columns[number], primary);
    }
    columns
}

fn raise_column(column: &mut ColumnDef, primary: bool)
    ensures { column.new ≡ record column.old { not_null = column.old.not_null || primary } }
{
    column.not_null = column.not_null || primary;
}
