ghost use Rattle.std.specs.Prelude.{◌≡◌, ◌<◌, [], length, reverse, slice_set, OnOk, IfOk, IfErr};
ghost use Rattle.std.specs.List.{list_any};
ghost use Rattle.sa_table.specs.AddRow.{row_faults, with_row};
ghost use Rattle.sa_table.specs.Table.{table_at};
ghost use Rattle.sa_table.specs.Create.{same_name};
ghost use Rattle.sa_script.specs.Insert.{CantInsert, HasBadName, HasGoodNames, Inserts, InsertsFirst, has_column, listed, name_fault, row_kind, with_rows};
ghost use Rattle.sa_script.specs.inner.Setup.{IsBadTuple, TellsRow, fault_of, row_in, rows_in};
ghost use Rattle.sa_script.specs.inner.Tells.{Tells};

use crate::fault::{ScriptFault, ScriptKind};
use crate::layout::Layout;
use crate::named::{is_same, table_named};
use sa_ast::{InsertTree, NameTree, NameTrees, TupleTree, TupleTrees};
use sa_table::{RowFault, TableDef, Tables};
use sa_value::{OutOfMemory, Row};
use std::alloc::Global;

/// Puts the rows of an INSERT into its table. Those before a faulty one are there already when it is
/// told.
///
/// Source: MariaDB Knowledge Base, "INSERT".
pub(crate) fn insert(
    alloc: Global,
    tables: &mut Tables,
    tree: InsertTree,
) -> Result<(), ScriptFault>
    ensures inserted { OnOk result (Inserts tables.old tree tables.new) }
    ensures fault { IfErr result (Tells (CantInsert tables.old tree)) }
{
    let InsertTree {
        table,
        columns,
        tuples,
    } = tree;
    let number = table_named(tables, &table)?;
    check_names(tables.def(number), &columns)?;
    let layout = Layout::new(alloc, tables.def(number), &columns)?;
    put_tuples(alloc, tables, number, &layout, tuples)
}

/// Tells the first faulty name of a column list.
fn check_names(def: &TableDef, columns: &Option<NameTrees>) -> Result<(), ScriptFault>
    ensures good { OnOk result (HasGoodNames def.now (listed columns.now)) }
    ensures bad { IfErr result (Tells (HasBadName def.now (listed columns.now))) }
{
    match columns {
        None => Ok(()),
        Some(names) => check_list(def, names.as_slice()),
    }
}

fn check_list(def: &TableDef, names: &[NameTree]) -> Result<(), ScriptFault>
    ensures good { OnOk result (HasGoodNames def.now names.now) }
    ensures bad { IfErr result (Tells (HasBadName def.now names.now)) }
{
    for (index, name) in names.iter().enumerate() {
        if let Some(kind) = name_fault(def, &names[..index], name) {
            return Err(ScriptFault::at(kind, name.place));
        }
    }
    Ok(())
}

/// The fault of a name, after the names before it.
fn name_fault(def: &TableDef, before: &[NameTree], name: &NameTree) -> Option<ScriptKind>
    ensures { result ≡ name_fault def.now before.now name.now }
{
    if !has_column(def, name.name.as_str()) {
        Some(ScriptKind::UnknownColumn)
    } else if has_name(before, name.name.as_str()) {
        Some(ScriptKind::DuplicateName)
    } else {
        None
    }
}

fn has_column(def: &TableDef, name: &str) -> bool
    ensures { result ≡ has_column def.now name.now }
{
    def.columns
        .as_slice()
        .iter()
        .any(|column| is_same(column.name.as_str(), name))
}

fn has_name(names: &[NameTree], name: &str) -> bool
    ensures { result ≡ list_any (λ (other : NameTree). same_name other.name name.now) names.now }
{
    names.iter().any(|other| is_same(other.name.as_str(), name))
}

/// Puts the rows of tuples at the end of a table.
fn put_tuples(
    alloc: Global,
    tables: &mut Tables,
    table: u32,
    layout: &Layout,
    tuples: TupleTrees,
) -> Result<(), ScriptFault>
    requires there { table < length tables.old }
    ensures faultless { let rows = rows_in layout.now tuples in
        OnOk result (InsertsFirst (length tuples) (table_at tables.old table) rows) }
    ensures done { let after = with_rows (table_at tables.old table) (rows_in layout.now tuples) in
        OnOk result (tables.new ≡ slice_set tables.old table after) }
    ensures fault { let rows = rows_in layout.now tuples in
        IfErr result (Tells (IsBadTuple (table_at tables.old table) tuples rows)) }
{
    let mut left = last_first(alloc, tuples)?;
    let mut number: u64 = 0;
    while let Some(TupleTree { values, place }) = left.pop() {
        number += 1;
        if let Err(fault) = put_tuple(alloc, tables, table, layout, values) {
            return Err(row_fault(fault, place, number));
        }
    }
    Ok(())
}

/// The tuples with the last one in front, so that each is taken from the end in its turn.
fn last_first(alloc: Global, mut tuples: TupleTrees) -> Result<Vec<TupleTree>, OutOfMemory>
    ensures { IfOk result (λ left. reverse left.items ≡ tuples) }
{
    let mut left = Vec::with_capacity(alloc, tuples.len())?;
    while let Some(tuple) = tuples.pop() {
        left.push(tuple)?;
    }
    Ok(left)
}

/// Puts the row of a tuple's values at the end of a table.
fn put_tuple(
    alloc: Global,
    tables: &mut Tables,
    table: u32,
    layout: &Layout,
    values: Row,
) -> Result<(), RowFault>
    requires there { table < length tables.old }
    ensures faultless { let row = row_in layout.now values in
        OnOk result (row_faults (table_at tables.old table) row ≡ []) }
    ensures done { let after = with_row (table_at tables.old table) (row_in layout.now values) in
        OnOk result (tables.new ≡ slice_set tables.old table after) }
    ensures fault { let row = row_in layout.now values in
        IfErr result (TellsRow (row_faults (table_at tables.old table) row)) }
{
    let row = layout.row(alloc, values)?;
    tables.add_row(table, row)?;
    Ok(())
}

/// How a fault of a row is told.
fn row_fault(fault: RowFault, place: usize, number: u64) -> ScriptFault
    ensures { result ≡ fault_of (row_kind fault) place (Some number) }
{
    let kind = match fault {
        RowFault::RowFull => ScriptKind::RowFull,
        RowFault::Arity => ScriptKind::Arity,
        RowFault::NullNotAllowed { .. } => ScriptKind::NullNotAllowed,
        RowFault::TypeMismatch { .. } => ScriptKind::TypeMismatch,
        RowFault::OutOfRange { .. } => ScriptKind::OutOfRange,
        RowFault::TooLong { .. } => ScriptKind::TooLong,
        RowFault::DuplicateKey { .. } => ScriptKind::DuplicateKey,
        RowFault::OutOfMemory => return ScriptFault::OutOfMemory,
    };
    ScriptFault::of_row(kind, place, number)
}
