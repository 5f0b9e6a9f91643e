//! The numbers that the rows of an index have in the columns of its key.

ghost use Rattle.std.specs.Prelude.{◌≡◌, ◌<◌, ◌≤◌, false, true, length, map, take, IfOk, slice_index_or};
ghost use Rattle.std.specs.List.{list_any};
ghost use Rattle.sa_value.specs.Value.{value_at};
ghost use Rattle.sa_value.specs.Compare.{order_of};
ghost use Rattle.sa_value.specs.declared.value.Value.TheVariants as values;
ghost use Rattle.sa_key.specs.Cut.{cut_at};
ghost use Rattle.sa_key.specs.Order.{order_of_tuples, is_before};
ghost use Rattle.sa_table.specs.Table.{column_count};
ghost use Rattle.sa_table.specs.AddRow.{is_null};
ghost use Rattle.sa_index.specs.inner.Built.{AreParts};
ghost use Rattle.sa_index.specs.inner.Columns.{HoldsNumbers, AreNumbers, AreKept, number_in, marks_of, column_of, tuple_in, IsParted, LiesBetween};

use crate::entries::cell_of;
use sa_key::{CutRef, KeyRef, Side};
use sa_table::{ColumnKind, Tables};
use sa_value::{OutOfMemory, ValueRef};
use std::alloc::Global;
use std::cmp::Ordering;
use std::marker::Model;

/// The values of a column of numbers. Contracts see the list of them.
#[derive(Drop)]
pub(crate) struct NumberColumn {
    /// The numbers, and 0 for NULL.
    numbers: Vec<i64>,
    /// Which of them stand for NULL. It is empty where none does.
    nulls: Vec<bool>,
}

impl Model for NumberColumn {
    ghost use Rattle.std.specs.Prelude.{List};
    ghost use Rattle.sa_value.specs.declared.value.Value.{Value as value};
    ghost use Rattle.sa_index.specs.inner.Columns.{marked};

    ghost Value = { List value };

    ghost view = { λ column. marked column.numbers.items column.nulls.items };
}

impl NumberColumn {
    /// How the value at a position stands to another one.
    fn order_at(&self, position: usize, value: ValueRef<'_>) -> Ordering
        ensures { result ≡
            order_of (slice_index_or self.now position values.Null) (value_at value.entry) }
    {
        if position >= self.numbers.len() {
            return order_null(value);
        }
        if is_marked(&self.nulls, position) {
            return order_null(value);
        }
        order_number(self.numbers[position], value)
    }
}

/// Whether a position is marked.
fn is_marked(marks: &[bool], position: usize) -> bool
    ensures { result ≡ slice_index_or marks.now position false }
{
    position < marks.len() && marks[position]
}

/// How NULL stands to a value.
fn order_null(value: ValueRef<'_>) -> Ordering
    ensures { result ≡ order_of values.Null (value_at value.entry) }
{
    match value {
        ValueRef::Null => Ordering::Equal,
        _ => Ordering::Less,
    }
}

/// How a number stands to a value.
fn order_number(number: i64, value: ValueRef<'_>) -> Ordering
    ensures { result ≡ order_of (values.Int number) (value_at value.entry) }
{
    match value {
        ValueRef::Null => Ordering::Greater,
        ValueRef::Int(other) => number.cmp(&other),
        ValueRef::Big(other) => i128::from(number).cmp(&other),
        ValueRef::Text(_) => Ordering::Less,
    }
}

/// The number that is kept of a value.
fn number_of(value: ValueRef<'_>) -> i64
    ensures { result ≡ number_in (value_at value.entry) }
{
    match value {
        ValueRef::Int(number) => number,
        _ => 0,
    }
}

fn is_null(value: ValueRef<'_>) -> bool
    ensures { result ≡ is_null (value_at value.entry) }
{
    match value {
        ValueRef::Null => true,
        _ => false,
    }
}

/// Whether a column is one of numbers.
fn holds_numbers(tables: &Tables, table: u32, part: u32) -> bool
    requires table_there { table < length tables.now }
    requires column_there { part < column_count tables.now table }
    ensures { result ≡ true → HoldsNumbers tables.now table part }
{
    let _sound = tables.len();
    match tables.def(table).columns.as_slice()[part as usize].kind {
        ColumnKind::Int | ColumnKind::BigInt => true,
        ColumnKind::VarChar(_) => false,
    }
}

/// Whether all of these columns are.
fn all_hold_numbers(tables: &Tables, table: u32, parts: &[u32]) -> bool
    requires { AreParts tables.now table parts.now }
    ensures { result ≡ true → AreNumbers tables.now table parts.now }
{
    for part in parts {
        if !holds_numbers(tables, table, *part) {
            return false;
        }
    }
    true
}

/// The numbers that rows have in a column.
fn numbers_in(
    alloc: Global,
    tables: &Tables,
    table: u32,
    part: u32,
    rows: &[u32],
) -> Result<Vec<i64>, OutOfMemory>
    requires table_there { table < length tables.now }
    requires column_there { part < column_count tables.now table }
    ensures { IfOk result
        (λ numbers. numbers.items ≡ map number_in (column_of tables.now table rows.now part)) }
{
    let mut numbers = Vec::with_capacity(alloc, rows.len())?;
    for row in rows {
        numbers.push(number_of(cell_of(tables, table, *row, part)))?;
    }
    Ok(numbers)
}

/// Whether one of some rows has NULL in a column.
fn has_null(tables: &Tables, table: u32, part: u32, rows: &[u32]) -> bool
    requires table_there { table < length tables.now }
    requires column_there { part < column_count tables.now table }
    ensures { result ≡ list_any is_null (column_of tables.now table rows.now part) }
{
    for row in rows {
        if is_null(cell_of(tables, table, *row, part)) {
            return true;
        }
    }
    false
}

/// Which rows have NULL in a column: no marks where none has.
fn nulls_in(
    alloc: Global,
    tables: &Tables,
    table: u32,
    part: u32,
    rows: &[u32],
) -> Result<Vec<bool>, OutOfMemory>
    requires table_there { table < length tables.now }
    requires column_there { part < column_count tables.now table }
    ensures { IfOk result
        (λ nulls. nulls.items ≡ marks_of (column_of tables.now table rows.now part)) }
{
    if !has_null(tables, table, part, rows) {
        return Ok(Vec::new(alloc));
    }
    let mut nulls = Vec::with_capacity(alloc, rows.len())?;
    for row in rows {
        nulls.push(is_null(cell_of(tables, table, *row, part)))?;
    }
    Ok(nulls)
}

/// What rows have in a column of numbers.
fn number_column(
    alloc: Global,
    tables: &Tables,
    table: u32,
    part: u32,
    rows: &[u32],
) -> Result<NumberColumn, OutOfMemory>
    requires table_there { table < length tables.now }
    requires column_there { part < column_count tables.now table }
    requires numbers { HoldsNumbers tables.now table part }
    ensures { IfOk result (λ column. column ≡ column_of tables.now table rows.now part) }
{
    let numbers = numbers_in(alloc, tables, table, part, rows)?;
    let nulls = nulls_in(alloc, tables, table, part, rows)?;
    Ok(NumberColumn { numbers, nulls })
}

/// What rows have in these columns, if they are all columns of numbers. Else nothing is kept.
pub(crate) fn number_columns(
    alloc: Global,
    tables: &Tables,
    table: u32,
    parts: &[u32],
    rows: &[u32],
) -> Result<Vec<NumberColumn>, OutOfMemory>
    requires { AreParts tables.now table parts.now }
    ensures { IfOk result (λ columns. AreKept tables.now table parts.now rows.now columns.items) }
{
    if !all_hold_numbers(tables, table, parts) {
        return Ok(Vec::new(alloc));
    }
    let mut columns = Vec::with_capacity(alloc, parts.len())?;
    for part in parts {
        columns.push(number_column(alloc, tables, table, *part, rows)?)?;
    }
    Ok(columns)
}

/// How what columns have at a position stands to a tuple, which has no more parts.
fn order_front(columns: &[NumberColumn], position: usize, tuple: &KeyRef<'_>) -> Ordering
    requires { length tuple.now ≤ length columns.now }
    ensures { result ≡ order_of_tuples
        (take (length tuple.now) (tuple_in columns.now position)) tuple.now }
{
    for part in 0..tuple.len() {
        let order = columns[part].order_at(position, tuple.get(part));
        if order.is_ne() {
            return order;
        }
    }
    Ordering::Equal
}

/// Whether what columns have at a position lies before a cut, which has no more parts.
fn is_before_at(columns: &[NumberColumn], position: usize, cut: &CutRef<'_>) -> bool
    requires { length cut.now.tuple ≤ length columns.now }
    ensures { result ≡ is_before (tuple_in columns.now position) (cut_at cut.now) }
{
    match (order_front(columns, position, &cut.tuple), cut.side) {
        (Ordering::Less, _) | (Ordering::Equal, Side::Above) => true,
        (Ordering::Equal, Side::Below) | (Ordering::Greater, _) => false,
    }
}

/// How many of the first positions lie before a cut, where those that do stand in front.
pub(crate) fn positions_before(
    columns: &[NumberColumn],
    positions: usize,
    cut: &CutRef<'_>,
) -> usize
    requires fits { length cut.now.tuple ≤ length columns.now }
    requires parted { IsParted columns.now positions (cut_at cut.now) }
    ensures { LiesBetween columns.now positions (cut_at cut.now) result result }
{
    let mut low = 0;
    let mut high = positions;
    while low < high {
        let middle = low + (high - low) / 2;
        if is_before_at(columns, middle, cut) {
            low = middle + 1;
        } else {
            high = middle;
        }
    }
    low
}
