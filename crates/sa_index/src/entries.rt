//! Rows in the order of some columns of a table.

ghost use Rattle.std.specs.Prelude.{◌≡◌, ◌+◌, ◌<◌, ◌≤◌, length, map, take, drop, IfOk, count_by};
ghost use Rattle.std.specs.List.{range_with_len};
ghost use Rattle.sa_value.specs.Value.{value_at};
ghost use Rattle.sa_key.specs.Cut.{cut_at};
ghost use Rattle.sa_key.specs.Order.{is_before};
ghost use Rattle.sa_table.specs.Table.{cell_at, column_count, row_count};
ghost use Rattle.sa_index.specs.Indexed.{IsKeyOf, parts_of, tuple_of};
ghost use Rattle.sa_index.specs.Entries.{different, is_alike, order_of_rows};
ghost use Rattle.sa_index.specs.Law.{IsInOrder};
ghost use Rattle.sa_index.specs.inner.Built.{AreParts, Rise, is_last, ends};

use arrayvec::ArrayVec;
use sa_key::{
    CutRef, KeyRef, before_cut, before_goes_down, order_of_tuples_is_total, order_tuples,
};
use sa_table::Tables;
use sa_value::{OutOfMemory, ValueRef};
use std::alloc::Global;
use std::cmp::Ordering;

/// The columns of a key.
pub(crate) fn parts_of(tables: &Tables, table: u32, key: u32) -> &[u32]
    requires { IsKeyOf tables.now table key }
    ensures value { result.now ≡ parts_of tables.now table key }
    ensures parts { AreParts tables.now table result.now }
{
    let _there = tables.len();
    tables.def(table).keys.as_slice()[key as usize]
        .parts
        .as_slice()
}

/// The value of a cell, and NULL where the row isn't there.
pub(crate) fn cell_of(tables: &Tables, table: u32, row: u32, column: u32) -> ValueRef<'_>
    requires table_there { table < length tables.now }
    requires column_there { column < column_count tables.now table }
    ensures { value_at result ≡ cell_at tables.now table row column }
{
    if row < tables.count(table) {
        tables.cell(table, row, column)
    } else {
        ValueRef::Null
    }
}

/// What a row has in these columns.
fn tuple_of<'a>(tables: &'a Tables, table: u32, parts: &[u32], row: u32) -> KeyRef<'a>
    requires { AreParts tables.now table parts.now }
    ensures { result ≡ tuple_of tables.now table parts.now row }
{
    let mut tuple = KeyRef::new();
    for part in parts {
        tuple.push(cell_of(tables, table, row, *part));
    }
    tuple
}

/// How two rows stand: by their tuples, and by their numbers where these are equal.
fn order_rows(tables: &Tables, table: u32, parts: &[u32], row: u32, other: u32) -> Ordering
    requires { AreParts tables.now table parts.now }
    ensures { result ≡ order_of_rows tables.now table parts.now row other }
{
    let tuple = tuple_of(tables, table, parts, row);
    let next = tuple_of(tables, table, parts, other);
    order_tuples(&tuple, &next).then(row.cmp(&other))
}

/// The rows of a table by their numbers.
fn all_rows(alloc: Global, count: u32) -> Result<Vec<u32>, OutOfMemory>
    ensures { IfOk result (λ rows. rows.items ≡ range_with_len 0 count) }
{
    let mut rows = Vec::with_capacity(alloc, count as usize)?;
    for row in 0..count {
        rows.push(row)?;
    }
    Ok(rows)
}

/// Puts rows in the order of these columns.
fn sort_rows(tables: &Tables, table: u32, parts: &[u32], rows: &mut Vec<u32>)
    requires { AreParts tables.now table parts.now }
    ensures { IsInOrder (order_of_rows tables.now table parts.now) rows.old.items rows.new.items }
{
    order_of_tuples_is_total();
    rows.sort_unstable_by(|row, other| order_rows(tables, table, parts, *row, *other));
}

/// How many rows a table has, a million at most.
fn count_rows(tables: &Tables, table: u32) -> u32
    requires { table < length tables.now }
    ensures value { result ≡ row_count tables.now table }
    ensures few { result ≤ 1000000 }
{
    let _there = tables.len();
    tables.count(table)
}

/// The rows of a table in the order of these columns.
pub(crate) fn sorted_rows(
    alloc: Global,
    tables: &Tables,
    table: u32,
    parts: &[u32],
) -> Result<Vec<u32>, OutOfMemory>
    requires { AreParts tables.now table parts.now }
    ensures in_order { IfOk result (λ rows. IsInOrder (order_of_rows tables.now table parts.now)
        (range_with_len 0 (row_count tables.now table)) rows.items) }
    ensures few { IfOk result (λ rows. length rows.items ≤ 1000000) }
{
    let mut rows = all_rows(alloc, count_rows(tables, table))?;
    sort_rows(tables, table, parts, &mut rows);
    Ok(rows)
}

/// Whether a row lies before a cut.
fn is_row_before(tables: &Tables, table: u32, parts: &[u32], row: u32, cut: &CutRef<'_>) -> bool
    requires parts { AreParts tables.now table parts.now }
    requires fits { length cut.now.tuple ≤ length parts.now }
    ensures { result ≡ is_before (tuple_of tables.now table parts.now row) (cut_at cut.now) }
{
    before_cut(&tuple_of(tables, table, parts, row), cut)
}

/// How many rows of a sorted list lie before a cut.
pub(crate) fn count_before(
    tables: &Tables,
    table: u32,
    parts: &[u32],
    rows: &[u32],
    cut: &CutRef<'_>,
) -> u32
    requires parts { AreParts tables.now table parts.now }
    requires rise { Rise (order_of_rows tables.now table parts.now) rows.now }
    requires few { length rows.now ≤ 1000000 }
    requires fits { length cut.now.tuple ≤ length parts.now }
    ensures { result ≡ count_by
        (λ row. is_before (tuple_of tables.now table parts.now row) (cut_at cut.now)) rows.now }
{
    order_of_tuples_is_total();
    before_goes_down();
    let before = rows.partition_point(|row| is_row_before(tables, table, parts, *row, cut));
    before as u32
}

/// Whether two rows have equal values in these columns.
fn are_alike(tables: &Tables, table: u32, parts: &[u32], row: u32, other: u32) -> bool
    requires { AreParts tables.now table parts.now }
    ensures { result ≡ is_alike tables.now table parts.now row other }
{
    let tuple = tuple_of(tables, table, parts, row);
    let next = tuple_of(tables, table, parts, other);
    order_tuples(&tuple, &next).is_eq()
}

/// Whether a row of a list is the last one, or has other values than the next in these columns.
fn is_last_of_its_kind(
    tables: &Tables,
    table: u32,
    parts: &[u32],
    rows: &[u32],
    index: usize,
) -> bool
    requires parts { AreParts tables.now table parts.now }
    requires there { index < length rows.now }
    requires few { length rows.now ≤ 1000000 }
    ensures { result ≡ is_last (is_alike tables.now table parts.now) (drop index rows.now) }
{
    let next = index + 1;
    if next == rows.len() {
        return true;
    }
    !are_alike(tables, table, parts, rows[index], rows[next])
}

/// How many different values the rows of a sorted list have in these columns.
fn distinct_count(tables: &Tables, table: u32, parts: &[u32], rows: &[u32]) -> u32
    requires parts { AreParts tables.now table parts.now }
    requires few { length rows.now ≤ 1000000 }
    ensures { result ≡ ends (is_alike tables.now table parts.now) rows.now }
{
    let mut count = 0;
    for index in 0..rows.len() {
        count += u32::from(is_last_of_its_kind(tables, table, parts, rows, index));
    }
    count
}

/// How many different values the rows of a sorted list have in no part, in the first, in the first
/// two, and on.
pub(crate) fn distinct_counts(
    tables: &Tables,
    table: u32,
    parts: &[u32],
    rows: &[u32],
) -> ArrayVec<u32, 5>
    requires parts { AreParts tables.now table parts.now }
    requires few { length rows.now ≤ 1000000 }
    requires rise { Rise (order_of_rows tables.now table parts.now) rows.now }
    ensures { result.items ≡ map
        (λ count. different (is_alike tables.now table (take count parts.now)) rows.now)
        (range_with_len 0 (length parts.now + 1)) }
{
    order_of_tuples_is_total();
    let mut counts = ArrayVec::new();
    for count in 0..parts.len() + 1 {
        counts.push(distinct_count(tables, table, &parts[..count], rows));
    }
    counts
}
