ghost use Rattle.std.specs.Prelude.{◌≡◌, ◌<◌, ◌≤◌, length, drop, map, Some, All, slice_get};
ghost use Rattle.sa_table.specs.Table.{row_count};
ghost use Rattle.sa_index.specs.Indexed.{IsKeyOf, key_parts};
ghost use Rattle.sa_index.specs.Entries.{count_before};
ghost use Rattle.sa_key.specs.Cut.{cut_at};
ghost use Rattle.sa_plan.specs.Access.{key_of};
ghost use Rattle.sa_plan.specs.Lawful.{IsShort};
ghost use Rattle.sa_plan.specs.Scan.{scan, sought};
ghost use Rattle.sa_cursor.specs.Reading.{CanRead, IsThere};
ghost use Rattle.sa_cursor.specs.inner.Stretch.{ordered, rows_left, IsReadable, IsSettled, IsNextRange, AreEqualRows};

use crate::law::{
    each_order_has_all_rows, equal_entries_lie_between_cuts, ranges_follow_one_another,
};
use crate::sought::{has_null, sought_tuple};
use sa_cond::Cells;
use sa_index::{Index, Shelf};
use sa_key::{CutRef, KeyRange, Side};
use sa_plan::{Access, Level, RefPart};
use sa_table::Tables;

/// Positions that are read one after another, and how many ranges are begun with them.
#[derive(Clone, Copy)]
pub(crate) struct Stretch {
    pub position: u32,
    pub end: u32,
    pub begun: usize,
}

/// The first rows of a level's access.
pub(crate) fn first<I: Index, R: Cells>(level: &Level, shelf: &Shelf<I>, earlier: &R) -> Stretch
    requires can_read { CanRead shelf.now (R.has_cell earlier.now) level.now }
    ensures rows { rows_left shelf.now level.now result
        ≡ scan level.now.access shelf.now level.now.table (R.cell_of earlier.now) }
    ensures settled { IsSettled shelf.now level.now result }
{
    each_order_has_all_rows();
    ranges_follow_one_another();
    match &level.access {
        Access::All => all_of(shelf.tables().count(level.table)),
        Access::Index { key } => all_of(shelf.index(level.table, *key).count()),
        Access::Range { key, list } => next_range(
            shelf.index(level.table, *key),
            shelf.tables(),
            list.ranges.as_slice(),
            0,
        ),
        Access::Ref { key, from } | Access::EqRef { key, from } | Access::Const { key, from } =>
            equal_rows(
                shelf.index(level.table, *key),
                shelf.tables(),
                from.as_slice(),
                earlier,
            ),
    }
}

/// What is left behind the first row of a stretch.
pub(crate) fn behind<I: Index>(level: &Level, shelf: &Shelf<I>, stretch: Stretch) -> Stretch
    requires readable { IsReadable shelf.now level.now }
    requires settled { IsSettled shelf.now level.now stretch }
    requires row { stretch.position < stretch.end }
    ensures rows { rows_left shelf.now level.now result
        ≡ drop 1 (rows_left shelf.now level.now stretch) }
    ensures settled { IsSettled shelf.now level.now result }
{
    let rest = Stretch {
        position: stretch.position + 1,
        ..stretch
    };
    if rest.position < rest.end {
        return rest;
    }
    match &level.access {
        Access::Range { key, list } => next_range(
            shelf.index(level.table, *key),
            shelf.tables(),
            list.ranges.as_slice(),
            rest.begun,
        ),
        _ => rest,
    }
}

/// The row at a position of a level's table, in the order of its access.
pub(crate) fn row_at<I: Index>(level: &Level, shelf: &Shelf<I>, position: u32) -> u32
    requires readable { IsReadable shelf.now level.now }
    requires there { position < row_count shelf.now level.now.table }
    ensures { slice_get (ordered shelf.now level.now.table (key_of level.now.access)) position
        ≡ Some result }
{
    match level.access.key() {
        Some(key) => shelf.index(level.table, key).at(position),
        None => position,
    }
}

/// All of so many positions.
fn all_of(count: u32) -> Stretch
    ensures { result ≡ record { position = 0; end = count; begun = 0 } }
{
    Stretch {
        position: 0,
        end: count,
        begun: 0,
    }
}

/// The rows of the first range that has some, behind the first so many ranges.
fn next_range<I: Index>(index: &I, tables: &Tables, ranges: &[KeyRange], begun: usize) -> Stretch
    requires same { tables.now ≡ (I.indexed index.now).tables }
    requires short { All (IsShort (length (key_parts (I.indexed index.now)))) ranges.now }
    ensures { IsNextRange (I.indexed index.now) ranges.now begun result }
{
    for number in begun..ranges.len() {
        let position = position_of(index, tables, &ranges[number].from.view());
        let end = position_of(index, tables, &ranges[number].to.view());
        if position < end {
            return Stretch {
                position,
                end,
                begun: number + 1,
            };
        }
    }
    Stretch {
        position: 0,
        end: 0,
        begun: ranges.len(),
    }
}

/// The entries that have these values in the first parts of the key; none where one is NULL.
fn equal_rows<I: Index, R: Cells>(
    index: &I,
    tables: &Tables,
    from: &[RefPart],
    earlier: &R,
) -> Stretch
    requires same { tables.now ≡ (I.indexed index.now).tables }
    requires fits { length from.now ≤ length (key_parts (I.indexed index.now)) }
    requires key { let index = I.indexed index.now in IsKeyOf index.tables index.table index.key }
    requires cells { All (IsThere (R.has_cell earlier.now)) from.now }
    ensures { AreEqualRows (I.indexed index.now) (map (sought (R.cell_of earlier.now)) from.now) result }
{
    equal_entries_lie_between_cuts();
    let _sound = tables.len();
    let tuple = sought_tuple(from, earlier);
    if has_null(&tuple) {
        return all_of(0);
    }
    let mut cut = CutRef {
        tuple,
        side: Side::Below,
    };
    let position = position_of(index, tables, &cut);
    cut.side = Side::Above;
    let end = position_of(index, tables, &cut);
    Stretch {
        position,
        end,
        begun: 0,
    }
}

/// The position of the first entry that isn't before a cut.
fn position_of<I: Index>(index: &I, tables: &Tables, cut: &CutRef<'_>) -> u32
    requires same { tables.now ≡ (I.indexed index.now).tables }
    requires fits { length cut.now.tuple ≤ length (key_parts (I.indexed index.now)) }
    ensures value { result ≡ count_before (I.indexed index.now) (cut_at cut.now) }
    ensures within { let index = I.indexed index.now in
        result ≤ row_count index.tables index.table }
{
    each_order_has_all_rows();
    index.lower(tables, cut)
}
