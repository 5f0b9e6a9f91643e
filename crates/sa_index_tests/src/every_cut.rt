//! Tables of many rows: each entry, each number of different values, and each cut beside a row's
//! values, compared with a plain count.

ghost use Rattle.std.specs.Prelude.{◌≡◌};
ghost use Rattle.sa_index.specs.Indexed.{key_parts};

use crate::built::{at, built, distinct, lower, parts_of};
use crate::choice::{COLUMNS, row};
use crate::filled::{add, create};
use crate::place::{Place, counts_at, cut_at, is_first, position_of};
use sa_index::{Index, ListIndex};
use sa_key::Side;
use sa_table::Tables;
use sa_value::OutOfMemory;
use std::alloc::Global;
use std::process::Abort;
use std::test::Fail;

/// A table with so many rows, and with this key.
fn made(rt: &impl Abort, alloc: Global, rows: u32, key: &str) -> Result<Tables, OutOfMemory> {
    let mut tables = Tables::new(alloc);
    let def = format!(in alloc; "{COLUMNS} / {key}")?;
    create(rt, alloc, &mut tables, "t", def.as_str())?;
    for number in 0..rows {
        add(rt, &mut tables, 0, row(alloc, number)?);
    }
    Ok(tables)
}

/// Compares all that the index of a key answers with plain counts.
fn all_is_right(rt: &impl Abort, alloc: Global, rows: u32, key: &str) -> Result<(), OutOfMemory> {
    let tables = made(rt, alloc, rows, key)?;
    let index = built(rt, alloc, &tables, 0)?;
    let parts = parts_of(rt, &tables, 0);
    assert_eq!(rt; index.count(), rows, "{key}");
    entries_are_right(rt, &index, parts);
    assert!(rt; parts.len() <= 4, "{key}");
    for length in 0..parts.len() + 1 {
        distinct_is_right(rt, &index, parts, length as u32);
        cuts_are_right(rt, &index, &tables, parts, length);
    }
    Ok(())
}

/// Each row stands at the position that is counted for it. So each position has its row.
fn entries_are_right(rt: &impl Abort, index: &ListIndex, parts: &[u32]) {
    let length = parts.len();
    for row in 0..index.count() {
        let place = Place {
            parts,
            row,
            length,
            raise: 0,
        };
        let position = position_of(place, index.count());
        assert_eq!(rt; at(rt, index, position), row, "{position}");
    }
}

/// As many rows have values that no row before them has.
fn distinct_is_right(rt: &impl Abort, index: &ListIndex, parts: &[u32], length: u32)
    requires { parts.now ≡ key_parts index.now }
{
    let mut expected = 0;
    for row in 0..index.count() {
        expected += u32::from(is_first(Place {
            parts,
            row,
            length: length as usize,
            raise: 0,
        }));
    }
    assert_eq!(rt; distinct(rt, index, parts, length), expected, "{length}");
}

/// The cuts beside the first so many values of each row lie where they are counted to, and so do
/// those beside the same values with a greater one in the last part. Values that a row before has
/// are not looked at again.
fn cuts_are_right(rt: &impl Abort, index: &ListIndex, tables: &Tables, parts: &[u32], length: usize)
    requires same { tables.now ≡ index.now.tables }
    requires parts { parts.now ≡ key_parts index.now }
{
    for row in 0..index.count() {
        let place = Place {
            parts,
            row,
            length,
            raise: 0,
        };
        if is_first(place) {
            sides_are_right(rt, index, tables, place);
            sides_are_right(rt, index, tables, Place { raise: 1, ..place });
        }
    }
}

/// As many entries lie below a place, and as many up to it, as are counted.
fn sides_are_right(rt: &impl Abort, index: &ListIndex, tables: &Tables, place: Place<'_>)
    requires same { tables.now ≡ index.now.tables }
    requires parts { place.parts.now ≡ key_parts index.now }
{
    let (row, length, raise) = (place.row, place.length, place.raise);
    let (less, up_to) = counts_at(place, index.count());
    let below = lower(rt, index, tables, place.parts, &cut_at(place, Side::Below));
    assert_eq!(rt; below, less, "below {row} {length} {raise}");
    let above = lower(rt, index, tables, place.parts, &cut_at(place, Side::Above));
    assert_eq!(rt; above, up_to, "above {row} {length} {raise}");
}

/// Keys of all kinds: over numbers, over texts, unique, over several parts.
const KEYS: &str = "\
KEY 0; KEY 1; UNIQUE 2; KEY 0 1; KEY 2 0; KEY 1 0 2; KEY 3 0 2; KEY 3 1 0 2; KEY 0 3 2 1";

/// Some of them: over numbers, and over a text and numbers.
const SOME_KEYS: &str = "KEY 0; KEY 1; UNIQUE 2; KEY 0 1; KEY 3 0 2; KEY 1 0 2";

#[test]
fn one_row_is_told_as_counted(rt: HostRuntime) -> Result<(), Fail> {
    for key in KEYS.split(';') {
        all_is_right(&rt, rt.alloc(), 1, key.trim())?;
    }
    Ok(())
}

#[test]
fn sixty_three_rows_are_told_as_counted(rt: HostRuntime) -> Result<(), Fail> {
    for key in KEYS.split(';') {
        all_is_right(&rt, rt.alloc(), 63, key.trim())?;
    }
    Ok(())
}

#[test]
fn sixty_four_rows_are_told_as_counted(rt: HostRuntime) -> Result<(), Fail> {
    for key in KEYS.split(';') {
        all_is_right(&rt, rt.alloc(), 64, key.trim())?;
    }
    Ok(())
}

#[test]
fn a_thousand_rows_are_told_as_counted(rt: HostRuntime) -> Result<(), Fail> {
    for key in SOME_KEYS.split(';') {
        all_is_right(&rt, rt.alloc(), 1000, key.trim())?;
    }
    Ok(())
}
