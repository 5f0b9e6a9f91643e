//! How many rows of an index lie in ranges, and how many a value is reckoned to have.

ghost use Rattle.std.specs.Prelude.{◌≡◌, ◌<◌, ◌≤◌, ◌^◌, All, count_by, length};
ghost use Rattle.sa_interval.specs.Canonical.{AreCanonical, IsCanonicalRange};
ghost use Rattle.sa_table.specs.Table.{row_count};
ghost use Rattle.sa_index.specs.Entries.{distinct_prefixes, entries_of};
ghost use Rattle.sa_index.specs.Indexed.{key_parts};
ghost use Rattle.sa_plan.specs.Lawful.{IsShort};
ghost use Rattle.sa_access.specs.Least.{divided_up};
ghost use Rattle.sa_access.specs.inner.Counted.{in_range, in_ranges};

use sa_index::Index;
use sa_key::KeyRange;
use sa_table::Tables;
use sa_value::order_is_total;

/// How many rows lie in one of some ranges.
pub(crate) fn rows_in<I: Index>(tables: &Tables, index: &I, ranges: &[KeyRange]) -> u64
    requires same { tables.now ≡ (I.indexed index.now).tables }
    requires canonical { AreCanonical ranges.now }
    requires short { All (IsShort (length (key_parts (I.indexed index.now)))) ranges.now }
    requires few { length (entries_of (I.indexed index.now)) < 2 ^ 32 }
    ensures { result ≡ count_by (in_ranges (I.indexed index.now) ranges.now)
        (entries_of (I.indexed index.now)) }
{
    order_is_total();
    let mut rows = 0;
    for range in ranges {
        rows += u64::from(rows_between(tables, index, range));
    }
    rows
}

/// How many rows lie in a range.
fn rows_between<I: Index>(tables: &Tables, index: &I, range: &KeyRange) -> u32
    requires same { tables.now ≡ (I.indexed index.now).tables }
    requires canonical { IsCanonicalRange range.now }
    requires short { IsShort (length (key_parts (I.indexed index.now))) range.now }
    ensures { result ≡ count_by (in_range (I.indexed index.now) range.now)
        (entries_of (I.indexed index.now)) }
{
    order_is_total();
    let from = index.lower(tables, &range.from.view());
    let to = index.lower(tables, &range.to.view());
    to - from
}

/// How many rows a value of the first so many parts is reckoned to have.
pub(crate) fn rows_of_value<I: Index>(index: &I, parts: u32) -> u64
    requires fits { parts ≤ length (key_parts (I.indexed index.now)) }
    ensures { let index = I.indexed index.now in result
        ≡ divided_up (row_count index.tables index.table) (distinct_prefixes index parts) }
{
    divided_up(index.count(), index.distinct(parts))
}

/// A quotient rounded up; 0 where nothing is divided.
fn divided_up(rows: u32, values: u32) -> u64
    ensures { result ≡ divided_up rows values }
{
    if values == 0 {
        return 0;
    }
    (u64::from(rows) + u64::from(values) - 1) / u64::from(values)
}
