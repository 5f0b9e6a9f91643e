//! What is true of the entries of an index, as a cursor reads them. Each law is a function that does
//! nothing: its contract states the law.

ghost use Rattle.std.specs.Prelude.{◌≡◌, ℕ, ◌≤◌, List, [], Option, true, false, length, filter};
ghost use Rattle.std.specs.List.{list_any};
ghost use Rattle.sa_value.specs.declared.value.Value.{Value as value};
ghost use Rattle.sa_key.specs.declared.range.KeyRange.{KeyRange as key_range};
ghost use Rattle.sa_key.specs.declared.cut.Side.TheVariants.{Below, Above};
ghost use Rattle.sa_table.specs.Table.{Table, row_count};
ghost use Rattle.sa_table.specs.AddRow.{is_null};
ghost use Rattle.sa_index.specs.Indexed.{Indexed, key_parts};
ghost use Rattle.sa_index.specs.Entries.{entries_of, count_before};
ghost use Rattle.sa_plan.specs.Lawful.{AreLawfulRanges};
ghost use Rattle.sa_plan.specs.Scan.{is_in_ranges, rows_by_key};
ghost use Rattle.sa_cursor.specs.inner.Stretch.{between, ordered, equal_entries, rows_of_ranges};

use sa_index::entries_are_the_rows_in_order;
use sa_key::{
    before_goes_down, before_goes_up, canonical_form_has_the_same_before, order_of_tuples_is_total,
};

/// Whatever a table is read by, there are as many rows as it has.
pub(crate) fn each_order_has_all_rows()
    ensures { (tables : List Table) (table : ℕ) (key : Option ℕ) →
        length (ordered tables table key) ≡ row_count tables table }
{
    entries_are_the_rows_in_order();
}

/// The entries that have some values in the first parts of the key are those between the cuts below
/// and above these values. Where one of the values is NULL, there are none.
pub(crate) fn equal_entries_lie_between_cuts()
    ensures other { (index : Indexed) (wanted : List value) →
        length wanted ≤ length (key_parts index) → list_any is_null wanted ≡ false →
        between (count_before index (record { tuple = wanted; side = Below }))
        (count_before index (record { tuple = wanted; side = Above })) (entries_of index)
        ≡ equal_entries index wanted }
    ensures null { (index : Indexed) (wanted : List value) →
        length wanted ≤ length (key_parts index) → list_any is_null wanted ≡ true →
        equal_entries index wanted ≡ [] }
{
    order_of_tuples_is_total();
    before_goes_down();
    entries_are_the_rows_in_order();
}

/// The entries in one of some ranges are those of each of them, one range after another.
pub(crate) fn ranges_follow_one_another()
    ensures { (tables : List Table) (table key : ℕ) (ranges : List key_range) →
        AreLawfulRanges tables table key ranges →
        filter (is_in_ranges tables table key ranges) (rows_by_key tables table key)
        ≡ rows_of_ranges (record { tables = tables; table = table; key = key }) ranges }
{
    order_of_tuples_is_total();
    before_goes_down();
    before_goes_up();
    canonical_form_has_the_same_before();
    entries_are_the_rows_in_order();
}
