//! What is true of the list of ranges of every condition. Each law is a function that does nothing:
//! its contract states the law, which its proof shows once and for all.

ghost use Rattle.std.specs.Prelude.{◌≡◌, ℕ, List, length, map};
ghost use Rattle.std.specs.List.{filter};
ghost use Rattle.sa_value.specs.declared.truth.Truth.TheVariants.{True};
ghost use Rattle.sa_key.specs.Range.{is_tuple_in};
ghost use Rattle.sa_interval.specs.Canonical.{AreCanonical};
ghost use Rattle.sa_cond.specs.declared.cond.Cond.{Cond as condition};
ghost use Rattle.sa_cond.specs.Choice.{Choice};
ghost use Rattle.sa_cond.specs.Condition.{holds};
ghost use Rattle.sa_simplify.specs.Simple.{simple};
ghost use Rattle.sa_range.specs.RangeList.{range_list};

use sa_simplify::simple_is_true_alike;
use sa_value::order_is_total;

/// Each row on which a condition is TRUE with some rows of the other tables lies in exactly one
/// range of its list, and in exactly one of the list of its simplified form. The row lies in a range
/// where the tuple of its cells in the columns of the key does.
pub fn ranges_cover_once()
    ensures own { (c : condition) (table : ℕ) (columns : List ℕ) (choice : Choice) →
        holds choice c ≡ True →
        length (filter (λ range. is_tuple_in range (map (choice.cell table) columns))
        (range_list c table columns).ranges) ≡ 1 }
    ensures simplified { (c : condition) (table : ℕ) (columns : List ℕ) (choice : Choice) →
        holds choice c ≡ True →
        length (filter (λ range. is_tuple_in range (map (choice.cell table) columns))
        (range_list (simple c) table columns).ranges) ≡ 1 }
{
    order_is_total();
    simple_is_true_alike();
}

/// The list of every condition is canonical: its ranges rise, are disjoint and never touch.
pub fn ranges_are_canonical()
    ensures { (c : condition) (table : ℕ) (columns : List ℕ) →
        AreCanonical (range_list c table columns).ranges }
{
    order_is_total();
}
