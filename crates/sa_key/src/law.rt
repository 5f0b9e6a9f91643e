//! What is true of the order of tuples and of cuts. Each law is a function that does nothing: its
//! contract states the law. Sorting and searching rest on them.

ghost use Rattle.std.specs.Prelude.{◌≡◌, ◌≢◌, ◌≤◌, List, length};
ghost use Rattle.std.specs.Cmp.{IsTotalOrder};
ghost use Rattle.std.specs.Cmp.Lexicographic.{pointwise};
ghost use Rattle.std.specs.Ordering.{is_eq, eq_by_cmp};
ghost use Rattle.std.specs.declared.cmp.Ordering.TheVariants.{Greater};
ghost use Rattle.sa_value.specs.declared.value.Value.{Value as value};
ghost use Rattle.sa_value.specs.Compare.{order_of};
ghost use Rattle.sa_key.specs.declared.cut.Cut.{Cut as cut};
ghost use Rattle.sa_key.specs.declared.cut.Side.TheVariants.{Below};
ghost use Rattle.sa_key.specs.declared.range.KeyRange.{KeyRange as key_range};
ghost use Rattle.sa_key.specs.Order.{order_of_tuples, is_before, IsBefore};
ghost use Rattle.sa_key.specs.Range.{order_of_cuts, canonical_cut, IsCanonicalCut, is_cut_in, is_tuple_in};

use sa_value::order_is_total;

/// The order of tuples is a total one: turned round it is the reverse, it is transitive, and tuples
/// that are equal in it stand alike to every third one.
pub fn order_of_tuples_is_total()
    ensures { IsTotalOrder order_of_tuples }
{
    order_is_total();
}

/// Tuples are equal in their order exactly where they have as many parts, and each pair of parts is
/// equal in the order of values.
pub fn equal_part_by_part()
    ensures { (a b : List value) →
        is_eq (order_of_tuples a b) ≡ pointwise (eq_by_cmp order_of) a b }
{}

/// A tuple that isn't behind one that lies before a cut lies before that cut too.
pub fn before_goes_down()
    ensures { (a b : List value) (c : cut) → order_of_tuples a b ≢ Greater →
        IsBefore b c → IsBefore a c }
{
    order_is_total();
}

/// The order of cuts is a total one.
pub fn order_of_cuts_is_total()
    ensures { IsTotalOrder order_of_cuts }
{
    order_is_total();
}

/// A canonical form is canonical.
pub fn canonical_form_is_canonical()
    ensures { (c : cut) → IsCanonicalCut (canonical_cut c) }
{}

/// A tuple that lies before a cut lies before each cut that doesn't come before that one. The tuple
/// is as long as both, or longer.
pub fn before_goes_up()
    ensures { (tuple : List value) (c d : cut) → length c.tuple ≤ length tuple →
        length d.tuple ≤ length tuple → order_of_cuts c d ≢ Greater → IsBefore tuple c →
        IsBefore tuple d }
{
    order_is_total();
}

/// The same tuples lie before a cut and before its canonical form: those as long as it, or longer.
pub fn canonical_form_has_the_same_before()
    ensures { (tuple : List value) (c : cut) → length c.tuple ≤ length tuple →
        is_before tuple (canonical_cut c) ≡ is_before tuple c }
{}

/// A tuple lies in a range exactly where the canonical cut below it does. The tuple is as long as the
/// range's cuts, or longer.
pub fn tuple_lies_where_its_cut_lies()
    ensures { (tuple : List value) (range : key_range) → length range.from.tuple ≤ length tuple →
        length range.to.tuple ≤ length tuple →
        is_cut_in range (canonical_cut (record { tuple = tuple; side = Below })) ≡ is_tuple_in range tuple }
{}
