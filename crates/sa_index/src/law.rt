//! What is true of the entries of an index. The law is a function that does nothing: its contract
//! states the law.

ghost use Rattle.std.specs.Prelude.{◌≡◌, ℕ, List};
ghost use Rattle.sa_index.specs.Indexed.{Indexed};
ghost use Rattle.sa_index.specs.Entries.{order_in, rows_of, entries_of};
ghost use Rattle.sa_index.specs.Law.{IsInOrder};

use sa_key::order_of_tuples_is_total;

/// The entries of an index have each row of the table once, and rise by tuple and number; no other
/// list does.
pub fn entries_are_the_rows_in_order()
    ensures in_order { (index : Indexed) →
        IsInOrder (order_in index) (rows_of index) (entries_of index) }
    ensures only { (index : Indexed) (rows : List ℕ) →
        IsInOrder (order_in index) (rows_of index) rows → rows ≡ entries_of index }
{
    order_of_tuples_is_total();
}
