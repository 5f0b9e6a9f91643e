//! What is true of the accesses that are offered. The law is a function that does nothing: its
//! contract states the law.

ghost use Rattle.std.specs.Prelude.{List};
ghost use Rattle.sa_interval.specs.declared.list.RangeList.{RangeList};
ghost use Rattle.sa_plan.specs.declared.access.Access.{Access};
ghost use Rattle.sa_access.specs.Asked.{Asked, CanChoose};
ghost use Rattle.sa_access.specs.Least.{DropsNone};
ghost use Rattle.sa_access.specs.Offered.{IsOffered};

use sa_index::entries_are_the_rows_in_order;
use sa_range::ranges_cover_once;
use sa_value::order_is_total;

/// Each access that is offered gives each row of its table with which the filter is TRUE, whatever
/// rows of the other tables are chosen.
pub fn offered_accesses_keep_rows()
    ensures { (asked : Asked) (ranges : List (List RangeList)) → CanChoose asked ranges →
        (access : Access) → IsOffered asked access → DropsNone asked access }
{
    entries_are_the_rows_in_order();
    ranges_cover_once();
    order_is_total();
}
