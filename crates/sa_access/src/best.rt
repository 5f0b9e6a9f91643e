ghost use Rattle.std.specs.Prelude.{IfOk};
ghost use Rattle.sa_access.specs.Asked.{CanChoose};
ghost use Rattle.sa_access.specs.Least.{IsLeast, DropsNone};

use crate::asking::Asking;
use crate::built::built;
use crate::chosen::Chosen;
use crate::least::least_offer;
use sa_index::{Index, Shelf, entries_are_the_rows_in_order};
use sa_plan::RangeLists;
use sa_query::Query;
use sa_range::ranges_cover_once;
use sa_value::{OutOfMemory, order_is_total};
use std::alloc::Global;

/// The access to the table in this position of the query's FROM that costs least, after the tables
/// in the earlier positions; of equal costs the one that is reckoned to give the fewest rows, then
/// the one by the first key, then the first kind of const, eq_ref, ref, range, index and ALL.
///
/// The query's filter is simplified, and the ranges are those that it leaves of each key.
pub fn best_access<I: Index>(
    alloc: Global,
    query: &Query,
    earlier: &[u32],
    position: u32,
    ranges: &RangeLists,
    shelf: &Shelf<I>,
) -> Result<Chosen, OutOfMemory>
    requires can_choose { CanChoose (record {
      tables = shelf.now;
      query = query.now;
      earlier = earlier.now;
      position = position;
    }) ranges.now }
    ensures least { IfOk result (IsLeast (record {
      tables = shelf.now;
      query = query.now;
      earlier = earlier.now;
      position = position;
    })) }
    ensures drops_none { IfOk result (λ chosen. DropsNone (record {
      tables = shelf.now;
      query = query.now;
      earlier = earlier.now;
      position = position;
    }) chosen.access) }
{
    entries_are_the_rows_in_order();
    ranges_cover_once();
    order_is_total();
    let asking = Asking {
        tables: shelf.tables(),
        query,
        earlier,
        position,
    };
    let lists = ranges.as_slice()[position as usize].as_slice();
    let offer = least_offer(&asking, shelf, lists);
    Ok(Chosen {
        access: built(alloc, &asking, lists, offer)?,
        cost: offer.cost,
        estimate: offer.estimate,
    })
}
