ghost use Rattle.std.specs.Prelude.{◌≡◌, ◌≤◌, IfOk, length};
ghost use Rattle.sa_range.specs.RangeList.{range_list};
ghost use Rattle.sa_interval.specs.Canonical.{AreCanonical};

use crate::law::ranges_are_canonical;
use crate::serving::served;
use crate::united::united;
use sa_cond::Cond;
use sa_interval::RangeList;
use sa_value::OutOfMemory;
use std::alloc::Global;

/// The ranges of a key of a table that a filter leaves.
///
/// `table` is the table's position in FROM, and `parts` are the columns of the key. For example
/// `a = 1 AND b > 2` leaves of a key over a and b the tuples from above (1, 2) to above (1). A text
/// in a cut is a copy, and the list takes memory from `alloc`.
///
/// Source: MariaDB Knowledge Base, "EXPLAIN", type "range".
pub fn ranges(
    alloc: Global,
    filter: &Cond,
    table: u32,
    parts: &[u32],
) -> Result<RangeList, OutOfMemory>
    requires few { length parts.now ≤ 4 }
    ensures exact { IfOk result (λ list. list ≡ range_list filter.now table parts.now) }
    ensures canonical { IfOk result (λ list. AreCanonical list.ranges) }
{
    ranges_are_canonical();
    let served = served(alloc, filter, table, parts)?;
    Ok(RangeList {
        parts: served.parts,
        ranges: united(alloc, served.walks.as_slice())?,
    })
}
