//! The ranges that a query's filter leaves of each key of its tables.

ghost use Rattle.std.specs.Prelude.{◌≡◌, ◌<◌, ◌≤◌, All, IfOk, length, map};
ghost use Rattle.sa_range.specs.RangeList.{range_list};
ghost use Rattle.sa_table.specs.Table.{table_at};
ghost use Rattle.sa_access.specs.Asked.{range_lists};

use sa_cond::Cond;
use sa_plan::{RangeLists, TableRanges};
use sa_query::Query;
use sa_range::ranges;
use sa_table::Tables;
use sa_value::OutOfMemory;
use std::alloc::Global;

/// Those of all tables of FROM.
pub(crate) fn range_lists(
    alloc: Global,
    tables: &Tables,
    query: &Query,
) -> Result<RangeLists, OutOfMemory>
    requires there { All (λ used. used.table < length tables.now) query.now.tables }
    requires few { length query.now.tables ≤ 8 }
    ensures { IfOk result (λ lists. lists ≡ range_lists tables.now query.now) }
{
    let mut lists = RangeLists::new(alloc);
    for (position, used) in query.tables.as_slice().iter().enumerate() {
        lists.push(table_ranges(alloc, tables, &query.filter, position as u32, used.table)?)?;
    }
    Ok(lists)
}

/// Those of a table in a position.
fn table_ranges(
    alloc: Global,
    tables: &Tables,
    filter: &Cond,
    position: u32,
    table: u32,
) -> Result<TableRanges, OutOfMemory>
    requires { table < length tables.now }
    ensures { IfOk result (λ lists. lists ≡ map
        (λ key. range_list filter.now position key.parts) (table_at tables.now table).def.keys) }
{
    let _sound = tables.len();
    let mut lists = TableRanges::new(alloc);
    for key in tables.def(table).keys.as_slice() {
        lists.push(ranges(alloc, filter, position, key.parts.as_slice())?)?;
    }
    Ok(lists)
}
