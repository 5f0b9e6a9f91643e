ghost use Rattle.std.specs.Prelude.{◌≡◌};
ghost use Rattle.sa_cost.specs.Cost.{cost_of_scan, cost_of_index, cost_of_ranges, cost_of_ref};

use crate::stop::{add_cost, times_cost};

/// The cost of finding a place from which rows are read.
const START: u128 = 20;

/// The cost of a row that is read in the order of the table.
const SCANNED_ROW: u128 = 5;

/// The cost of a row of which an index alone is read.
const INDEX_ROW: u128 = 4;

/// The cost of a row that is found through an index.
const FOUND_ROW: u128 = 6;

/// The cost of one row found through a unique key.
pub const ONE_ROW_COST: u128 = START + FOUND_ROW;

/// The cost of reading all rows of a table.
pub fn scan_cost(rows: u64) -> u128
    ensures { result ≡ cost_of_scan rows }
{
    add_cost(START, times_cost(SCANNED_ROW, u128::from(rows)))
}

/// The cost of reading all rows from an index alone.
pub fn index_cost(rows: u64) -> u128
    ensures { result ≡ cost_of_index rows }
{
    add_cost(START, times_cost(INDEX_ROW, u128::from(rows)))
}

/// The cost of reading so many rows through an index, in so many ranges.
pub fn range_cost(ranges: u64, rows: u64) -> u128
    ensures { result ≡ cost_of_ranges ranges rows }
{
    add_cost(
        times_cost(START, u128::from(ranges)),
        times_cost(FOUND_ROW, u128::from(rows)),
    )
}

/// The cost of reading the rows of one value through an index, where so many are expected.
pub fn ref_cost(estimate: u64) -> u128
    ensures { result ≡ cost_of_ref estimate }
{
    add_cost(START, times_cost(FOUND_ROW, u128::from(estimate)))
}
