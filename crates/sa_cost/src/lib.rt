//! What it costs to read a table, and how costs are added and multiplied.
//!
//! A cost stops at 2^120, so no sum and no product leaves the numbers there are.
#![tactic(auto)]

mod access;
mod law;
mod stop;

pub use access::{ONE_ROW_COST, index_cost, range_cost, ref_cost, scan_cost};
pub use law::{
    adding_keeps_the_order, adding_takes_any_order, greatest_cost_stays, multiplying_is_adding,
    multiplying_keeps_the_order, multiplying_takes_any_order, stopping_early_is_stopping_once,
};
pub use stop::{GREATEST_COST, add_cost, times_cost};

#[cfg(test)]
mod tests;
