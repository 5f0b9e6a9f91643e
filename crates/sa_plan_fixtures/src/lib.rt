//! Tables and plans as tests write them, and whether a plan fits its tables.
//!
//! That a plan fits is looked up while a test runs, so the test needs no proof of it.
#![tactic(auto)]

mod condition;
mod lawful;
mod only_table;
mod table;

pub use condition::{Operand, POSITION, Test, conditions_of};
pub use lawful::is_lawful;
pub use table::{plan_of, tables_of};
