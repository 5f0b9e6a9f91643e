//! The run of a plan: each step makes one item, and the finished run gives the rows.
//!
//! A run keeps its place in the plan's tables, what it has counted and the rows that it gives, and never
//! a list of its items. A step tests one row, and takes memory for a row that it emits alone.
#![tactic(auto)]

mod chosen;
mod emit;
mod item;
mod level;
mod pass;
mod run;
mod step;

pub use run::Run;
pub use step::{Step, StepFault};
