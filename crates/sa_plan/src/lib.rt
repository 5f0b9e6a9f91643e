//! The plan of a statement, what preparing a statement gives, and who prepares one.
//!
//! The executor runs a plan, the session machine shows it, and the worker asks a `Preparer` for it.
#![tactic(auto)]

mod access;
mod names;
mod plan;
mod prepared;
mod preparer;
mod shared;

pub use access::{Access, AccessKind, RangeLists, RefPart, RefParts, TableRanges};
pub use names::{Names, TableNames};
pub use plan::{Level, Levels, Plan, Planned};
pub use prepared::{Prepared, Work};
pub use preparer::Preparer;
pub use shared::SharedPlan;
