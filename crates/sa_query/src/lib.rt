//! What a SELECT asks for, what it means, and why a statement is refused before it runs.
//!
//! The resolver makes a `Query`; the planner, the executor and the session machine speak of these
//! types. The meaning of a query is a definition over whole products of rows (`specs/`).
#![tactic(auto)]

mod group;
mod item;
mod order;
mod query;
mod refusal;

pub use group::{Aggregate, Aggregates, Column, Columns};
pub use item::{Item, Items};
pub use order::{OrderKey, OrderKeys};
pub use query::{Query, TableUse, TableUses};
pub use refusal::{Refusal, ResolveKind};
