//! Tables in memory: their definitions, their rows, and their unique keys.
//!
//! Contracts see tables as a list of definitions with their rows, and a row as a list of values. How
//! the cells lie in memory is nobody's business but this crate's.
#![tactic(auto)]

mod cells;
mod column;
mod def;
mod definition;
mod digest;
mod fault;
mod index;
mod keys;
mod shared;
mod store;
mod stored;
mod tables;
mod values;

pub use def::{ColumnDef, ColumnDefs, ColumnKind, KeyDef, KeyDefs, Parts, TableDef};
pub use fault::{RowFault, TableFault};
pub use shared::SharedTables;
pub use tables::Tables;
