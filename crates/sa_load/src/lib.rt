//! Rows of a table out of a CSV text.
//!
//! A script's LOAD DATA stands on this call. What the records of a text are is `csv`'s definition.
#![tactic(auto)]

mod fault;
mod field;
mod load;
mod number;
mod record;
mod refusal;

pub use fault::{LoadCause, LoadFault};
pub use load::load_csv;
