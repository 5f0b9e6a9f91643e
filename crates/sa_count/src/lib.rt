//! The counters of a run, and the report of them that other sessions see.
//!
//! Whoever shows how far a statement has come shows a `Report`.
#![tactic(auto)]

mod counters;
mod report;

pub use counters::Counters;
pub use report::Report;

#[cfg(test)]
mod tests;
