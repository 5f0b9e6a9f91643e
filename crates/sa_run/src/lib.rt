//! All sessions of a script, each on a thread of its own.
//!
//! The program's `run` runs a script so.
#![tactic(auto)]

mod crossing;
mod member;
mod run;
mod script;
mod session;
mod turn;

pub use run::run_sessions;
