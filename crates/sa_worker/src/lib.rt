//! One session's program, a turn at a time.
//!
//! A worker prepares its statements, makes the steps of its runs, and makes one call of a desk in each
//! turn.
#![tactic(auto)]

mod asking;
mod begins;
mod ending;
mod given;
mod law;
mod moves;
mod opening;
mod prepares;
mod running;
mod session;
mod settings;
mod stage;
mod steps;
mod turned;
mod waiting;
mod worker;

pub use law::{
    entries_are_so_far, journals_are_legal, worker_calls, worker_prepares, workers_begin,
};
pub use turned::Turned;
pub use worker::Worker;
