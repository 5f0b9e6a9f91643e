//! What the calls of `sa_parser` answer, as lines that a table of tests can hold.
//!
//! The crates of tests of `sa_parser` use it.
#![tactic(auto)]

mod lines;
mod setup_lines;

pub use lines::{fault_line, marked, repeated, session_line};
pub use setup_lines::setup_line;
