//! Journals as text: a line of JSON for each entry.
//!
//! What `kamewhisk step` prints. docs/OUTPUT.md has the lines for whoever reads them.
#![tactic(auto)]

mod event;
mod fault;
mod line;
mod names;
mod object;
mod outcome;
mod row;
mod transcript;

pub use fault::fault_line;
pub use transcript::render;
