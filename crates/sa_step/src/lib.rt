//! All sessions of a script on one thread, a turn at a time, in the order of a schedule.
//!
//! The program's `step` runs a script so.
#![tactic(auto)]

mod sessions;
mod starts;
mod step;

pub use sessions::Sessions;
pub use starts::new_desks;
pub use step::step_sessions;
