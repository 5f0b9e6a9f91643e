//! The session machine: what one session's desk holds, which journals it may write, and its calls.
//!
//! A desk is the part of a session that other sessions reach: its journal, its queue of requests and
//! the number of steps that it publishes. The worker calls the desks, and `finish` gives the journals.
#![tactic(auto)]

mod answer;
mod desk;
mod desks;
mod entry;
mod journal;
mod law;
mod outcome;
mod phase;
mod plain;
mod request;
mod stamp;

pub use answer::{Asked, Begun, Ended, Killed, Looked, Polled, Seen, Withdrawn};
pub use desk::Desk;
pub use desks::Desks;
pub use entry::{Entry, Event, RefusedWhy};
pub use journal::{Entries, Journals};
pub use law::{
    interrupted_is_killed, kill_stays, others_keep, outline_is, reply_is_served, request_is,
    requests_end_once, shown_plan_runs,
};
pub use outcome::{Finish, Outcome, StepStop};
pub use plain::PlainDesks;
pub use request::{OpenWait, Reply, Request};
pub use stamp::{Caller, Stamp};
