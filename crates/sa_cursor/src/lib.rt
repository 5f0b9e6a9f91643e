//! The rows of an access, one a call.
#![tactic(auto)]

mod cursor;
mod law;
mod sought;
mod stretch;

pub use cursor::Cursor;
