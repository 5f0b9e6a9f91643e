//! One row of each of two small tables, and conditions over them that are written in SQL: what the
//! tests of conditions stand on.
#![tactic(auto)]

mod arithmetic;
mod calls;
mod cursor;
mod kind;
mod leaf;
mod predicate;
mod reading;
mod sample;
mod typed;

pub use calls::{ends, truth, value};
pub use reading::{condition, expression};
pub use sample::Sample;
pub use typed::is_typed;
