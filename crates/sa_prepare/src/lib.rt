//! What a statement's text asks for: read, resolved over the tables, and planned.
//!
//! A worker prepares each statement by `Ready` in the statement's first turn.
#![tactic(auto)]

mod law;
mod place;
mod plan;
mod ready;
mod refusal;
mod select;
mod unbuilt;
mod work;

pub use law::{a_scan_answers_its_query, prepared_is_sound, ready_selects_answer_their_texts};
pub use ready::Ready;
