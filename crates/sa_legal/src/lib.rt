//! What is true of legal journals, whoever made them.
//!
//! A law is a function that does nothing: its contract states the law, which its proof shows once
//! and for all. Which journals are legal is defined in `sa_desk`.
#![tactic(auto)]

mod law;
mod told;

pub use law::{
    finished_selects_answer_their_queries, finished_selects_have_their_rows, interrupted_is_killed,
    requests_have_one_answer, shown_plans_run,
};
pub use told::legal_journals_can_be_told;
