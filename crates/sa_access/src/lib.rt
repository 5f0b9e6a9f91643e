//! The access to a table that costs least.
//!
//! The planner asks for it, for each table that may come next.
#![tactic(auto)]

mod asking;
mod best;
mod built;
mod chosen;
mod counting;
mod covering;
mod law;
mod least;
mod offer;
mod sought;

pub use best::best_access;
pub use chosen::Chosen;
pub use law::offered_accesses_keep_rows;
