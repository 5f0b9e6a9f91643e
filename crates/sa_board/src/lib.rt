//! One lock for each desk, so that sessions on several threads call each other's desks.
//!
//! A board keeps its desks in a table of words and slots. Whoever holds a desk has taken it out of
//! its slot. What all sessions have done to a desk is one history.
#![tactic(auto)]

mod board;
mod crossing;
mod ending;
mod founding;
mod held;
mod law;
mod pass;
mod plays;
mod view;

pub use board::Board;
pub use crossing::{boards_share, passes_send};
pub use held::Held;
pub use law::rule_says;
pub use pass::Pass;
