//! Ranges of a key as lists that rise, are disjoint and never touch.
#![tactic(auto)]

mod growing;
mod list;
mod meeting;
mod pieces;
mod uniting;

pub use list::RangeList;
pub use meeting::meet;
pub use pieces::canonical;
pub use uniting::unite;

#[cfg(test)]
mod tests;
