//! The ranges of a key that a condition leaves.
#![tactic(auto)]

mod atom;
mod chosen;
mod comparison;
mod constant;
mod law;
mod line;
mod listing;
mod literal;
mod longer;
mod pieces;
mod serving;
mod span;
mod truth;
mod united;

pub use law::{ranges_are_canonical, ranges_cover_once};
pub use line::{Piece, Pieces};
pub use listing::ranges;
