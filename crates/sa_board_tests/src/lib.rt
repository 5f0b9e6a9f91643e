//! Turns of workers over the desks of a board.
#![tactic(auto)]

mod turns;

pub use turns::take_turn;

#[cfg(test)]
mod tests;
