//! Tests of what `sa_parser` reads: each form and its tree, over `sa_lexer` and beside `sa_print`.
//!
//! A row of a table has a name, a text and what is expected of it, and a failure prints all three.
#![tactic(auto)]

#[cfg(test)]
mod checks;
#[cfg(test)]
mod expressions;
#[cfg(test)]
mod places;
#[cfg(test)]
mod setup;
#[cfg(test)]
mod statements;
