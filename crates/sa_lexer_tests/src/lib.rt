//! Tests of `sa_lexer` through its public calls.
//!
//! A row of a table has a name, a text and what is expected of it, and a failure prints all three.
//! `^` marks a place in a text; it isn't a part of the text.
#![tactic(auto)]

#[cfg(test)]
mod comments;
#[cfg(test)]
mod faults;
#[cfg(test)]
mod first;
#[cfg(test)]
mod limits;
#[cfg(test)]
mod lines;
#[cfg(test)]
mod pieces;
#[cfg(test)]
mod quoted;
#[cfg(test)]
mod signs;
#[cfg(test)]
mod words;
