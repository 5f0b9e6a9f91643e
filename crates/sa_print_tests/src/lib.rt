//! Tests of `sa_print` through its public calls.
//!
//! A row of a table has a name, what is printed, and the text that is expected; a failure prints
//! the name and what was to be printed.
#![tactic(auto)]

#[cfg(test)]
mod expressions;
#[cfg(test)]
mod names;
#[cfg(test)]
mod queries;
#[cfg(test)]
mod statements;
#[cfg(test)]
mod trees;
