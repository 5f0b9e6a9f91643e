//! Tests of `sa_script` through its public calls, with the crates below it.
//!
//! A row of a table has a name, a script and what is expected of it, and a failure prints all three.
//! `^` marks the place of a fault in a script; it isn't a part of the script.
#![tactic(auto)]

#[cfg(test)]
mod blocks;
#[cfg(test)]
mod create;
#[cfg(test)]
mod faults;
#[cfg(test)]
mod insert;
#[cfg(test)]
mod large;
#[cfg(test)]
mod limits;
#[cfg(test)]
mod lines;
#[cfg(test)]
mod order;
#[cfg(test)]
mod pieces;
#[cfg(test)]
mod prefixes;
#[cfg(test)]
mod tables;
