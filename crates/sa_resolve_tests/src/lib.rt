//! Tests of the resolver: each rule with a statement that keeps it and one that breaks it, pairs of
//! faults, the limits, and the queries that statements stand for.
//!
//! A row of a table has a name, a statement and what is expected of it, and a failure prints all
//! three. `^` marks the place of a fault; it isn't a part of the statement.
#![tactic(auto)]

#[cfg(test)]
mod answers;
#[cfg(test)]
mod checks;
#[cfg(test)]
mod earlier;
#[cfg(test)]
mod fixtures;
#[cfg(test)]
mod grouping;
#[cfg(test)]
mod limits;
#[cfg(test)]
mod lines;
#[cfg(test)]
mod names;
#[cfg(test)]
mod order;
#[cfg(test)]
mod pairs;
#[cfg(test)]
mod queries;
#[cfg(test)]
mod setup;
#[cfg(test)]
mod trees;
#[cfg(test)]
mod types;
