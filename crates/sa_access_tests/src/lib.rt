//! Tests of the least access to a table: each access as the least once, ties, joins, NULLs, unique
//! keys and indexes that cover.
//!
//! A line of a table has a name, the tables, their rows, a SELECT, the position of the table that is
//! asked for, the positions of the tables before it, and the access that is expected: its kind, the
//! number of its key, how many ranges or parts it has, its cost and its estimate.
#![tactic(auto)]

#[cfg(test)]
mod answers;
#[cfg(test)]
mod asked;
#[cfg(test)]
mod covering;
#[cfg(test)]
mod joins;
#[cfg(test)]
mod kinds;
#[cfg(test)]
mod line;
#[cfg(test)]
mod nulls;
#[cfg(test)]
mod ranges;
#[cfg(test)]
mod tables;
#[cfg(test)]
mod ties;
