//! Tests of `sa_range` through its public call: conditions in SQL, and the ranges that they leave.
//!
//! A line of a table has a name, a key, a condition and what is left of the key, and a failure
//! prints it. A key is written as its columns, those of `sa_sample`: of the first table a, b and n,
//! which are numbers, of the second c, a number, and t and u, which are texts; d is a column of the
//! first table of which no condition speaks. The condition NULL is UNKNOWN.
//!
//! What is left is written as the number of parts that serve, and the ranges over them. A range has
//! a square bracket at each end that lies in it: `[1..5)` goes from below (1) to below (5), and
//! `(1, 2..1]` from above (1, 2) to above (1). All tuples are `[..]`.
#![tactic(auto)]

#[cfg(test)]
mod ends;
#[cfg(test)]
mod key;
#[cfg(test)]
mod left;
#[cfg(test)]
mod limit;
#[cfg(test)]
mod line;
#[cfg(test)]
mod made;
#[cfg(test)]
mod parts;
#[cfg(test)]
mod plain;
#[cfg(test)]
mod plain_holds;
#[cfg(test)]
mod plain_ranges;
#[cfg(test)]
mod single;
#[cfg(test)]
mod texts;
#[cfg(test)]
mod written;
