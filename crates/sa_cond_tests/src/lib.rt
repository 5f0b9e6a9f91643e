//! Tests of `sa_cond` through its public calls, on one row of two tables.
//!
//! A line of a table has a name, a condition or an expression in SQL and what is expected of it,
//! and a failure prints it. The row has a = 2, b = 3, n = 7, c = NULL, t = 'pear' and u = NULL; a,
//! b and c are INT, n is a BIGINT. The condition NULL is UNKNOWN.
#![tactic(auto)]

#[cfg(test)]
mod comparisons;
#[cfg(test)]
mod intervals;
#[cfg(test)]
mod joined;
#[cfg(test)]
mod line;
#[cfg(test)]
mod lists;
#[cfg(test)]
mod nulls;
#[cfg(test)]
mod ranges;
#[cfg(test)]
mod truths;
#[cfg(test)]
mod values;
