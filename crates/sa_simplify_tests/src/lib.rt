//! Tests of `sa_simplify` through its public call: conditions in SQL, and what is left of them.
//!
//! A line of a table has a name, a condition and its simplified form, and a failure prints it. The
//! condition NULL is UNKNOWN. The columns are those of `sa_sample`: a, b, c and n are numbers, t
//! and u texts.
#![tactic(auto)]

#[cfg(test)]
mod arithmetic;
#[cfg(test)]
mod equalities;
#[cfg(test)]
mod flattening;
#[cfg(test)]
mod inward;
#[cfg(test)]
mod line;
#[cfg(test)]
mod literals;
#[cfg(test)]
mod simplified;
#[cfg(test)]
mod together;
#[cfg(test)]
mod turned;
#[cfg(test)]
mod written_out;
