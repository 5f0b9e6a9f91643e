//! Tests of the tables: each fault alone and before those behind it, the limits, and what is kept.
#![tactic(auto)]

#[cfg(test)]
mod adding;
#[cfg(test)]
mod creating;
#[cfg(test)]
mod definition;
#[cfg(test)]
mod filled;
#[cfg(test)]
mod limits;
#[cfg(test)]
mod line;
#[cfg(test)]
mod row;
#[cfg(test)]
mod written;
