//! Tests of loading: CSV texts, the rows that they make, and the fault of each faulty record.
#![tactic(auto)]

#[cfg(test)]
mod fields;
#[cfg(test)]
mod limits;
#[cfg(test)]
mod line;
#[cfg(test)]
mod loading;
#[cfg(test)]
mod order;
#[cfg(test)]
mod records;
#[cfg(test)]
mod shown;
#[cfg(test)]
mod table;
