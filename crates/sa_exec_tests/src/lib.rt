//! Tests of runs: every item of fourteen plans, the limits, and more rows than a run keeps.
#![tactic(auto)]

#[cfg(test)]
mod driven;
#[cfg(test)]
mod limits;
#[cfg(test)]
mod plans;
#[cfg(test)]
mod rows;
