//! Tests of the desks that need no worker: what a new desk answers.
#![tactic(auto)]

#[cfg(test)]
mod tests;
