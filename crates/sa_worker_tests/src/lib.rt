//! Tests of workers: scripts of sessions are driven by schedules through `Sessions`, and every
//! entry is compared.
#![tactic(auto)]

#[cfg(test)]
mod tests;
