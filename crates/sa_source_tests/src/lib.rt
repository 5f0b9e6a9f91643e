//! Tests of the sources and sinks: pieces, faults in mid-stream, and the system's streams.
#![tactic(auto)]

#[cfg(test)]
mod tests;
