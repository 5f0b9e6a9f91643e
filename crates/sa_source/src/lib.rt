//! The outside of the engine: where its input comes from and where its output goes.
//!
//! A program over a `Source` and a `Sink` is proved against their contracts, which say what bytes
//! moved and when a fault may be answered. Bytes in memory tell all of it; standard input and output
//! tell no bytes, and count their faults.
#![tactic(auto)]

mod failing_calls;
mod memory_sink;
mod memory_source;
mod pause;
mod plain_sink;
mod plain_source;
mod sink;
mod source;
mod std_sink;
mod std_source;
mod transfer;

pub use memory_sink::MemorySink;
pub use memory_source::MemorySource;
pub use pause::{MeetPause, Pause, QuietPause, SnoozePause};
pub use plain_sink::PlainSink;
pub use plain_source::PlainSource;
pub use sink::{Sink, SinkFault};
pub use source::{Failed, Source};
pub use std_sink::StdSink;
pub use std_source::StdSource;
pub use transfer::{ReadStop, read_up_to, write_all};
