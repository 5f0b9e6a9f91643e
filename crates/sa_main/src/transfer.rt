//! How an input comes in, and its answer goes out.

ghost use Rattle.std.specs.Prelude.{◌≡◌, ◌⊎◌, Err, IfOk, IfErr};
ghost use Rattle.sa_source.specs.Source.{HasRisen};
ghost use Rattle.sa_source.specs.Sink.{Appends};
ghost use Rattle.sa_source.specs.Transfer.{WritesPart};
ghost use Rattle.sa_main.specs.Status.{ReadsInput};

use crate::answering::Answer;
use sa_source::{ReadStop, Sink, SinkFault, Source, read_up_to, write_all};
use std::alloc::Global;

/// The most bytes of a script: 16 MiB.
const MOST_BYTES: usize = 1 << 24;

/// The source failed.
const SOURCE_FAILED: u8 = 4;

/// The sink failed.
const SINK_FAILED: u8 = 5;

/// Memory ran out.
pub const OUT_OF_MEMORY: u8 = 6;

/// The whole input, or the first 16,777,217 bytes of it; or the status that goes with what stopped it.
pub fn read_input<S: Source>(alloc: Global, source: &mut S) -> Result<Vec<u8>, u8>
    ensures read { IfOk result
        (λ input. ReadsInput (S.left source.old) (S.left source.new) input.items) }
    ensures failed { result ≡ Err 4 → HasRisen (S.faults source.old) (S.faults source.new) }
    ensures no_other { IfErr result (λ status. (status ≡ 4) ⊎ (status ≡ 6)) }
{
    match read_up_to(alloc, source, MOST_BYTES + 1) {
        Ok(input) => Ok(input),
        Err(ReadStop::Failed) => Err(SOURCE_FAILED),
        Err(ReadStop::OutOfMemory) => Err(OUT_OF_MEMORY),
    }
}

/// Writes what answers an input. The status is the answer's, where all of it was written.
pub fn write_answer<K: Sink>(sink: &mut K, answer: &Answer) -> u8
    requires { (answer.now.status ≡ 0) ⊎ (answer.now.status ≡ 3) }
    ensures whole { (result ≡ 0) ⊎ (result ≡ 3) → (answer.now.status ≡ result)
        × Appends (K.taken sink.old) (K.taken sink.new) answer.now.text.items }
    ensures failed { result ≡ 5 → HasRisen (K.faults sink.old) (K.faults sink.new) }
    ensures part { (result ≡ 5) ⊎ (result ≡ 6)
        → WritesPart (K.taken sink.old) (K.taken sink.new) answer.now.text.items }
    ensures no_other { (result ≡ 0) ⊎ (result ≡ 3) ⊎ (result ≡ 5) ⊎ (result ≡ 6) }
{
    match write_all(sink, &answer.text) {
        Ok(()) => answer.status,
        Err(SinkFault::Failed) => SINK_FAILED,
        Err(SinkFault::OutOfMemory) => OUT_OF_MEMORY,
    }
}
