//! The commands that read a script and write what answers it.

ghost use Rattle.std.specs.Prelude.{◌≡◌, ◌⊎◌};
ghost use Rattle.sa_source.specs.Source.{HasRisen};
ghost use Rattle.sa_main.specs.Status.{Ran, Refused, CutShort};
ghost use Rattle.sa_main.specs.declared.command.Command.TheVariants.{Step, Run};

use crate::answering::{answer_run, answer_step};
use crate::transfer::{OUT_OF_MEMORY, read_input, write_answer};
use sa_source::{Pause, Sink, Source};
use std::alloc::Global;
use std::sync::Wait;
use std::thread::Threads;

/// The command `step`: reads a script, runs its sessions on one thread, and writes their journals.
///
/// The status is 0 where the script ran, 3 where the input is no script, 4 where the source failed,
/// 5 where the sink failed and 6 where memory ran out. The call always returns, and never waits.
pub fn step_script<S: Source, K: Sink>(alloc: Global, source: &mut S, sink: &mut K) -> u8
    ensures ran { result ≡ 0 → Ran Step (S.left source.old) (S.left source.new)
        (K.taken sink.old) (K.taken sink.new) }
    ensures refused { result ≡ 3
        → Refused (S.left source.old) (S.left source.new) (K.taken sink.old) (K.taken sink.new) }
    ensures source_failed { result ≡ 4 → HasRisen (S.faults source.old) (S.faults source.new)
        × (K.taken sink.new ≡ K.taken sink.old) }
    ensures sink_failed { result ≡ 5 → HasRisen (K.faults sink.old) (K.faults sink.new)
        × CutShort Step (S.left source.old) (S.left source.new) (K.taken sink.old) (K.taken sink.new) }
    ensures no_memory { result ≡ 6 → (K.taken sink.new ≡ K.taken sink.old)
        ⊎ CutShort Step (S.left source.old) (S.left source.new) (K.taken sink.old) (K.taken sink.new) }
    ensures no_other { (result ≡ 0) ⊎ (result ≡ 3) ⊎ (result ≡ 4) ⊎ (result ≡ 5) ⊎ (result ≡ 6) }
{
    let input = match read_input(alloc, source) {
        Ok(input) => input,
        Err(status) => return status,
    };
    match answer_step(alloc, &input) {
        Ok(answer) => write_answer(sink, &answer),
        Err(_) => OUT_OF_MEMORY,
    }
}

/// The command `run`: reads a script, runs each of its sessions on a thread of its own, and writes their
/// journals. A session pauses after each call that had to wait.
///
/// The status is as for `step_script`. What is said of it holds if the call returns.
pub fn run_script<R: Threads + Wait + Sync, S: Source, K: Sink, P: Pause + Sync>(
    rt: &R,
    alloc: Global,
    source: &mut S,
    sink: &mut K,
    pause: &P,
) -> u8
    ensures ran { result ≡ 0 → Ran Run (S.left source.old) (S.left source.new)
        (K.taken sink.old) (K.taken sink.new) }
    ensures refused { result ≡ 3
        → Refused (S.left source.old) (S.left source.new) (K.taken sink.old) (K.taken sink.new) }
    ensures source_failed { result ≡ 4 → HasRisen (S.faults source.old) (S.faults source.new)
        × (K.taken sink.new ≡ K.taken sink.old) }
    ensures sink_failed { result ≡ 5 → HasRisen (K.faults sink.old) (K.faults sink.new)
        × CutShort Run (S.left source.old) (S.left source.new) (K.taken sink.old) (K.taken sink.new) }
    ensures no_memory { result ≡ 6 → (K.taken sink.new ≡ K.taken sink.old)
        ⊎ CutShort Run (S.left source.old) (S.left source.new) (K.taken sink.old) (K.taken sink.new) }
    ensures no_other { (result ≡ 0) ⊎ (result ≡ 3) ⊎ (result ≡ 4) ⊎ (result ≡ 5) ⊎ (result ≡ 6) }
{
    let input = match read_input(alloc, source) {
        Ok(input) => input,
        Err(status) => return status,
    };
    match answer_run(rt, alloc, pause, &input) {
        Ok(answer) => write_answer(sink, &answer),
        Err(_) => OUT_OF_MEMORY,
    }
}
