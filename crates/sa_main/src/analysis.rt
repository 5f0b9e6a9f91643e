ghost use Rattle.std.specs.Prelude.{◌≡◌, ◌≢◌, ◌⊎◌};
ghost use Rattle.sa_source.specs.Source.{HasRisen};
ghost use Rattle.sa_main.specs.Status.{Ran, Refused, CutShort};
ghost use Rattle.sa_main.specs.Words.{IsCommand};

use crate::command::{Command, command_of};
use crate::scripts::{run_script, step_script};
use sa_source::{Pause, Sink, Source};
use std::alloc::Global;
use std::sync::Wait;
use std::thread::Threads;

/// The words are no command.
const USAGE: u8 = 2;

/// What the program does with the words of its command line, its name left out. The word `step` or the
/// word `run` reads a script from the source, runs its sessions, and writes their journals to the sink.
///
/// The status is that of `step_script` or of `run_script`, or 2 where the words are something else. What
/// is said of `run` holds if the call returns.
pub fn analyze_main<R: Threads + Wait + Sync, S: Source, K: Sink, P: Pause + Sync>(
    rt: &R,
    alloc: Global,
    words: &[String],
    source: &mut S,
    sink: &mut K,
    pause: &P,
) -> u8
    ensures usage { ((command : Command) → ¬ (IsCommand command words.now)) → result ≡ 2 }
    ensures command { (command : Command) → IsCommand command words.now → result ≢ 2 }
    ensures untouched { result ≡ 2
        → (S.left source.new ≡ S.left source.old) × (K.taken sink.new ≡ K.taken sink.old) }
    ensures ran { (command : Command) → IsCommand command words.now → result ≡ 0
        → Ran command (S.left source.old) (S.left source.new) (K.taken sink.old) (K.taken sink.new) }
    ensures refused { result ≡ 3
        → Refused (S.left source.old) (S.left source.new) (K.taken sink.old) (K.taken sink.new) }
    ensures source_failed { result ≡ 4 → HasRisen (S.faults source.old) (S.faults source.new)
        × (K.taken sink.new ≡ K.taken sink.old) }
    ensures sink_failed { result ≡ 5 → HasRisen (K.faults sink.old) (K.faults sink.new) }
    ensures sink_cut { (command : Command) → IsCommand command words.now → result ≡ 5
        → CutShort command (S.left source.old) (S.left source.new)
        (K.taken sink.old) (K.taken sink.new) }
    ensures no_memory { (command : Command) → IsCommand command words.now → result ≡ 6
        → (K.taken sink.new ≡ K.taken sink.old) ⊎ CutShort command
        (S.left source.old) (S.left source.new) (K.taken sink.old) (K.taken sink.new) }
    ensures no_other { (result ≡ 0) ⊎ (result ≡ 2) ⊎ (result ≡ 3) ⊎ (result ≡ 4) ⊎ (result ≡ 5)
        ⊎ (result ≡ 6) }
{
    match command_of(words) {
        Some(Command::Step) => step_script(alloc, source, sink),
        Some(Command::Run) => run_script(rt, alloc, source, sink, pause),
        None => USAGE,
    }
}
