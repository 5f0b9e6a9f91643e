ghost use Rattle.std.specs.Prelude.{◌≡◌, ◌↔◌, ◌<◌, ◌≤◌, [], ◌++◌, min, length, take, drop, IfOk, OnErr, IsErr};
ghost use Rattle.sa_source.specs.Calls.{no_calls, FailsNext, after_call, after_fault};

use crate::failing_calls::FailingCalls;
use crate::plain_source::PlainSource;
use crate::source::{Failed, Source};
use std::marker::Model;

/// Bytes in memory, given out in pieces of a bounded length, whose chosen calls fail.
///
/// Contracts see the bytes that are left, the bound and the calls.
#[derive(Drop)]
pub struct MemorySource {
    bytes: PlainSource,
    piece: usize,
    calls: FailingCalls,
}

impl Model for MemorySource {
    ghost use Rattle.std.specs.Prelude.{◌<◌};
    ghost use Rattle.sa_source.specs.MemorySource.{SourceState};

    ghost Value = { SourceState };

    ghost view = { λ source. record { left = source.bytes; piece = source.piece; calls = source.calls } };

    ghost invariant = { λ source. 0 < source.piece };
}

impl MemorySource {
    /// A source of these bytes, which gives at most `piece` of them a call.
    ///
    /// Exactly the calls whose numbers stand in `failing`, counted from 1, fail.
    pub fn new(bytes: Vec<u8>, piece: usize, failing: Vec<u64>) -> MemorySource
        requires { 0 < piece }
        ensures { result
            ≡ record { left = bytes.items; piece = piece; calls = no_calls failing.items } }
    {
        MemorySource {
            bytes: PlainSource::new(bytes),
            piece,
            calls: FailingCalls::new(failing),
        }
    }
}

impl Source for MemorySource {
    ghost use Rattle.std.specs.Prelude.{Some};

    ghost left = { λ source. Some source.left };

    ghost faults = { λ source. source.calls.faults };

    #[tactic(auto, using(crate::proofs::Buffers::filled))]
    fn read(&mut self, buffer: &mut [u8]) -> Result<usize, Failed>
        ensures counts { self.old.calls.faults ≤ self.new.calls.faults }
        ensures failing { IsErr result ↔ FailsNext self.old.calls }
        ensures err { OnErr result (self.new ≡ record self.old { calls = after_fault self.old.calls }) }
        ensures untouched { OnErr result (buffer.new ≡ buffer.old) }

        ensures count { IfOk result
            (λ n. n ≡ min (min (length buffer.old) self.old.piece) (length self.old.left)) }
        ensures end { IfOk result (λ n. n ≡ 0 → 0 < length buffer.old → self.old.left ≡ []) }
        ensures ok { IfOk result
            (λ n. self.new
            ≡ record self.old { left = drop n self.old.left; calls = after_call self.old.calls }) }
        ensures filled { IfOk result (λ n. buffer.new ≡ take n self.old.left ++ drop n buffer.old) }
    {
        if self.calls.next_fails() {
            return Err(Failed);
        }
        let room = buffer.len().min(self.piece);
        self.bytes.read(&mut buffer[..room])
    }
}
