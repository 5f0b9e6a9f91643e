ghost use Rattle.std.specs.Prelude.{◌≡◌, ◌↔◌, ◌<◌, ◌≤◌, ◌++◌, [], min, length, take, IfOk, OnErr, IsErrOf};
ghost use Rattle.sa_source.specs.Calls.{no_calls, FailsNext, after_call, after_fault};

use crate::failing_calls::FailingCalls;
use crate::plain_sink::PlainSink;
use crate::sink::{Sink, SinkFault};
use std::alloc::Global;
use std::marker::Model;

/// Bytes in memory, taken in pieces of a bounded length, whose chosen calls fail.
///
/// Contracts see the bytes that were taken, the bound and the calls.
#[derive(Drop)]
pub struct MemorySink {
    bytes: PlainSink,
    piece: usize,
    calls: FailingCalls,
}

impl Model for MemorySink {
    ghost use Rattle.std.specs.Prelude.{◌<◌};
    ghost use Rattle.sa_source.specs.MemorySink.{SinkState};

    ghost Value = { SinkState };

    ghost view = { λ sink. record { taken = sink.bytes; piece = sink.piece; calls = sink.calls } };

    ghost invariant = { λ sink. 0 < sink.piece };
}

impl MemorySink {
    /// A sink that has taken nothing and takes at most `piece` bytes a call. It takes memory from
    /// `alloc` as it grows.
    ///
    /// Exactly the calls whose numbers stand in `failing`, counted from 1, fail.
    pub fn new(alloc: Global, piece: usize, failing: Vec<u64>) -> MemorySink
        requires { 0 < piece }
        ensures { result ≡ record { taken = []; piece = piece; calls = no_calls failing.items } }
    {
        MemorySink {
            bytes: PlainSink::new(alloc),
            piece,
            calls: FailingCalls::new(failing),
        }
    }

    /// The bytes that were taken.
    pub fn taken(&self) -> &[u8]
        ensures { result.now ≡ self.now.taken }
    {
        self.bytes.taken()
    }
}

impl Sink for MemorySink {
    ghost use Rattle.std.specs.Prelude.{Some};

    ghost taken = { λ sink. Some sink.taken };

    ghost faults = { λ sink. sink.calls.faults };

    fn write(&mut self, piece: &[u8]) -> Result<usize, SinkFault>
        ensures counts { self.old.calls.faults ≤ self.new.calls.faults }
        ensures failing { IsErrOf result SinkFault.Failed ↔ FailsNext self.old.calls }
        ensures failed { IsErrOf result SinkFault.Failed
            → self.new ≡ record self.old { calls = after_fault self.old.calls } }
        ensures out_of_memory { IsErrOf result SinkFault.OutOfMemory
            → self.new ≡ record self.old { calls = after_call self.old.calls } }

        ensures count { IfOk result (λ n. n ≡ min (length piece.now) self.old.piece) }
        ensures moves { IfOk result (λ n. 0 < length piece.now → 0 < n) }
        ensures ok { IfOk result
            (λ n. self.new
            ≡ record self.old {
              taken = self.old.taken ++ take n piece.now;
              calls = after_call self.old.calls;
            }) }
    {
        if self.calls.next_fails() {
            return Err(SinkFault::Failed);
        }
        let count = piece.len().min(self.piece);
        self.bytes.write(&piece[..count])
    }
}
