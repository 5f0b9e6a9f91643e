ghost use Rattle.std.specs.Prelude.{◌≡◌, [], ◌++◌, length, Some, IfOk, OnOk, OnErr, IsOkUnless};

use crate::sink::{Sink, SinkFault};
use std::alloc::Global;
use std::marker::Model;

/// Bytes in memory, which grow by each piece as a whole. No write fails but for want of memory.
///
/// Contracts see the bytes that were taken.
#[derive(Drop)]
pub struct PlainSink {
    bytes: Vec<u8>,
}

impl Model for PlainSink {
    ghost use Rattle.std.specs.Prelude.{ℕ, List};

    ghost Value = { List ℕ };

    ghost view = { λ sink. sink.bytes.items };
}

impl PlainSink {
    /// A sink that has taken nothing. It takes memory from `alloc` as it grows.
    pub fn new(alloc: Global) -> PlainSink
        ensures { result ≡ [] }
    {
        PlainSink {
            bytes: Vec::new(alloc),
        }
    }

    /// The bytes that were taken.
    pub fn taken(&self) -> &[u8]
        ensures { result.now ≡ self.now }
    {
        self.bytes.as_slice()
    }
}

impl Sink for PlainSink {
    ghost taken = { λ sink. Some sink };

    ghost faults = { λ _. 0 };

    fn write(&mut self, piece: &[u8]) -> Result<usize, SinkFault>
        ensures only_memory { IsOkUnless result SinkFault.OutOfMemory }
        ensures whole { IfOk result (λ n. n ≡ length piece.now) }
        ensures grown { OnOk result (self.new ≡ self.old ++ piece.now) }
        ensures kept { OnErr result (self.new ≡ self.old) }
    {
        match self.bytes.extend_from_slice(piece) {
            Ok(()) => Ok(piece.len()),
            Err(_) => Err(SinkFault::OutOfMemory),
        }
    }
}
