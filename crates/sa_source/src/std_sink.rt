ghost use Rattle.std.specs.Prelude.{◌≡◌, ◌≤◌, ◌<◌, length, IfOk, OnOk, OnErr, IsOkUnless};
ghost use Rattle.std.specs.Io.KnownBytes.{WriteAppends};
ghost use Rattle.sa_source.specs.Source.{raised};

use crate::sink::{Sink, SinkFault};
use std::io::Write;
use std::marker::Model;

/// A writer of the system, such as standard output. As a sink it tells no bytes.
///
/// It never flushes, so the writer has to keep nothing back. Contracts see the writer, and how often
/// a write failed so far, up to the last value of 64 bits.
#[derive(Drop)]
pub struct StdSink<W: Write + Drop> {
    writer: W,
    faults: u64,
}

impl<W: Write + Drop> Model for StdSink<W> {
    ghost use Rattle.sa_source.specs.System.{Watched};

    ghost Value = { Watched W };

    ghost view = { λ sink. record { device = sink.writer; faults = sink.faults } };
}

impl<W: Write + Drop> StdSink<W> {
    /// A sink that hands everything to the writer.
    pub fn new(writer: W) -> StdSink<W>
        ensures { result ≡ record { device = writer; faults = 0 } }
    {
        StdSink { writer, faults: 0 }
    }
}

impl<W: Write + Drop> Sink for StdSink<W> {
    ghost use Rattle.std.specs.Prelude.{None};

    ghost taken = { λ _. None };

    ghost faults = { λ sink. sink.faults };

    /// Every error of the writer is a fault, an interruption too, and so is a write that takes
    /// nothing of a piece that has bytes.
    fn write(&mut self, piece: &[u8]) -> Result<usize, SinkFault>
        ensures counts { self.old.faults ≤ self.new.faults }
        ensures only_failed { IsOkUnless result SinkFault.Failed }
        ensures fits { IfOk result (λ n. n ≤ length piece.now) }
        ensures moves { IfOk result (λ n. 0 < length piece.now → 0 < n) }
        ensures passed_on { WriteAppends
            (W.contents self.old.device) (W.contents self.new.device) result piece.now }
        ensures ok { OnOk result (self.new.faults ≡ self.old.faults) }
        ensures err { OnErr result (self.new.faults ≡ raised self.old.faults) }
    {
        match self.writer.write(piece) {
            Ok(count) if count > 0 || piece.is_empty() => Ok(count),
            _ => {
                self.faults = self.faults.saturating_add(1);
                Err(SinkFault::Failed)
            }
        }
    }
}
