ghost use Rattle.std.specs.Prelude.{◌≡◌, ◌≤◌, length, IfOk, OnOk, OnErr};
ghost use Rattle.std.specs.Io.KnownBytes.{ReadConsumes};
ghost use Rattle.sa_source.specs.Source.{raised};

use crate::source::{Failed, Source};
use std::io::Read;
use std::marker::Model;

/// A reader of the system, such as standard input. As a source it tells no bytes.
///
/// Contracts see the reader, and how often a read failed so far, up to the last value of 64 bits.
#[derive(Drop)]
pub struct StdSource<R: Read + Drop> {
    reader: R,
    faults: u64,
}

impl<R: Read + Drop> Model for StdSource<R> {
    ghost use Rattle.sa_source.specs.System.{Watched};

    ghost Value = { Watched R };

    ghost view = { λ source. record { device = source.reader; faults = source.faults } };
}

impl<R: Read + Drop> StdSource<R> {
    /// A source of what the reader gives.
    pub fn new(reader: R) -> StdSource<R>
        ensures { result ≡ record { device = reader; faults = 0 } }
    {
        StdSource { reader, faults: 0 }
    }
}

impl<R: Read + Drop> Source for StdSource<R> {
    ghost use Rattle.std.specs.Prelude.{None};

    ghost left = { λ _. None };

    ghost faults = { λ source. source.faults };

    /// Every error of the reader is a fault, an interruption too.
    fn read(&mut self, buffer: &mut [u8]) -> Result<usize, Failed>
        ensures counts { self.old.faults ≤ self.new.faults }
        ensures fits { IfOk result (λ n. n ≤ length buffer.old) }
        ensures passed_on { ReadConsumes
            (R.remaining self.old.device) (R.remaining self.new.device) result buffer.new }
        ensures ok { OnOk result (self.new.faults ≡ self.old.faults) }
        ensures err { OnErr result (self.new.faults ≡ raised self.old.faults) }
    {
        match self.reader.read(buffer) {
            Ok(count) => Ok(count),
            Err(_) => {
                self.faults = self.faults.saturating_add(1);
                Err(Failed)
            }
        }
    }
}
