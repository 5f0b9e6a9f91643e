ghost use Rattle.std.specs.Prelude.{◌≡◌, ℕ, ◌<◌, ◌≤◌, List, length, take, Option, IfOk, OnErr, IsErrOf};
ghost use Rattle.sa_source.specs.Source.{HasRisen};
ghost use Rattle.sa_source.specs.Sink.{Appends};

use thiserror::Error;

/// Why a write took nothing.
#[derive(Clone, Copy, Debug, PartialEq, Eq, Error)]
pub enum SinkFault {
    /// The outside did not take the bytes.
    #[error("the write failed")]
    Failed,
    /// Memory ran out.
    #[error("out of memory")]
    OutOfMemory,
}

/// Where bytes go, one piece after another.
pub trait Sink {
    /// The bytes that were taken, where the sink tells them.
    ghost taken: { Self → Option (List ℕ) };

    /// How often a write failed so far, up to the last value of 64 bits. Want of memory is no fault.
    ghost faults: { Self → ℕ };

    /// Takes bytes from the front of `piece`, and returns how many: at least one of a piece that has
    /// any. A write that fails takes nothing, and raises the count of faults if it is `Failed`.
    fn write(&mut self, piece: &[u8]) -> Result<usize, SinkFault>
        ensures counts { faults self.old ≤ faults self.new }
        ensures fits { IfOk result (λ n. n ≤ length piece.now) }
        ensures moves { IfOk result (λ n. 0 < length piece.now → 0 < n) }
        ensures took { IfOk result (λ n. Appends (taken self.old) (taken self.new) (take n piece.now)) }
        ensures failed { IsErrOf result SinkFault.Failed
            → HasRisen (faults self.old) (faults self.new) }
        ensures kept { OnErr result (taken self.new ≡ taken self.old) };
}
