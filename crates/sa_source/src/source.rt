ghost use Rattle.std.specs.Prelude.{◌≡◌, ℕ, ◌<◌, ◌≤◌, List, length, take, Option, IfOk, OnErr};
ghost use Rattle.sa_source.specs.Source.{Takes, IsAtEnd, HasRisen};

/// A read failed.
#[derive(Clone, Copy, Debug, PartialEq, Eq)]
pub struct Failed;

/// Where bytes come from, one piece after another.
pub trait Source {
    /// The bytes that are left, where the source tells them.
    ghost left: { Self → Option (List ℕ) };

    /// How often a read failed so far, up to the last value of 64 bits.
    ghost faults: { Self → ℕ };

    /// Puts the next bytes at the front of `buffer`, and returns how many.
    ///
    /// No byte, for a buffer that has room, is the end of the input. A read that fails takes no byte,
    /// and raises the count of faults.
    fn read(&mut self, buffer: &mut [u8]) -> Result<usize, Failed>
        ensures counts { faults self.old ≤ faults self.new }
        ensures fits { IfOk result (λ n. n ≤ length buffer.old) }
        ensures took { IfOk result (λ n. Takes (left self.old) (left self.new) (take n buffer.new)) }
        ensures end { IfOk result (λ n. n ≡ 0 → 0 < length buffer.old → IsAtEnd (left self.old)) }
        ensures failed { OnErr result (HasRisen (faults self.old) (faults self.new)) }
        ensures kept { OnErr result (left self.new ≡ left self.old) };
}
