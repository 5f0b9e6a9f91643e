ghost use Rattle.std.specs.Prelude.{◌≡◌, IfOk};

use crate::cut::Cut;
use sa_value::{OutOfMemory, Sequence};
use std::alloc::Global;

/// All tuples of a key from one cut to another.
#[derive(Debug, Drop)]
pub struct KeyRange {
    pub from: Cut,
    pub to: Cut,
}

/// Ranges of a key, one after another.
pub type KeyRanges = Sequence<KeyRange>;

impl KeyRange {
    ghost use Rattle.sa_key.specs.Range.{canonical_range};

    /// An equal range, whose texts take memory from `alloc`.
    pub fn copy(&self, alloc: Global) -> Result<KeyRange, OutOfMemory>
        ensures { IfOk result (λ range. range ≡ self.now) }
    {
        Ok(KeyRange {
            from: self.from.copy(alloc)?,
            to: self.to.copy(alloc)?,
        })
    }

    /// The range with its cuts in canonical form. It takes no memory.
    pub fn canonical(self) -> KeyRange
        ensures { result ≡ canonical_range self }
    {
        let KeyRange { from, to } = self;
        KeyRange {
            from: from.canonical(),
            to: to.canonical(),
        }
    }
}
