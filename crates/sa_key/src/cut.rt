ghost use Rattle.std.specs.Prelude.{◌≡◌, IfOk};

use crate::key_ref::KeyRef;
use crate::key_tuple::KeyTuple;
use sa_value::OutOfMemory;
use std::alloc::Global;

/// On which side of the tuples that begin with its own values a cut lies.
#[derive(Clone, Copy, Debug, PartialEq, Eq)]
pub enum Side {
    Below,
    Above,
}

/// A place between the tuples of a key: right below, or right above, all that begin with these
/// values.
#[derive(Debug, Drop)]
pub struct Cut {
    pub tuple: KeyTuple,
    pub side: Side,
}

/// A cut that somebody else holds. It takes no memory.
#[derive(Debug, Drop)]
pub struct CutRef<'a> {
    pub tuple: KeyRef<'a>,
    pub side: Side,
}

impl Cut {
    ghost use Rattle.sa_key.specs.Cut.{cut_at};
    ghost use Rattle.sa_key.specs.Range.{canonical_cut};

    /// The cut, with its texts lent. It takes no memory.
    pub fn view(&self) -> CutRef<'_>
        ensures { cut_at result ≡ self.now }
    {
        CutRef {
            tuple: self.tuple.view(),
            side: self.side,
        }
    }

    /// An equal cut, whose texts take memory from `alloc`.
    pub fn copy(&self, alloc: Global) -> Result<Cut, OutOfMemory>
        ensures { IfOk result (λ cut. cut ≡ self.now) }
    {
        let side = self.side;
        Ok(Cut {
            tuple: self.tuple.copy(alloc)?,
            side,
        })
    }

    /// The cut in canonical form: a cut below drops the NULLs at its end, before which no value comes.
    /// It takes no memory.
    pub fn canonical(self) -> Cut
        ensures { result ≡ canonical_cut self }
    {
        match self.side {
            Side::Below => Cut {
                tuple: self.tuple.without_last_nulls(),
                side: Side::Below,
            },
            Side::Above => self,
        }
    }
}
