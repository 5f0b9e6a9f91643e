ghost use Rattle.sa_parser.specs.declared.fault.ReadFault.TheVariants as faults;
ghost use Rattle.std.specs.Prelude.{◌≡◌};

use sa_value::OutOfMemory;
use std::alloc::{AllocError, AllocFailed};

/// Why a rule of the grammar can't be read.
#[derive(Debug, Drop)]
pub(crate) enum ReadFault {
    /// So many tokens are left, from the first one on that can't stand where it does.
    Left(usize),
    /// Memory ran out.
    OutOfMemory,
}

impl From<OutOfMemory> for ReadFault {
    ghost from_gives = { λ _ fault. fault ≡ faults.OutOfMemory };

    fn from(_error: OutOfMemory) -> ReadFault {
        ReadFault::OutOfMemory
    }
}

impl From<AllocError> for ReadFault {
    ghost from_gives = { λ _ fault. fault ≡ faults.OutOfMemory };

    fn from(_error: AllocError) -> ReadFault {
        ReadFault::OutOfMemory
    }
}

impl<T: Drop> From<AllocFailed<T>> for ReadFault {
    ghost from_gives = { λ _ fault. fault ≡ faults.OutOfMemory };

    fn from(_error: AllocFailed<T>) -> ReadFault {
        ReadFault::OutOfMemory
    }
}
