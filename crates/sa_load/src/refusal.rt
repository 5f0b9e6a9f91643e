ghost use Rattle.std.specs.Prelude.{◌≡◌};
ghost use Rattle.sa_load.specs.declared.refusal.Refusal.TheVariants as refusals;
ghost use Rattle.sa_load.specs.inner.Refusal.{refusal_of, fault_at};

use crate::fault::{LoadCause, LoadFault};
use sa_table::RowFault;
use sa_value::OutOfMemory;
use std::alloc::{AllocError, AllocFailed};

/// Why a record is no row, whatever its number.
#[derive(Debug, Drop)]
pub(crate) enum Refusal {
    Cause(LoadCause),
    /// Memory ran out.
    OutOfMemory,
}

impl Refusal {
    /// What is told of the record with this number.
    pub(crate) fn at(self, number: u64) -> LoadFault
        ensures { result ≡ fault_at number self }
    {
        match self {
            Refusal::Cause(cause) => LoadFault::Bad { number, cause },
            Refusal::OutOfMemory => LoadFault::OutOfMemory,
        }
    }
}

impl From<RowFault> for Refusal {
    ghost from_gives = { λ fault refusal. refusal ≡ refusal_of fault };

    fn from(fault: RowFault) -> Refusal {
        match fault {
            RowFault::RowFull => Refusal::Cause(LoadCause::RowFull),
            RowFault::Arity => Refusal::Cause(LoadCause::Arity),
            RowFault::NullNotAllowed { column } => {
                Refusal::Cause(LoadCause::NullNotAllowed { column })
            }
            RowFault::TypeMismatch { column } => Refusal::Cause(LoadCause::TypeMismatch { column }),
            RowFault::OutOfRange { column } => Refusal::Cause(LoadCause::OutOfRange { column }),
            RowFault::TooLong { column } => Refusal::Cause(LoadCause::TooLong { column }),
            RowFault::DuplicateKey { row } => Refusal::Cause(LoadCause::DuplicateKey { row }),
            RowFault::OutOfMemory => Refusal::OutOfMemory,
        }
    }
}

impl From<OutOfMemory> for Refusal {
    ghost from_gives = { λ _ refusal. refusal ≡ refusals.OutOfMemory };

    fn from(_error: OutOfMemory) -> Refusal {
        Refusal::OutOfMemory
    }
}

impl From<AllocError> for Refusal {
    ghost from_gives = { λ _ refusal. refusal ≡ refusals.OutOfMemory };

    fn from(_error: AllocError) -> Refusal {
        Refusal::OutOfMemory
    }
}

impl<T: Drop> From<AllocFailed<T>> for Refusal {
    ghost from_gives = { λ _ refusal. refusal ≡ refusals.OutOfMemory };

    fn from(_error: AllocFailed<T>) -> Refusal {
        Refusal::OutOfMemory
    }
}
