ghost use Rattle.sa_lexer.specs.declared.fault.LexFault.TheVariants as faults;
ghost use Rattle.std.specs.Prelude.{◌≡◌};

use sa_value::OutOfMemory;
use std::alloc::{AllocError, AllocFailed};

/// What is wrong with a text.
#[derive(Clone, Copy, Debug, PartialEq, Eq)]
pub enum LexKind {
    /// A byte that begins no token, or that may not follow a number.
    BadByte,
    /// A text or a quoted name without its end.
    OpenText,
    /// A comment without its end.
    OpenComment,
    /// A number of more than 38 digits.
    NumberTooLong,
    /// A text of more than 255 bytes.
    TextTooLong,
}

/// Why a text has no tokens.
#[derive(Debug, Drop)]
pub enum LexFault {
    /// The leftmost fault of the text, and the byte at which it stands, counted from 0.
    Bad { kind: LexKind, place: usize },
    /// Memory ran out.
    OutOfMemory,
}

impl From<OutOfMemory> for LexFault {
    ghost from_gives = { λ _ fault. fault ≡ faults.OutOfMemory };

    fn from(_error: OutOfMemory) -> LexFault {
        LexFault::OutOfMemory
    }
}

impl From<AllocError> for LexFault {
    ghost from_gives = { λ _ fault. fault ≡ faults.OutOfMemory };

    fn from(_error: AllocError) -> LexFault {
        LexFault::OutOfMemory
    }
}

impl<T: Drop> From<AllocFailed<T>> for LexFault {
    ghost from_gives = { λ _ fault. fault ≡ faults.OutOfMemory };

    fn from(_error: AllocFailed<T>) -> LexFault {
        LexFault::OutOfMemory
    }
}
