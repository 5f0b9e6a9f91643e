ghost use Rattle.std.specs.Prelude.{◌≡◌};
ghost use Rattle.sa_script.specs.declared.fault.ScriptFault.TheVariants as faults;

use sa_value::OutOfMemory;
use std::alloc::{AllocError, AllocFailed};

/// Why a text is no script. Of several faults the first in the text is told; of several at one place, the
/// first of this list.
#[derive(Clone, Copy, Debug, PartialEq, Eq)]
pub enum ScriptKind {
    /// The script has more than 16 MiB; or a text of a row is too long for its column.
    TooLong,
    /// The script is no UTF-8; or a block ends inside a character.
    NotUtf8,
    /// A text or a quoted name has no end.
    OpenText,
    /// A comment has no end.
    OpenComment,
    /// A byte begins no token, or may not follow a number.
    BadByte,
    /// A number has more than 38 digits.
    NumberTooLong,
    /// A text has more than 255 bytes.
    TextTooLong,
    /// The tokens of a piece are none that may stand there.
    Syntax,
    /// MariaDB may read the piece, this engine doesn't.
    NotSupported,
    /// A piece nests too deep.
    TooDeep,
    /// QUANTUM is not 1 to 64, or TURNS not 1 to 1,000,000,000.
    BadNumber,
    /// A session's number is not the next one.
    SessionOrder,
    /// There is a 17th session.
    TooManySessions,
    /// A session has a 257th statement.
    TooManyStatements,
    /// A statement has more than 64 KiB.
    StatementTooLong,
    /// A number of SCHEDULE is none of a session.
    UnknownSession,
    /// SCHEDULE has a 65,537th number.
    ScheduleTooLong,
    /// Something stands behind SCHEDULE.
    AfterSchedule,
    /// A LOAD DATA has no semicolon, no line end behind it, or not so many bytes.
    BlockMissing,
    /// There is no such table.
    UnknownTable,
    /// The table has no such column.
    UnknownColumn,
    /// A name stands twice.
    DuplicateName,
    /// There are 32 tables already.
    TooManyTables,
    /// A table has more than 32 columns.
    TooManyColumns,
    /// A table has more than 8 keys.
    TooManyKeys,
    /// A key has more than 4 columns.
    TooManyParts,
    /// A table has two primary keys.
    SecondPrimary,
    /// A table has 1,000,000 rows already.
    RowFull,
    /// A row has not as many values as the table has columns.
    Arity,
    /// A field of a column of numbers is no number.
    NotNumber,
    /// NULL stands in a column that is NOT NULL.
    NullNotAllowed,
    /// A value is of another type than its column.
    TypeMismatch,
    /// A number is out of its column's range.
    OutOfRange,
    /// Another row has the same values in a unique key.
    DuplicateKey,
}

/// Why a text is not read as a script.
#[derive(Clone, Copy, Debug, PartialEq, Eq)]
pub enum ScriptFault {
    /// The first fault of the text: its kind, its byte, and where a row is at fault the number of the
    /// row among those of its INSERT or its block, from 1 on.
    Bad {
        kind: ScriptKind,
        place: usize,
        line: Option<u64>,
    },
    /// Memory ran out.
    OutOfMemory,
}

impl ScriptFault {
    /// A fault at a byte, where no row is at fault.
    pub(crate) fn at(kind: ScriptKind, place: usize) -> ScriptFault
        ensures { result ≡ ScriptFault.Bad kind place None }
    {
        ScriptFault::Bad {
            kind,
            place,
            line: None,
        }
    }

    /// A fault of a row, by its number from 1 on.
    pub(crate) fn of_row(kind: ScriptKind, place: usize, number: u64) -> ScriptFault
        ensures { result ≡ ScriptFault.Bad kind place (Some number) }
    {
        ScriptFault::Bad {
            kind,
            place,
            line: Some(number),
        }
    }
}

impl From<OutOfMemory> for ScriptFault {
    ghost from_gives = { λ _ fault. fault ≡ faults.OutOfMemory };

    fn from(_error: OutOfMemory) -> ScriptFault {
        ScriptFault::OutOfMemory
    }
}

impl From<AllocError> for ScriptFault {
    ghost from_gives = { λ _ fault. fault ≡ faults.OutOfMemory };

    fn from(_error: AllocError) -> ScriptFault {
        ScriptFault::OutOfMemory
    }
}

impl<T: Drop> From<AllocFailed<T>> for ScriptFault {
    ghost from_gives = { λ _ fault. fault ≡ faults.OutOfMemory };

    fn from(_error: AllocFailed<T>) -> ScriptFault {
        ScriptFault::OutOfMemory
    }
}
