ghost use Rattle.std.specs.Prelude.{◌≡◌};
ghost use Rattle.sa_table.specs.declared.fault.RowFault.TheVariants as row_faults;
ghost use Rattle.sa_table.specs.declared.fault.TableFault.TheVariants as table_faults;

use sa_value::OutOfMemory;
use std::alloc::AllocError;
use thiserror::Error;

/// Why a table can't be made. Where several reasons stand, the first of this list is told.
#[derive(Clone, Copy, Debug, Drop, Error, PartialEq, Eq)]
pub enum TableFault {
    #[error("there are 32 tables already")]
    TooManyTables,
    #[error("a table has at most 32 columns")]
    TooManyColumns,
    #[error("a table has at most 8 keys")]
    TooManyKeys,
    #[error("a key has at most 4 parts")]
    TooManyParts,
    #[error("a name stands twice")]
    DuplicateName,
    #[error("a key names a column that the table hasn't")]
    UnknownColumn,
    #[error("a table has at most one primary key")]
    SecondPrimary,
    #[error("out of memory")]
    OutOfMemory,
}

/// Why a row can't be put into a table. Where several reasons stand, the first of this list is told,
/// the columns' reasons column by column.
#[derive(Clone, Copy, Debug, Drop, Error, PartialEq, Eq)]
pub enum RowFault {
    #[error("the table has 1,000,000 rows already")]
    RowFull,
    #[error("the row has not as many values as the table has columns")]
    Arity,
    #[error("column {column} is NOT NULL")]
    NullNotAllowed { column: u32 },
    #[error("the value of column {column} is of another type")]
    TypeMismatch { column: u32 },
    #[error("the number of column {column} is out of its range")]
    OutOfRange { column: u32 },
    #[error("the text of column {column} is too long")]
    TooLong { column: u32 },
    /// The first row with an equal tuple in a unique key.
    #[error("row {row} has the same values in a unique key")]
    DuplicateKey { row: u32 },
    #[error("out of memory")]
    OutOfMemory,
}

impl From<OutOfMemory> for TableFault {
    ghost from_gives = { λ _ fault. fault ≡ table_faults.OutOfMemory };

    fn from(_error: OutOfMemory) -> TableFault {
        TableFault::OutOfMemory
    }
}

impl From<AllocError> for TableFault {
    ghost from_gives = { λ _ fault. fault ≡ table_faults.OutOfMemory };

    fn from(_error: AllocError) -> TableFault {
        TableFault::OutOfMemory
    }
}

impl From<OutOfMemory> for RowFault {
    ghost from_gives = { λ _ fault. fault ≡ row_faults.OutOfMemory };

    fn from(_error: OutOfMemory) -> RowFault {
        RowFault::OutOfMemory
    }
}
