use thiserror::Error;

/// Why a CSV text isn't loaded to its end.
#[derive(Clone, Copy, Debug, Drop, Error, PartialEq, Eq)]
pub enum LoadFault {
    /// The first record that can't be a row. Records are counted from 1 on, blank lines not at all.
    #[error("record {number}: {cause}")]
    Bad { number: u64, cause: LoadCause },
    #[error("out of memory")]
    OutOfMemory,
}

/// Why a record can't be a row of its table. Where several reasons stand, the first of this list is
/// told, the columns' reasons column by column.
#[derive(Clone, Copy, Debug, Drop, Error, PartialEq, Eq)]
pub enum LoadCause {
    #[error("the table has 1,000,000 rows already")]
    RowFull,
    #[error("the record has not as many fields as the table has columns")]
    Arity,
    #[error("a field is no UTF-8")]
    NotUtf8,
    #[error("a field in a column of numbers is no number")]
    NotNumber,
    #[error("column {column} is NOT NULL")]
    NullNotAllowed { column: u32 },
    #[error("the value of column {column} is of another type")]
    TypeMismatch { column: u32 },
    #[error("the number of column {column} is out of its range")]
    OutOfRange { column: u32 },
    #[error("the text of column {column} is too long")]
    TooLong { column: u32 },
    /// The first row with an equal tuple in a unique key.
    #[error("row {row} has the same values in a unique key")]
    DuplicateKey { row: u32 },
}
