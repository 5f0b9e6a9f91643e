use crate::name::{NameTree, NameTrees};
use sa_value::Row;
use sqlite_items::Items;

/// Rows for a table.
///
/// Source: MariaDB Knowledge Base, "INSERT".
#[derive(Debug, Drop)]
pub struct InsertTree {
    pub table: NameTree,
    /// The columns that the values are for, where they are written.
    pub columns: Option<NameTrees>,
    pub tuples: TupleTrees,
}

/// The values of one row. A number is an `Int` where it fits, and else a `Big`.
#[derive(Debug, Drop)]
pub struct TupleTree {
    pub values: Row,
    /// Its opening bracket.
    pub place: usize,
}

/// The rows of an INSERT.
pub type TupleTrees = Items<TupleTree>;
