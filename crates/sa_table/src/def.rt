use sa_value::{Sequence, Text};

/// A table's definition.
///
/// Source: MariaDB Knowledge Base, "CREATE TABLE".
#[derive(Debug, Drop)]
pub struct TableDef {
    pub name: Text,
    pub columns: ColumnDefs,
    /// In the order of their numbers, which count from 1 on.
    pub keys: KeyDefs,
}

/// A column's definition.
#[derive(Debug, Drop)]
pub struct ColumnDef {
    pub name: Text,
    pub kind: ColumnKind,
    pub not_null: bool,
}

/// The columns of a table, numbered from 0 on.
pub type ColumnDefs = Sequence<ColumnDef>;

/// What a column can hold.
///
/// Source: MariaDB Knowledge Base, "INT", "BIGINT" and "VARCHAR".
#[derive(Clone, Copy, Debug, PartialEq, Eq)]
pub enum ColumnKind {
    Int,
    BigInt,
    /// A text of at most so many characters.
    VarChar(u32),
}

/// A key's definition. A primary key is unique, and its columns are NOT NULL.
///
/// Source: MariaDB Knowledge Base, "Getting Started with Indexes".
#[derive(Debug, Drop)]
pub struct KeyDef {
    pub name: Text,
    pub unique: bool,
    pub primary: bool,
    pub parts: Parts,
}

/// The keys of a table.
pub type KeyDefs = Sequence<KeyDef>;

/// The numbers of the columns that a key is over, in its order.
pub type Parts = Sequence<u32>;
