use crate::name::NameTree;
use sa_value::{Text, Texts};
use sqlite_items::Items;

/// A table's definition.
///
/// Source: MariaDB Knowledge Base, "CREATE TABLE".
#[derive(Debug, Drop)]
pub struct CreateTree {
    pub name: NameTree,
    pub columns: ColumnTrees,
    /// In the order of the text, a column's own key at its column.
    pub keys: KeyTrees,
}

/// A column's definition.
#[derive(Debug, Drop)]
pub struct ColumnTree {
    pub name: Text,
    pub kind: KindTree,
    /// Whether NOT NULL is among its options.
    pub not_null: bool,
}

/// The columns of a table's definition.
pub type ColumnTrees = Items<ColumnTree>;

/// What a column can hold.
///
/// Source: MariaDB Knowledge Base, "INT", "BIGINT" and "VARCHAR".
#[derive(Clone, Copy, Debug, PartialEq, Eq)]
pub enum KindTree {
    Int,
    BigInt,
    /// A text of at most so many characters.
    VarChar(u32),
}

/// A key's definition.
#[derive(Debug, Drop)]
pub struct KeyTree {
    /// The name that is written.
    pub name: Option<Text>,
    pub unique: bool,
    pub primary: bool,
    pub columns: Texts,
}

/// The keys of a table's definition.
pub type KeyTrees = Items<KeyTree>;
