use sa_cond::Expr;
use sa_value::{Sequence, Text};

/// An item of a select list: a column of the answer.
///
/// Source: MariaDB Knowledge Base, "SELECT".
#[derive(Debug, Drop)]
pub struct Item {
    /// The name of the answer's column.
    pub name: Text,
    pub value: Expr,
}

/// A select list.
pub type Items = Sequence<Item>;
