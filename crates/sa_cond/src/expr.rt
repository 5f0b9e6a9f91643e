use sa_value::Value;
use sqlite_items::{Boxed, Items};

/// An expression whose names are resolved: a value for each choice of rows.
///
/// Source: MariaDB Knowledge Base, "Arithmetic Operators".
#[derive(Debug, Drop)]
pub enum Expr {
    /// A column of the table in this position of FROM, both counted from 0.
    Column { table: u32, column: u32 },
    /// A GROUP BY column or an aggregate of a group, counted from 0.
    Slot(u32),
    Literal(Value),
    Negate(Boxed<Expr>),
    Add(Boxed<Expr>, Boxed<Expr>),
    Subtract(Boxed<Expr>, Boxed<Expr>),
    Multiply(Boxed<Expr>, Boxed<Expr>),
}

/// A list of expressions.
pub type Exprs = Items<Expr>;
