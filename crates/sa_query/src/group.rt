use sa_ast::AggregateCall;
use sa_cond::Expr;
use sa_value::Sequence;

/// A column of a table of FROM.
#[derive(Clone, Copy, Debug, PartialEq, Eq)]
pub struct Column {
    /// The table's position in FROM, from 0.
    pub table: u32,
    /// The column's number in its table, from 0.
    pub column: u32,
}

/// The columns of GROUP BY.
pub type Columns = Sequence<Column>;

/// An aggregate of a query that groups.
///
/// Source: MariaDB Knowledge Base, "Aggregate Functions".
#[derive(Debug, Drop)]
pub struct Aggregate {
    pub call: AggregateCall,
    /// What it is of; None for `COUNT(*)` alone.
    pub argument: Option<Expr>,
}

/// The aggregates of a query.
pub type Aggregates = Sequence<Aggregate>;
