use crate::group::{Aggregates, Columns};
use crate::item::Items;
use crate::order::OrderKeys;
use sa_cond::Cond;
use sa_value::{Sequence, Text};

/// What a SELECT asks for, its names resolved: columns are named by the position of their table in
/// FROM, from 0, and their number in it.
///
/// A query groups where it has GROUP BY columns or aggregates. Its select list, HAVING and ORDER BY
/// then name slots: first the GROUP BY columns in order, then the aggregates. All else names columns.
///
/// Source: MariaDB Knowledge Base, "SELECT" and "GROUP BY".
#[derive(Debug, Drop)]
pub struct Query {
    /// The tables of FROM.
    pub tables: TableUses,
    /// All conditions of ON and then of WHERE, joined by AND.
    pub filter: Cond,
    pub select: Items,
    /// The columns of GROUP BY.
    pub group: Columns,
    /// Each different aggregate once, in the order of its first mention.
    pub aggregates: Aggregates,
    pub having: Option<Cond>,
    pub distinct: bool,
    pub order: OrderKeys,
    /// How many rows are given at most.
    pub limit: Option<u64>,
    /// How many rows are passed over before the first.
    pub offset: u64,
}

/// A table of FROM.
#[derive(Debug, Drop)]
pub struct TableUse {
    /// The table's number.
    pub table: u32,
    /// The name by which the statement calls it.
    pub alias: Text,
}

/// The tables of FROM, in order.
pub type TableUses = Sequence<TableUse>;
