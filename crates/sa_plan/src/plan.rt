use crate::access::Access;
use crate::shared::SharedPlan;
use sa_cond::Conds;
use sa_query::Items;
use sa_value::{Sequence, Text};

/// How a SELECT is run: the tables one inside the other, the first outermost, and what is given out
/// for each choice of their rows that passes.
///
/// MariaDB's Knowledge Base shows such a plan under "EXPLAIN FORMAT=JSON". The costs are this
/// project's own.
#[derive(Debug, Drop)]
pub struct Plan {
    pub levels: Levels,
    pub select: Items,
    pub cost: u128,
}

/// A table of a plan.
#[derive(Debug, Drop)]
pub struct Level {
    /// The table's position in FROM, counted from 0, by which expressions name it.
    pub position: u32,
    /// The table's number.
    pub table: u32,
    /// The name by which the statement calls it.
    pub alias: Text,
    pub access: Access,
    /// A row passes where all of them are TRUE. They name this table and those of the levels before.
    pub conditions: Conds,
    /// How many rows the access is reckoned to give each time.
    pub estimate: u64,
}

/// The tables of a plan, the outermost first.
pub type Levels = Sequence<Level>;

/// What planning a query gives.
#[derive(Debug, Drop)]
pub struct Planned {
    pub plan: SharedPlan,
}
