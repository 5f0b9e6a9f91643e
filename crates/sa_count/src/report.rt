ghost use Rattle.std.specs.Prelude.{◌≡◌};

use crate::counters::Counters;
use arrayvec::ArrayVec;

/// How far a run has come: what other sessions see of it.
#[derive(Debug, Default, Drop)]
pub struct Report {
    /// The number of the statement in its session, from 1 on.
    pub statement: u32,
    /// How many row steps were made.
    pub steps: u64,
    /// How many rows were given out.
    pub sent: u64,
    /// The counters of each table, in the order of the plan.
    pub tables: ArrayVec<Counters, 8>,
}

impl Report {
    /// An equal report of its own. It takes no memory.
    pub fn copy(&self) -> Report
        ensures { result ≡ self.now }
    {
        let mut tables = ArrayVec::new();
        for counters in self.tables.as_slice() {
            tables.push(*counters);
        }
        Report {
            statement: self.statement,
            steps: self.steps,
            sent: self.sent,
            tables,
        }
    }
}
