ghost use Rattle.std.specs.Prelude.{◌≡◌};

use crate::settings::Change;
use sa_ast::{AskKind, KillKind};
use sa_desk::Outcome;
use sa_exec::Run;
use sa_plan::SharedPlan;
use sa_table::SharedTables;
use sa_value::{Text, Texts};

/// A statement that is about to begin. All that it takes memory for but its rows is made.
#[derive(Debug, Drop)]
pub(crate) struct Opening {
    /// What the Begin tells.
    pub(crate) text: Text,
    pub(crate) made: Made,
}

/// What was made for a statement.
#[derive(Debug, Drop)]
pub(crate) struct Made {
    /// What the Begin shows of a statement with a run.
    pub(crate) plan: Option<SharedPlan>,
    pub(crate) tables: Option<SharedTables>,
    pub(crate) course: Course,
    pub(crate) change: Change,
}

impl Made {
    /// A statement without a run.
    pub(crate) fn plain(course: Course, change: Change) -> Made
        ensures { result ≡ record {
          plan = None;
          tables = None;
          course = course;
          change = change;
        } }
    {
        Made {
            plan: None,
            tables: None,
            course,
            change,
        }
    }
}

/// What a statement does after its Begin.
#[derive(Debug, Drop)]
pub(crate) enum Course {
    /// It ends at once with this outcome.
    Says(Outcome),
    Shows { kind: AskKind, desk: u32 },
    Waits { desk: u32, at: u64 },
    Kills { kind: KillKind, desk: u32 },
    Runs { run: Run, goal: Goal },
}

/// What a run is made for.
#[derive(Debug, Drop)]
pub(crate) enum Goal {
    /// A SELECT: its rows, with these column names.
    Rows(Texts),
    /// An ANALYZE: this plan with what the run counts.
    Analyzed(SharedPlan),
}
