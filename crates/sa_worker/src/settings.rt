ghost use Rattle.std.specs.Prelude.{◌≡◌, ℕ, ◌^◌, IfOk};
ghost use Rattle.sa_desk.specs.declared.answer.Ended.{Ended as ended_value};
ghost use Rattle.sa_desk.specs.program.Course.{at_first, trace};
ghost use Rattle.sa_worker.specs.inner.Fields.{changed, settings_of};

use sa_desk::Ended;
use sa_plan::Planned;
use sa_value::{OutOfMemory, Text};
use std::alloc::Global;

/// What the SETs of a session have left, and the statement that is traced.
///
/// Source of the names: MariaDB Knowledge Base, "Optimizer Trace".
#[derive(Debug, Drop)]
pub(crate) struct Settings {
    /// How many row steps a statement makes at most.
    pub(crate) limit: u64,
    pub(crate) tracing: bool,
    pub(crate) traced: Option<Traced>,
}

/// A statement that was prepared with a plan while tracing was on: its canonical text and its plan.
#[derive(Debug, Drop)]
pub(crate) struct Traced {
    pub(crate) text: Text,
    pub(crate) planned: Planned,
}

/// What the end of a statement changes of the settings.
#[derive(Debug, Drop)]
pub(crate) enum Change {
    Nothing,
    /// A SET, which holds only where the statement wasn't killed.
    Limit(u64),
    Tracing(bool),
    /// The statement is traced, however it ended.
    Traces(Traced),
}

/// How many row steps a statement makes at most before a SET says otherwise.
const FIRST_LIMIT: u64 = 1 << 40;

impl Settings {
    /// The settings of a new session.
    pub(crate) fn new() -> Settings
        ensures { settings_of result ≡ at_first }
    {
        Settings {
            limit: FIRST_LIMIT,
            tracing: false,
            traced: None,
        }
    }

    /// The settings after the statement.
    pub(crate) fn after(self, change: Change, ended: Ended) -> Settings
        ensures { settings_of result ≡ changed (settings_of self) change ended }
    {
        let Settings {
            limit,
            tracing,
            traced,
        } = self;
        match (change, ended) {
            (Change::Limit(limit), Ended::Kept) => Settings {
                limit,
                tracing,
                traced,
            },
            (Change::Tracing(tracing), Ended::Kept) => Settings {
                limit,
                tracing,
                traced,
            },
            (Change::Traces(traced), _) => Settings {
                limit,
                tracing,
                traced: Some(traced),
            },
            _ => Settings {
                limit,
                tracing,
                traced,
            },
        }
    }
}

/// The statement is traced where tracing is on.
pub(crate) fn trace_of(
    alloc: Global,
    settings: &Settings,
    text: &Text,
    planned: &Planned,
) -> Result<Change, OutOfMemory>
    ensures { IfOk result (λ change. (ended : ended_value) →
        changed (settings_of settings.now) change ended
        ≡ trace (settings_of settings.now) text.now planned.now) }
{
    if !settings.tracing {
        return Ok(Change::Nothing);
    }
    let text = text.copy(alloc)?;
    let plan = planned.plan.share()?;
    Ok(Change::Traces(Traced {
        text,
        planned: Planned { plan },
    }))
}
