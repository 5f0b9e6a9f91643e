ghost use Rattle.std.specs.Prelude.{◌≡◌};
ghost use Rattle.sa_worker.specs.inner.Fields.{finish_of, first_fields, whole_of};

use crate::opening::{Course, Goal, Opening};
use sa_ast::{AskKind, KillKind};
use sa_desk::{Finish, Outcome, StepStop};
use sa_exec::Run;
use sa_plan::SharedPlan;
use sa_value::Texts;

/// What a worker does next.
#[derive(Debug, Drop)]
pub(crate) enum Stage {
    /// Its work prepares the next statement. Where none is left it closes.
    Prepares,
    /// It begins a statement.
    Opens(Opening),
    Closes,
    /// It ends a statement without a run, with this outcome where no kill stands.
    Ends(Outcome),
    Asks {
        kind: AskKind,
        desk: u32,
    },
    /// It polls once more, after so many polls.
    Polls {
        kind: AskKind,
        desk: u32,
        polled: u64,
    },
    /// It looks for a kill between two polls.
    LooksAsking {
        kind: AskKind,
        desk: u32,
        polled: u64,
    },
    Withdraws {
        kind: AskKind,
        desk: u32,
        polled: u64,
    },
    Kills {
        kind: KillKind,
        desk: u32,
    },
    /// It looks at a desk once more, after so many looks.
    Waits {
        desk: u32,
        at: u64,
        looked: u64,
    },
    /// It looks for a kill between two looks.
    LooksWaiting {
        desk: u32,
        at: u64,
        looked: u64,
    },
    /// Its work makes steps of a run, after so many points.
    Steps {
        run: Run,
        goal: Goal,
        made: u64,
    },
    /// It makes a point of the run.
    Points {
        run: Run,
        goal: Goal,
        made: u64,
    },
    /// It ends a statement with its run.
    EndsRun {
        run: Run,
        end: RunEnd,
        made: u64,
    },
    Done,
}

/// How a run ends.
#[derive(Debug, Drop)]
pub(crate) enum RunEnd {
    Rows(Texts),
    Analyzed(SharedPlan),
    Broken(StepStop),
}

/// What follows the Begin of a statement.
pub(crate) fn first_stage(course: Course) -> Stage
    ensures { result ≡ first_fields course }
{
    match course {
        Course::Says(outcome) => Stage::Ends(outcome),
        Course::Shows { kind, desk } => Stage::Asks { kind, desk },
        Course::Waits { desk, at } => Stage::Waits {
            desk,
            at,
            looked: 0,
        },
        Course::Kills { kind, desk } => Stage::Kills { kind, desk },
        Course::Runs { run, goal } => Stage::Steps { run, goal, made: 0 },
    }
}

/// The end of a run whose items are all made.
pub(crate) fn whole(goal: Goal) -> RunEnd
    ensures { result ≡ whole_of goal }
{
    match goal {
        Goal::Rows(names) => RunEnd::Rows(names),
        Goal::Analyzed(plan) => RunEnd::Analyzed(plan),
    }
}

/// What the desk is given at the end.
pub(crate) fn finish_with(run: Run, end: RunEnd) -> Finish<Run>
    ensures { result ≡ finish_of run end }
{
    match end {
        RunEnd::Rows(names) => Finish::Rows { names, run },
        RunEnd::Analyzed(plan) => Finish::Analyzed { plan, run },
        RunEnd::Broken(fault) => Finish::Broken { fault, run },
    }
}
