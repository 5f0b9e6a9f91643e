use sa_ast::AskKind;
use sa_count::Report;
use sa_plan::SharedPlan;
use sa_query::Refusal;
use sa_value::{Rows, Text, Texts};

/// How a statement ended.
#[derive(Debug, Drop)]
pub enum Outcome {
    /// A SELECT gave these rows, with these column names.
    Rows {
        names: Texts,
        rows: Rows,
    },
    /// An EXPLAIN showed this plan.
    PlanShown {
        plan: SharedPlan,
    },
    /// An ANALYZE ran this plan, and counted this.
    Analyzed {
        plan: SharedPlan,
        report: Report,
    },
    /// A SHOW was answered from this desk, by a run of the statement whose Begin has this number.
    Shown {
        kind: AskKind,
        desk: u32,
        begin: u32,
        report: Report,
    },
    /// The optimizer trace, if there is one.
    Trace {
        document: Option<Text>,
    },
    /// A SET took effect.
    Set,
    /// A KILL was sent.
    KillSent,
    /// A WAIT saw so many steps.
    Waited {
        steps: u64,
    },
    /// The statement's text was refused.
    Refused(Refusal),
    /// The session that was named isn't there, or is done.
    NoSuchThread,
    /// The session that was named runs no statement with a plan.
    NotExplainable,
    /// A SHOW asked for so many turns, and no answer came.
    TimedOut {
        turns: u64,
    },
    /// A WAIT looked for so many turns, and saw only so many steps.
    WaitSpent {
        steps: u64,
        turns: u64,
    },
    /// The statement made as many row steps as it may.
    RowLimit,
    /// The statement would have kept more rows than it may.
    TooManyRows,
    /// The statement was killed.
    Interrupted,
    /// Memory ran out.
    OutOfMemory,
}

/// What a statement's end is given. A statement with a plan brings its run.
#[derive(Debug, Drop)]
pub enum Finish<R> {
    /// A statement without a run ends so.
    Plain(Outcome),
    /// A SELECT ran to its end.
    Rows { names: Texts, run: R },
    /// An ANALYZE ran to its end.
    Analyzed { plan: SharedPlan, run: R },
    /// The run stopped before its end.
    Broken { fault: StepStop, run: R },
}

/// Why a run stopped before its end.
#[derive(Clone, Copy, Debug, PartialEq, Eq)]
pub enum StepStop {
    RowLimit,
    TooManyRows,
    OutOfMemory,
    Killed,
}
