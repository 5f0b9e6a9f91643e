use crate::plan::Planned;
use sa_ast::{AskKind, KillKind};
use sa_value::Text;

/// A statement that is ready to run.
#[derive(Debug, Drop)]
pub struct Prepared {
    /// The statement's canonical text.
    pub text: Text,
    pub work: Work,
}

/// What a statement does. The number of a session or of a step limit is as the statement gives it.
#[derive(Debug, Drop)]
pub enum Work {
    Select(Planned),
    Explain(Planned),
    Analyze(Planned),
    /// SHOW EXPLAIN or SHOW ANALYZE for the statement of this session.
    Show { kind: AskKind, id: u128 },
    /// KILL of this session, or of its statement.
    Kill { kind: KillKind, id: u128 },
    /// SET optimizer_trace, to on or off.
    SetTrace(bool),
    /// SET max_row_steps, to this many.
    SetLimit(u64),
    /// The SELECT that reads the optimizer trace.
    TraceRows,
    /// WAIT until the statement of this session has made so many steps.
    Wait { id: u128, at: u64 },
}
