use crate::create::CreateTree;
use crate::insert::InsertTree;
use crate::kind::{AskKind, KillKind};
use crate::select::SelectTree;

/// A statement of a session, or one that sets tables up.
#[derive(Debug, Drop)]
pub enum Statement {
    Select(SelectTree),
    /// `EXPLAIN SELECT ..`: the plan alone.
    Explain(SelectTree),
    /// `ANALYZE SELECT ..`: the plan and its counters, after a run.
    Analyze(SelectTree),
    /// `SHOW EXPLAIN FOR id` or `SHOW ANALYZE FOR id`: what another session runs.
    Show { kind: AskKind, id: u128 },
    Kill { kind: KillKind, id: u128 },
    /// Whether plans are traced from now on.
    SetTrace(bool),
    /// How many row steps a statement may make.
    SetLimit(u64),
    /// The last trace of the session.
    TraceRows,
    /// Until a statement of session `id` has made `at` row steps.
    Wait { id: u128, at: u64 },
    Create(CreateTree),
    Insert(InsertTree),
}
