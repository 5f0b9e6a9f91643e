use crate::outcome::Outcome;
use sa_ast::{AskKind, KillKind};
use sa_count::Report;
use sa_plan::SharedPlan;
use sa_table::SharedTables;
use sa_value::Text;

/// A line of a desk's journal.
#[derive(Debug, Drop)]
pub struct Entry {
    /// The number of the desk, which is that of its own session.
    pub desk: u32,
    /// The number of the session that made the entry.
    pub actor: u32,
    /// The actor's own number of the entry, over all desks: 1, 2, and so on.
    pub seq: u32,
    /// The actor's turn in which it made the entry.
    pub turn: u64,
    pub event: Event,
}

/// What happened. A `statement` is the number of the actor's own statement, from 1 on.
///
/// The events follow SHOW EXPLAIN, SHOW ANALYZE and KILL of MariaDB's Knowledge Base; their names and
/// fields are this project's own.
#[derive(Debug, Drop)]
pub enum Event {
    /// The desk's own session begins a statement. A SELECT has its plan, and the tables that it reads.
    Begin {
        statement: u32,
        /// The statement's text.
        text: Text,
        /// The version of the tables that it reads.
        version: u64,
        plan: Option<SharedPlan>,
        tables: Option<SharedTables>,
    },
    /// A request was put into the desk's queue.
    Queued {
        statement: u32,
        kind: AskKind,
        /// The number of steps that the desk had published.
        at: u64,
        /// How many polls the request lasts.
        budget: u64,
    },
    /// A request or a kill can't be taken.
    Refused {
        statement: u32,
        why: RefusedWhy,
    },
    /// The desk's own session answered a request.
    Served {
        /// The session that asked.
        asker: u32,
        /// The number of that session's statement.
        request: u32,
        report: Report,
    },
    /// The asker took the answer.
    Taken {
        statement: u32,
    },
    /// The request was polled as often as it lasts, and was taken out unanswered.
    Spent {
        statement: u32,
        turns: u64,
    },
    /// The asker took its request back.
    Withdrawn {
        statement: u32,
    },
    /// A kill reached the desk.
    KillSent {
        statement: u32,
        kind: KillKind,
    },
    /// A wait saw that so many steps were published.
    Waited {
        statement: u32,
        steps: u64,
    },
    /// A wait looked as often as it lasts, and saw only so many steps.
    WaitSpent {
        statement: u32,
        steps: u64,
        turns: u64,
    },
    /// The desk's own session ends its statement, of which so many row steps were made.
    End {
        statement: u32,
        outcome: Outcome,
        steps: u64,
    },
    /// The desk's own session was killed before it could begin this statement.
    Gone {
        statement: u32,
    },
    /// The desk's own session is done.
    Close,
}

/// Why a request or a kill can't be taken.
#[derive(Clone, Copy, Debug, PartialEq, Eq)]
pub enum RefusedWhy {
    /// No statement with a plan is running there.
    NotExplainable,
    /// The session there is done.
    NoSuchThread,
}
