use sa_count::Report;

/// What `begin` answers.
#[derive(Clone, Copy, Debug, PartialEq, Eq)]
pub enum Begun {
    /// The statement is on the desk.
    Ok,
    /// A KILL CONNECTION stands: the session is over.
    Gone,
}

/// What `point` answers.
#[derive(Clone, Copy, Debug, PartialEq, Eq)]
pub enum Seen {
    /// Nothing stops the statement.
    Go,
    /// A kill stands since the statement began.
    Kill,
}

/// What `end` answers.
#[derive(Clone, Copy, Debug, PartialEq, Eq)]
pub enum Ended {
    /// The statement ended as it was given.
    Kept,
    /// The statement was killed, and its outcome was dropped.
    Interrupted,
}

/// What `ask` answers.
#[derive(Clone, Copy, Debug, PartialEq, Eq)]
pub enum Asked {
    /// The request waits in the queue.
    Queued,
    /// No statement with a plan is on the desk.
    NotExplainable,
    /// The desk is closed.
    NoSuchThread,
}

/// What `poll` answers.
#[derive(Debug, Drop)]
pub enum Polled {
    /// The request was served. `begin` is the number of the Begin entry under which it was.
    Taken { report: Report, begin: u32 },
    /// The request was polled so many times, and was taken out.
    Spent { turns: u64 },
    /// The request still waits.
    NotYet,
}

/// What `withdraw` answers.
#[derive(Clone, Copy, Debug, PartialEq, Eq)]
pub enum Withdrawn {
    /// The request had been served, and its answer was taken.
    Taken,
    /// The request was taken out of the queue.
    Removed,
}

/// What `kill` answers.
#[derive(Clone, Copy, Debug, PartialEq, Eq)]
pub enum Killed {
    /// The kill stands.
    Ok,
    /// The desk is closed.
    NoSuchThread,
}

/// What `look` answers.
#[derive(Clone, Copy, Debug, PartialEq, Eq)]
pub enum Looked {
    /// The desk is closed.
    NoSuchThread,
    /// So many steps are published, which are enough.
    Reached { steps: u64 },
    /// So few steps are published, and that was the last look of so many.
    Spent { steps: u64, turns: u64 },
    /// The wait goes on.
    NotYet,
}
