/// What a desk's own session is doing.
#[derive(Clone, Copy, Debug, PartialEq, Eq)]
pub enum Phase {
    /// It is between two statements.
    Idle,
    /// It runs a statement without a plan.
    Unplanned(On),
    /// It runs a statement with a plan, which other sessions may look into.
    Planned(On),
    /// It is done.
    Closed,
}

/// The statement that a session runs.
#[derive(Clone, Copy, Debug, PartialEq, Eq)]
pub struct On {
    pub statement: u32,
    /// The number of its Begin entry.
    pub begin: u32,
    /// Whether a kill stands for it.
    pub killed: bool,
}
