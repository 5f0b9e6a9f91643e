/// What a session asks of a statement that another one runs.
///
/// Source: MariaDB Knowledge Base, "SHOW EXPLAIN" and "SHOW ANALYZE".
#[derive(Clone, Copy, Debug, PartialEq, Eq)]
pub enum AskKind {
    /// The plan alone.
    Explain,
    /// The plan, and the counters so far.
    Analyze,
}

/// What a session ends.
///
/// Source: MariaDB Knowledge Base, "KILL [CONNECTION | QUERY]".
#[derive(Clone, Copy, Debug, PartialEq, Eq)]
pub enum KillKind {
    /// The statement, and not the session that runs it.
    Query,
    /// The session, and with it its statement.
    Connection,
}
