use sa_table::Tables;
use sa_value::{Sequence, Text};

/// What a script says.
#[derive(Debug, Drop)]
pub struct Script {
    pub tables: Tables,
    /// The sessions, numbered from 1 on.
    pub sessions: SessionScripts,
    /// How many row steps a turn makes at most: 1 to 64.
    pub quantum: u32,
    /// How many turns a request or a wait lasts: 1 to 1,000,000,000.
    pub turns: u64,
    /// Which sessions take the first turns.
    pub schedule: Schedule,
}

/// The source texts of one session's statements, which are read when they are run.
pub type SessionScript = Sequence<Text>;

/// The sessions of a script.
pub type SessionScripts = Sequence<SessionScript>;

/// The numbers of the sessions that take the first turns, one after another.
pub type Schedule = Sequence<u32>;
