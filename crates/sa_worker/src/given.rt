ghost use Rattle.std.specs.Prelude.{◌≡◌, ◌+◌, ◌&&◌, nat_lt, if◌then◌else◌};

use sa_table::SharedTables;
use std::alloc::Global;

/// What is fixed for a session.
#[derive(Debug, Drop)]
pub(crate) struct Given {
    pub(crate) alloc: Global,
    /// Its number, and how many sessions the script has.
    pub(crate) session: u32,
    pub(crate) sessions: u32,
    /// How many row steps a turn makes at most.
    pub(crate) quantum: u32,
    /// How many polls a request lasts, and how many looks a wait.
    pub(crate) turns: u64,
    pub(crate) tables: SharedTables,
}

/// The session with this number, where the script has it.
pub(crate) fn session_of(given: &Given, id: u128) -> Option<u32>
    ensures { let is_there = nat_lt 0 id && nat_lt id (given.now.sessions + 1) in
        result ≡ (if is_there then Some id else None) }
{
    if 1 <= id && id <= u128::from(given.sessions) {
        Some(id as u32)
    } else {
        None
    }
}
