use sa_desk::{Desk, Entry};
use std::collections::LinkedList;

/// What a seat of a board's table knows of one session. No value of it is made.
pub struct Known {
    /// The session's number.
    pub session: u32,
    /// What each desk held when the session last had it.
    pub met: LinkedList<Desk>,
    /// The entries that the session has made, on any desk, in their order.
    pub mine: LinkedList<Entry>,
}

/// What a seat of a board's table knows. No value of it is made.
pub struct View {
    /// The sessions that it stands for: one, or those that ended in it.
    pub known: LinkedList<Known>,
    /// How many numbers were given to sessions, at the seat that gives them, and 0 at any other.
    pub made: u32,
    /// The number of the desk that it holds, or 0.
    pub out: u32,
}
