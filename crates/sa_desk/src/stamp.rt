/// Who makes a call, and in which of its turns.
#[derive(Clone, Copy, Debug, PartialEq, Eq)]
pub struct Caller {
    /// The number of the session, from 1 on.
    pub actor: u32,
    /// The number of the session's turn, from 1 on.
    pub turn: u64,
}

/// What the entries of a call bear: who made it, the number of its first entry, and the turn.
#[derive(Clone, Copy, Debug, PartialEq, Eq)]
pub struct Stamp {
    pub actor: u32,
    /// The number that the actor's next entry has. An actor counts its entries over all desks.
    pub seq: u32,
    pub turn: u64,
}
