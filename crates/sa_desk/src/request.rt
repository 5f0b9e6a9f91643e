use sa_count::Report;

/// A request that waits in a desk's queue.
#[derive(Clone, Copy, Debug, Default, PartialEq, Eq)]
pub struct Request {
    /// The session that asks.
    pub asker: u32,
    /// The number of its statement.
    pub request: u32,
    /// How many steps the desk had published when it was queued.
    pub at: u64,
}

/// The answer to a request, which its asker hasn't taken yet.
#[derive(Debug, Default, Drop)]
pub struct Reply {
    pub asker: u32,
    pub request: u32,
    pub report: Report,
    /// The number of the Begin entry under which the request was served.
    pub begin: u32,
}

/// A wait that is open: a session looks until so many steps are published.
#[derive(Clone, Copy, Debug, PartialEq, Eq)]
pub struct OpenWait {
    /// The number of the session's statement.
    pub statement: u32,
    /// How many steps it waits for.
    pub at: u64,
    /// How often it has looked.
    pub looks: u64,
}
