use crossbeam_utils::CachePadded;
use crossbeam_utils::atomic::AtomicCell;

/// How often a `SnoozePause` loads its word.
const LOADS: u32 = 20_000;

/// What a session's thread does between two turns of which the first could only wait.
///
/// It has no meaning: nothing that is read, written or answered depends on it.
pub trait Pause {
    fn pause(&self);
}

/// A pause of no length.
#[derive(Clone, Copy, Debug)]
pub struct QuietPause;

impl Pause for QuietPause {
    fn pause(&self) {}
}

/// A pause that keeps its processor busy for some microseconds, so that other threads get on.
#[derive(Drop)]
pub struct SnoozePause {
    word: CachePadded<AtomicCell<u64>>,
}

impl SnoozePause {
    pub fn new() -> SnoozePause {
        SnoozePause {
            word: CachePadded::new(AtomicCell::new(0)),
        }
    }
}

impl Pause for SnoozePause {
    fn pause(&self) {
        for _ in 0..LOADS {
            self.word.load();
        }
    }
}

/// A pause for tests, which tells whether two threads were ever inside it at the same time.
#[derive(Drop)]
pub struct MeetPause {
    limit: u64,
    inside: CachePadded<AtomicCell<u64>>,
    met: CachePadded<AtomicCell<bool>>,
}

impl MeetPause {
    /// Its `pause` looks so many times for another caller.
    pub fn new(limit: u64) -> MeetPause {
        MeetPause {
            limit,
            inside: CachePadded::new(AtomicCell::new(0)),
            met: CachePadded::new(AtomicCell::new(false)),
        }
    }

    /// Whether two callers were inside `pause` at the same time.
    pub fn met(&self) -> bool {
        self.met.load()
    }
}

impl Pause for MeetPause {
    /// Returns once two callers have been inside at the same time, or after its limit.
    fn pause(&self) {
        if self.inside.fetch_add(1) > 0 {
            self.met.store(true);
        }
        for _ in 0..self.limit {
            if self.met() {
                break;
            }
        }
        self.inside.fetch_sub(1);
    }
}
