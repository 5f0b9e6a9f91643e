ghost use Rattle.std.specs.Prelude.{◌≡◌, ◌+◌, ◌<◌, ◌^◌, ◌↔◌, IsTrue, if◌then◌else◌};
ghost use Rattle.sa_exec.specs.inner.Place.{place_after_read};

use sa_count::Counters;

/// What a run does next at a level of its plan.
#[derive(Clone, Copy, Debug, PartialEq, Eq)]
pub(crate) enum Place {
    /// It opens the table.
    Open,
    /// It reads this row. Where the table has no such row, the level is done.
    Read { row: u32 },
    /// It emits this row, which was read and passed.
    Emit { row: u32 },
}

/// Where a run is at a level of its plan, and what it has counted there.
#[derive(Clone, Copy, Debug)]
pub(crate) struct LevelState {
    /// How many rows the access gives.
    pub(crate) count: u32,
    pub(crate) place: Place,
    pub(crate) counters: Counters,
}

impl LevelState {
    /// A level that is still to be opened.
    pub(crate) fn new(count: u32) -> LevelState
        ensures { result ≡ record {
          count = count;
          place = Place.Open;
          counters = record { loops = 0; rows = 0; passed = 0 };
        } }
    {
        LevelState {
            count,
            place: Place::Open,
            counters: Counters {
                loops: 0,
                rows: 0,
                passed: 0,
            },
        }
    }

    /// Whether the last row is done.
    #[inline(always)]
    pub(crate) fn is_done(&self) -> bool
        ensures { IsTrue result ↔ (self.now.place ≡ Place.Read self.now.count) }
    {
        self.place == Place::Read { row: self.count }
    }

    /// The table was opened.
    #[inline(always)]
    pub(crate) fn open(&mut self)
        requires { self.old.counters.loops < 2 ^ 63 }
        ensures { self.new ≡ record self.old {
          place = Place.Read 0;
          counters = record self.old.counters { loops = self.old.counters.loops + 1 };
        } }
    {
        self.counters.loops += 1;
        self.place = Place::Read { row: 0 };
    }

    /// This row was read.
    #[inline(always)]
    pub(crate) fn read(&mut self, row: u32, passed: bool)
        requires row { row + 1 < 2 ^ 32 }
        requires rows { self.old.counters.rows < 2 ^ 63 }
        requires passed { self.old.counters.passed < 2 ^ 63 }
        ensures { self.new ≡ record self.old {
          place = place_after_read row passed;
          counters = record self.old.counters {
            rows = self.old.counters.rows + 1;
            passed = self.old.counters.passed + (if passed then 1 else 0);
          };
        } }
    {
        self.counters.rows += 1;
        if passed {
            self.counters.passed += 1;
            self.place = Place::Emit { row };
        } else {
            self.place = Place::Read { row: row + 1 };
        }
    }

    /// This row was emitted.
    #[inline(always)]
    pub(crate) fn emitted(&mut self, row: u32)
        requires { row + 1 < 2 ^ 32 }
        ensures { self.new ≡ record self.old { place = Place.Read (row + 1) } }
    {
        self.place = Place::Read { row: row + 1 };
    }
}
