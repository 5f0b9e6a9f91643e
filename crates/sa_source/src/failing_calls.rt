ghost use Rattle.std.specs.Prelude.{◌≡◌, ◌≤◌, ◌↔◌, IsTrue, if◌then◌else◌};
ghost use Rattle.sa_source.specs.Calls.{no_calls, FailsNext, after_call, after_fault};

use std::marker::Model;

/// Counts calls and their faults, and knows by their numbers which calls fail.
#[derive(Drop)]
pub(crate) struct FailingCalls {
    failing: Vec<u64>,
    made: u64,
    faults: u64,
}

impl Model for FailingCalls {
    ghost use Rattle.sa_source.specs.Calls.{Calls};

    ghost Value = { Calls };

    ghost view = { λ calls.
        record { failing = calls.failing.items; made = calls.made; faults = calls.faults } };
}

impl FailingCalls {
    /// No call so far. The first call has the number 1.
    pub(crate) fn new(failing: Vec<u64>) -> FailingCalls
        ensures { result ≡ no_calls failing.items }
    {
        FailingCalls {
            failing,
            made: 0,
            faults: 0,
        }
    }

    /// Counts one more call, and answers whether it fails.
    ///
    /// The count of calls stops at the last value of 64 bits. No number of 64 bits names a call after
    /// that one, so none of them fails.
    pub(crate) fn next_fails(&mut self) -> bool
        ensures failing { IsTrue result ↔ FailsNext self.old }
        ensures counts { self.old.faults ≤ self.new.faults }
        ensures counted { self.new ≡ (if result then after_fault self.old else after_call self.old) }
    {
        let failing = self.failing.as_slice();
        let Some(number) = self.made.checked_add(1) else {
            return false;
        };
        let fails = failing.contains(&number);
        self.made = number;
        if fails {
            self.faults = self.faults.saturating_add(1);
        }
        fails
    }
}
