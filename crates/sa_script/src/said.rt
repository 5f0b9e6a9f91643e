ghost use Rattle.std.specs.Prelude.{◌≡◌};
ghost use Rattle.sa_script.specs.Said as spec;
ghost use Rattle.sa_script.specs.Script as script;

use crate::script::{Schedule, Script, SessionScripts};
use sa_table::Tables;
use std::alloc::Global;

/// A script sets tables up, then it has sessions with their statements, then perhaps a SCHEDULE.
#[derive(Clone, Copy, Debug, PartialEq, Eq)]
pub(crate) enum Stage {
    SetUp,
    InSession,
    Scheduled,
}

/// What the pieces of a script have said so far.
#[derive(Debug, Drop)]
pub(crate) struct Said {
    pub(crate) stage: Stage,
    pub(crate) tables: Tables,
    pub(crate) quantum: u32,
    pub(crate) turns: u64,
    pub(crate) sessions: SessionScripts,
    pub(crate) schedule: Schedule,
}

impl Said {
    /// Nothing yet. It takes memory from `alloc` as it grows.
    pub(crate) fn new(alloc: Global) -> Said
        ensures { result ≡ spec.nothing_said }
    {
        Said {
            stage: Stage::SetUp,
            tables: Tables::new(alloc),
            quantum: 64,
            turns: 1_000_000,
            sessions: SessionScripts::new(alloc),
            schedule: Schedule::new(alloc),
        }
    }

    /// The script that was said.
    pub(crate) fn into_script(self) -> Script
        ensures { result ≡ script.script_said self }
    {
        let Said {
            tables,
            sessions,
            quantum,
            turns,
            schedule,
            ..
        } = self;
        Script {
            tables,
            sessions,
            quantum,
            turns,
            schedule,
        }
    }
}
