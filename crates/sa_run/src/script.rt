ghost use Rattle.std.specs.Prelude.{◌≡◌, ◌-◌, ◌≤◌, [], length, slice_index_or, IfOk};
ghost use Rattle.std.specs.Arc.{arc_value};
ghost use Rattle.sa_desk.specs.Legal.{given_of};
ghost use Rattle.sa_worker.specs.View.{first_view};

use sa_table::Tables;
use sa_value::{OutOfMemory, Texts};
use sa_worker::Worker;
use std::alloc::Global;
use std::marker::Model;
use std::snapshot::Snapshot;
use std::sync::Arc;

/// What all sessions of a script share. Contracts see the script.
#[derive(Drop)]
pub(crate) struct Script {
    alloc: Global,
    tables: Arc<Tables>,
    /// The texts of each session's statements, for contracts alone.
    texts: Snapshot<Vec<Texts>>,
    sessions: u32,
    quantum: u32,
    turns: u64,
    ghost counted: { sessions ≡ length texts.value.items },
}

impl Model for Script {
    ghost use Rattle.std.specs.Arc.{arc_value};
    ghost use Rattle.std.specs.Coded.{codes};
    ghost use Rattle.sa_desk.specs.Legal.{Sessions};

    ghost Value = { Sessions };

    ghost coded = { Prim.hlevel codes };

    ghost view = { λ script. record {
      tables = arc_value script.tables;
      texts = script.texts.value.items;
      quantum = script.quantum;
      turns = script.turns;
    } };
}

impl Script {
    /// The script with these statements.
    pub(crate) fn new(
        alloc: Global,
        tables: Arc<Tables>,
        statements: &Vec<Texts>,
        quantum: u32,
        turns: u64,
    ) -> Script
        requires { length statements.now.items ≤ 16 }
        ensures { result ≡ record {
          tables = arc_value tables;
          texts = statements.now.items;
          quantum = quantum;
          turns = turns;
        } }
    {
        Script {
            alloc,
            tables,
            texts: Snapshot::of(statements),
            sessions: statements.len() as u32,
            quantum,
            turns,
        }
    }

    /// The worker of the session of this number, with its statements, before its first turn.
    pub(crate) fn worker(&self, session: u32, statements: Texts) -> Result<Worker, OutOfMemory>
        requires { statements ≡ slice_index_or self.now.texts (session - 1) [] }
        ensures { IfOk result (λ worker. worker ≡ first_view (given_of self.now session)) }
    {
        let tables = Arc::try_clone(&self.tables)?;
        Worker::new(
            self.alloc,
            session,
            statements,
            self.sessions,
            self.quantum,
            self.turns,
            tables,
        )
    }
}
