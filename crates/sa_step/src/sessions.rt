ghost use Rattle.std.specs.Prelude.{◌≡◌, ◌≢◌, ℕ, ◌+◌, ◌≤◌, ◌↔◌, [], length, map, All, IsTrue, IfOk};
ghost use Rattle.std.specs.Arc.{arc_value};
ghost use Rattle.sa_desk.specs.Plain.{IsPlain};
ghost use Rattle.sa_worker.specs.View.{done};
ghost use Rattle.sa_worker.specs.Answered.{answer_at};
ghost use Rattle.sa_step.specs.Sessions.{AreRunning, AreSound, MayStart, first_views, view_in};
ghost use Rattle.sa_step.specs.Turns.{TakesTurn};

use crate::starts::{new_desks, new_workers};
use sa_desk::{Journals, PlainDesks};
use sa_plan::Preparer;
use sa_table::{SharedTables, Tables};
use sa_value::{OutOfMemory, Texts};
use sa_worker::{Turned, Worker};
use std::alloc::Global;
use std::marker::Model;
use std::snapshot::Snapshot;
use std::sync::Arc;

/// The sessions of a script on one thread: their workers, and the desks that they call. Contracts see the
/// script, the desks, and what each worker holds.
#[derive(Drop)]
pub struct Sessions {
    /// The script, for contracts alone.
    texts: Snapshot<Vec<Texts>>,
    tables: SharedTables,
    quantum: u32,
    turns: u64,
    desks: PlainDesks,
    workers: Vec<Worker>,
}

impl Model for Sessions {
    ghost use Rattle.std.specs.Coded.{codes};
    ghost use Rattle.sa_cond.specs.contracts.cond.Cond as cond;
    ghost use Rattle.sa_cond.specs.contracts.expr.Expr as expr;
    ghost use Rattle.sa_step.specs.Sessions.{AllSessions};

    ghost Value = { AllSessions };

    ghost coded = { Prim.hlevel (codes, cond.the_row.coded, expr.the_row.coded) };

    ghost view = { λ sessions. record {
      script = record {
        tables = sessions.tables;
        texts = sessions.texts.value.items;
        quantum = sessions.quantum;
        turns = sessions.turns;
      };
      plain = sessions.desks;
      views = sessions.workers.items;
    } };
}

impl Sessions {
    /// The sessions with these statements, before the first turn, with new desks. A turn makes at most
    /// `quantum` row steps, and a request or a wait lasts `turns` polls or looks.
    pub fn new<P: Preparer>(
        alloc: Global,
        prepare: &P,
        tables: Arc<Tables>,
        statements: Vec<Texts>,
        quantum: u32,
        turns: u64,
    ) -> Result<Sessions, OutOfMemory>
        requires start { MayStart (record {
          tables = arc_value tables;
          texts = statements.items;
          quantum = quantum;
          turns = turns;
        }) }
        requires sound { AreSound (P.answers prepare.now) (record {
          tables = arc_value tables;
          texts = statements.items;
          quantum = quantum;
          turns = turns;
        }) }
        ensures script { IfOk result (λ sessions. sessions.script ≡ record {
          tables = arc_value tables;
          texts = statements.items;
          quantum = quantum;
          turns = turns;
        }) }
        ensures first { IfOk result (λ sessions. sessions.views ≡ first_views sessions.script) }
        ensures empty { IfOk result (λ sessions. All (λ desk. desk.journal ≡ []) sessions.plain.desks) }
        ensures running { IfOk result (AreRunning (P.answers prepare.now)) }
    {
        // what they are asked is for contracts alone
        let _ = prepare;
        let texts = Snapshot::of(&statements);
        let desks = PlainDesks::new(alloc, new_desks(alloc, &statements, quantum, turns)?)?;
        let workers = new_workers(alloc, statements, quantum, turns, &tables)?;
        Ok(Sessions {
            texts,
            tables: SharedTables::new(tables),
            quantum,
            turns,
            desks,
            workers,
        })
    }

    /// How many sessions there are.
    pub fn len(&self) -> usize
        ensures { result ≡ length self.now.views }
    {
        self.workers.len()
    }

    /// Whether there is no session.
    pub fn is_empty(&self) -> bool
        ensures { IsTrue result ↔ (self.now.views ≡ []) }
    {
        self.workers.is_empty()
    }

    /// Whether the session of this number, from 1 on, has closed.
    pub fn is_done(&self, session: u32) -> bool
        requires least { 1 ≤ session }
        requires most { session ≤ length self.now.views }
        ensures { IsTrue result ↔ ((view_in self.now.views session).stage ≡ done) }
    {
        self.workers[(session - 1) as usize].is_done()
    }

    /// The session of this number, from 1 on, makes a turn: its private work, and one call of a desk.
    pub fn turn<P: Preparer>(&mut self, prepare: &P, session: u32) -> Turned
        requires least { 1 ≤ session }
        requires most { session ≤ length self.old.views }
        requires undone { (view_in self.old.views session).stage ≢ done }
        requires running { AreRunning (P.answers prepare.now) self.old }
        ensures running { AreRunning (P.answers prepare.now) self.new }
        ensures script { self.new.script ≡ self.old.script }
        ensures turned { result ≡ answer_at (view_in self.new.views session).stage }
        ensures turns { (view_in self.new.views session).turn
            ≡ (view_in self.old.views session).turn + 1 }
        ensures others { (other : ℕ) → 1 ≤ other → other ≢ session →
            view_in self.new.views other ≡ view_in self.old.views other }
        ensures taken { TakesTurn (P.answers prepare.now) self.old session self.new }
    {
        // what their number is told with: that each session meets each desk
        let _desks = self.desks.len();
        let worker = &mut self.workers[(session - 1) as usize];
        let _desk = worker.work(prepare);
        worker.turn(&mut self.desks)
    }

    /// The journals of the desks, in order. They are legal once all sessions are done.
    pub fn finish(self) -> Journals
        ensures journals { result ≡ map (λ desk. desk.journal) self.plain.desks }
        ensures plain { IsPlain self.plain }
    {
        let Sessions { desks, .. } = self;
        desks.finish()
    }
}
