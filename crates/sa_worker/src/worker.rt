ghost use Rattle.std.specs.Prelude.{◌≡◌, ◌↔◌, ℕ, List, true, IsTrue, IfOk};
ghost use Rattle.std.specs.Arc.{arc_value};
ghost use Rattle.sa_desk.specs.declared.entry.Entry.{Entry};
ghost use Rattle.sa_desk.specs.World.{World, next_stamp, IsCall, Meets};
ghost use Rattle.sa_desk.specs.program.Course.{Answer};
ghost use Rattle.sa_desk.specs.program.Turn.{made, left};
ghost use Rattle.sa_worker.specs.View.{IsActive, call_at, desk_at, done, me_of, first_view};
ghost use Rattle.sa_worker.specs.Next.{next_view};
ghost use Rattle.sa_worker.specs.Works.{Works};
ghost use Rattle.sa_worker.specs.Holds.{Holds};
ghost use Rattle.sa_worker.specs.Keeps.{Keeps};
ghost use Rattle.sa_worker.specs.Follows.{Follows, ended_with};
ghost use Rattle.sa_worker.specs.Sound.{GivesSound};
ghost use Rattle.sa_worker.specs.Answered.{answer_at};

use crate::given::Given;
use crate::moves::{call, desk_of, work_on};
use crate::session::{About, Session};
use crate::settings::{Change, Settings};
use crate::stage::Stage;
use crate::turned::{Turned, answer_of};
use sa_desk::Desks;
use sa_plan::Preparer;
use sa_table::{SharedTables, Tables};
use sa_value::{OutOfMemory, Text, Texts};
use std::alloc::Global;
use std::collections::VecDeque;
use std::marker::Model;
use std::mem::replace;
use std::snapshot::Snapshot;
use std::sync::Arc;

/// One session's program, as far as it has come. Contracts see what comes next, and what the session
/// holds for it.
#[derive(Drop)]
pub struct Worker {
    session: Session,
}

impl Model for Worker {
    ghost use Rattle.std.specs.Coded.{codes};
    ghost use Rattle.sa_cond.specs.contracts.cond.Cond as cond;
    ghost use Rattle.sa_cond.specs.contracts.expr.Expr as expr;
    ghost use Rattle.sa_worker.specs.View.{View};
    ghost use Rattle.sa_worker.specs.inner.Fields.{view_of};
    ghost use Rattle.sa_worker.specs.inner.Ties.{IsTied};

    ghost Value = { View };

    ghost coded = { Prim.hlevel (codes, cond.the_row.coded, expr.the_row.coded) };

    ghost view = { λ worker. view_of worker.session };

    ghost invariant = { λ worker. IsTied worker.session };
}

impl Worker {
    /// The session of this number, of so many, before its first turn. A turn makes at most `quantum` row
    /// steps, and a request or a wait lasts `turns` polls or looks.
    ///
    /// It takes memory from `alloc` as its statements need it.
    pub fn new(
        alloc: Global,
        session: u32,
        statements: Texts,
        sessions: u32,
        quantum: u32,
        turns: u64,
        tables: Arc<Tables>,
    ) -> Result<Worker, OutOfMemory>
        ensures { IfOk result (λ worker. worker ≡ first_view (record {
          session = session;
          sessions = sessions;
          quantum = quantum;
          turns = turns;
          tables = arc_value tables;
          texts = statements;
        })) }
    {
        let texts = Snapshot::of(&statements);
        let nothing = Text::from_string(String::new(alloc));
        Ok(Worker {
            session: Session {
                given: Given {
                    alloc,
                    session,
                    sessions,
                    quantum,
                    turns,
                    tables: SharedTables::new(tables),
                },
                statements: VecDeque::from_vec(statements.into_vec()),
                texts,
                number: 1,
                turn: 0,
                began: 0,
                settings: Settings::new(),
                change: Change::Nothing,
                about: About::Starved(Snapshot::of(&nothing)),
                stage: Stage::Prepares,
            },
        })
    }

    /// Whether the session has closed.
    pub fn is_done(&self) -> bool
        ensures { IsTrue result ↔ (self.now.stage ≡ done) }
    {
        matches!(&self.session.stage, Stage::Done)
    }

    /// Does the private work of the next turn: it prepares a statement, or makes the steps of a run. It
    /// answers the desk of the turn's call.
    pub fn work<P: Preparer>(&mut self, prepare: &P) -> u32
        requires holds { Holds self.old }
        requires sound { GivesSound (P.answers prepare.now) self.old.given }
        ensures works { Works (P.answers prepare.now) self.old self.new }
        ensures keeps { (world : World) → Keeps world self.old → Keeps world self.new }
        ensures follows { (journals : ℕ → List Entry) (answers : List Answer) (mine : List Entry) →
            Follows self.old journals answers mine → Follows self.new journals answers mine }
        ensures desk { result ≡ desk_at self.new self.new.stage }
    {
        work_on(&mut self.session, prepare);
        desk_of(&self.session)
    }

    /// Makes the call of the turn. `Waiting` where the call had to wait, and `Done` where it was the
    /// session's last.
    pub fn turn<D: Desks>(&mut self, desks: &mut D) -> Turned
        requires active { IsActive self.old.stage }
        requires allowed { let own = self.old.given.session in
            (D.world desks.old).may_call (desk_at self.old self.old.stage) own ≡ true }
        requires keeps { Keeps (D.world desks.old) self.old }
        requires met { let own = self.old.given.session in
            Meets (D.world desks.old) (desk_at self.old self.old.stage) own }
        ensures next { let old = D.world desks.old in
            let at = old.contents (desk_at self.old self.old.stage) in
            self.new ≡ next_view self.old at (next_stamp old (me_of self.old)) }
        ensures keeps { Keeps (D.world desks.new) self.new }
        ensures follows { let old = D.world desks.old in
            let new = D.world desks.new in
            let own = self.old.given.session in
            (answers : List Answer) → Follows self.old (old.seen own) answers (old.mine own) →
            Follows self.new (new.seen own) (ended_with self.old self.old.stage answers) (new.mine own) }
        ensures turned { result ≡ answer_at self.new.stage }
        ensures same { D.keeps desks.old desks.new }
        ensures call { let old = D.world desks.old in
            let desk = desk_at self.old self.old.stage in
            let stamp = next_stamp old (me_of self.old) in
            let call = call_at self.old self.old.stage in
            let number = self.old.number in
            IsCall old (D.world desks.new) desk self.old.given.session
            (made (old.contents desk) stamp number call)
            (left (old.contents desk) stamp number call) }
    {
        let stage = replace(&mut self.session.stage, Stage::Done);
        call(&mut self.session, desks, stage);
        answer_of(&self.session.stage)
    }
}
