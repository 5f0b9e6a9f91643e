ghost use Rattle.std.specs.Prelude.{◌≡◌, ℕ, true, ◌+◌, ◌-◌, ◌<◌, ◌≤◌, ◌^◌, length, replicate, map, slice_index, slice_set, IfOk};
ghost use Rattle.arrayvec.specs.ArrayVec.{array_vec_len};
ghost use Rattle.sa_desk.specs.New.{AreNew};
ghost use Rattle.sa_desk.specs.Plain.{IsPlain, are_there, world_of};
ghost use Rattle.sa_desk.specs.World.{Meets, IsFirst};

use crate::answer::{Asked, Begun, Ended, Killed, Looked, Polled, Seen, Withdrawn};
use crate::desk::Desk;
use crate::desks::Desks;
use crate::journal::{Entries, Journals};
use crate::outcome::Finish;
use crate::stamp::{Caller, Stamp};
use arrayvec::ArrayVec;
use sa_ast::{AskKind, KillKind};
use sa_meaning::Running;
use sa_plan::SharedPlan;
use sa_table::SharedTables;
use sa_value::{OutOfMemory, Text};
use std::alloc::Global;
use std::marker::Model;

/// The desks of all sessions, called on one thread. It counts each session's entries.
#[derive(Debug, Drop)]
pub struct PlainDesks {
    desks: Vec<Desk>,
    /// How many entries each session has made.
    made: ArrayVec<u32, 16>,
    /// Room for the journals.
    journals: Vec<Entries>,
}

impl Model for PlainDesks {
    ghost use Rattle.sa_desk.specs.Plain.{Plain};

    ghost Value = { Plain };

    ghost use Rattle.std.specs.Coded.{codes};
    ghost use Rattle.sa_cond.specs.contracts.cond.Cond as cond;
    ghost use Rattle.sa_cond.specs.contracts.expr.Expr as expr;

    ghost coded = { Prim.hlevel (codes, cond.the_row.coded, expr.the_row.coded) };

    ghost use Rattle.sa_desk.specs.inner.PlainDesks.{plain_of, AreReady};

    ghost view = { plain_of };

    ghost invariant = { AreReady };
}

impl PlainDesks {
    /// New desks, numbered 1, 2 and so on, each with as many shares as there are desks. It reserves the
    /// list of journals that `finish` gives.
    pub fn new(alloc: Global, desks: Vec<Desk>) -> Result<PlainDesks, OutOfMemory>
        requires { AreNew desks.items }
        ensures desks { let made = replicate (length desks.items) 0 in
            IfOk result (λ all. all ≡ record { desks = desks.items; made = made }) }
        ensures plain { IfOk result IsPlain }
        ensures first { IfOk result (λ all. IsFirst (world_of all)) }
    {
        let made = nothing_made(desks.len());
        let journals = Vec::with_capacity(alloc, desks.len())?;
        Ok(PlainDesks {
            desks,
            made,
            journals,
        })
    }

    /// How many desks there are.
    pub fn len(&self) -> u32
        ensures count { result ≡ length self.now.desks }
        ensures plain { IsPlain self.now }
        ensures met { (desk session : ℕ) → are_there self.now desk session ≡ true →
            Meets (world_of self.now) desk session }
    {
        self.desks.len() as u32
    }

    /// The journals, in the order of the desks. It takes no memory.
    pub fn finish(self) -> Journals
        ensures journals { result ≡ map (λ desk. desk.journal) self.desks }
        ensures plain { IsPlain self }
    {
        let PlainDesks {
            desks,
            mut journals,
            ..
        } = self;
        for desk in desks {
            journals.push_reserved(desk.finish());
        }
        Journals::from_vec(journals)
    }
}

impl Desks for PlainDesks {
    ghost use Rattle.sa_desk.specs.Plain.{SameDesks, world_of};

    ghost world = { world_of };

    ghost keeps = { SameDesks };

    fn begin(
        &mut self,
        desk: u32,
        me: Caller,
        statement: u32,
        text: Text,
        version: u64,
        plan: Option<SharedPlan>,
        tables: Option<SharedTables>,
    ) -> Begun {
        let stamp = next_stamp(&self.made, me);
        let at = &mut self.desks[index_of(desk)];
        let before = at.len();
        let answer = at.begin(stamp, statement, text, version, plan, tables);
        let entries = at.len() - before;
        count(&mut self.made, me.actor, entries);
        answer
    }

    fn point<R: Running>(&mut self, desk: u32, me: Caller, run: &mut R) -> Seen {
        let stamp = next_stamp(&self.made, me);
        let at = &mut self.desks[index_of(desk)];
        let before = at.len();
        let answer = at.point(stamp, run);
        let entries = at.len() - before;
        count(&mut self.made, me.actor, entries);
        answer
    }

    fn look_own(&mut self, desk: u32, me: Caller) -> Seen {
        let stamp = next_stamp(&self.made, me);
        let at = &mut self.desks[index_of(desk)];
        let before = at.len();
        let answer = at.look_own(stamp);
        let entries = at.len() - before;
        count(&mut self.made, me.actor, entries);
        answer
    }

    fn end<R: Running>(
        &mut self,
        desk: u32,
        me: Caller,
        statement: u32,
        finish: Finish<R>,
    ) -> Ended {
        let stamp = next_stamp(&self.made, me);
        let at = &mut self.desks[index_of(desk)];
        let before = at.len();
        let answer = at.end(stamp, statement, finish);
        let entries = at.len() - before;
        count(&mut self.made, me.actor, entries);
        answer
    }

    fn ask(&mut self, desk: u32, me: Caller, statement: u32, kind: AskKind, budget: u64) -> Asked {
        let stamp = next_stamp(&self.made, me);
        let at = &mut self.desks[index_of(desk)];
        let before = at.len();
        let answer = at.ask(stamp, statement, kind, budget);
        let entries = at.len() - before;
        count(&mut self.made, me.actor, entries);
        answer
    }

    fn poll(&mut self, desk: u32, me: Caller, statement: u32) -> Polled {
        let stamp = next_stamp(&self.made, me);
        let at = &mut self.desks[index_of(desk)];
        let before = at.len();
        let answer = at.poll(stamp, statement);
        let entries = at.len() - before;
        count(&mut self.made, me.actor, entries);
        answer
    }

    fn withdraw(&mut self, desk: u32, me: Caller, statement: u32) -> Withdrawn {
        let stamp = next_stamp(&self.made, me);
        let at = &mut self.desks[index_of(desk)];
        let before = at.len();
        let answer = at.withdraw(stamp, statement);
        let entries = at.len() - before;
        count(&mut self.made, me.actor, entries);
        answer
    }

    fn kill(&mut self, desk: u32, me: Caller, statement: u32, kind: KillKind) -> Killed {
        let stamp = next_stamp(&self.made, me);
        let at = &mut self.desks[index_of(desk)];
        let before = at.len();
        let answer = at.kill(stamp, statement, kind);
        let entries = at.len() - before;
        count(&mut self.made, me.actor, entries);
        answer
    }

    fn look(&mut self, desk: u32, me: Caller, statement: u32, at: u64, budget: u64) -> Looked {
        let stamp = next_stamp(&self.made, me);
        let found = &mut self.desks[index_of(desk)];
        let before = found.len();
        let answer = found.look(stamp, statement, at, budget);
        let entries = found.len() - before;
        count(&mut self.made, me.actor, entries);
        answer
    }

    fn close(&mut self, desk: u32, me: Caller) {
        let stamp = next_stamp(&self.made, me);
        let at = &mut self.desks[index_of(desk)];
        let before = at.len();
        at.close(stamp);
        let entries = at.len() - before;
        count(&mut self.made, me.actor, entries);
    }
}

/// The stamp of the caller's next entry.
fn next_stamp(made: &ArrayVec<u32, 16>, me: Caller) -> Stamp
    requires least { 1 ≤ me.actor }
    requires most { me.actor ≤ array_vec_len made.now }
    requires numbers { slice_index made.now.items (me.actor - 1) + 1 < 2 ^ 32 }
    ensures { let seq = slice_index made.now.items (me.actor - 1) + 1 in
        result ≡ record { actor = me.actor; seq = seq; turn = me.turn } }
{
    Stamp {
        actor: me.actor,
        seq: made[index_of(me.actor)] + 1,
        turn: me.turn,
    }
}

/// Counts the entries that the session has made.
fn count(made: &mut ArrayVec<u32, 16>, session: u32, entries: u32)
    requires least { 1 ≤ session }
    requires most { session ≤ array_vec_len made.old }
    requires numbers { slice_index made.old.items (session - 1) + entries < 2 ^ 32 }
    ensures { made.new.items ≡ slice_set made.old.items (session - 1)
        (slice_index made.old.items (session - 1) + entries) }
{
    made[index_of(session)] += entries;
}

/// Where the desk, or the session, with this number stands in a list of all.
fn index_of(number: u32) -> usize
    requires { 1 ≤ number }
    ensures { result ≡ number - 1 }
{
    (number - 1) as usize
}

/// No entries for each of so many sessions.
fn nothing_made(sessions: usize) -> ArrayVec<u32, 16>
    requires { sessions ≤ 16 }
    ensures { result.items ≡ replicate sessions 0 }
{
    let mut made = ArrayVec::new();
    for _ in 0..sessions {
        made.push(0);
    }
    made
}
