ghost use Rattle.std.specs.Prelude.{◌≡◌, length, IfOk, OnOk};
ghost use Rattle.sa_desk.specs.Contents.{IsSound};
ghost use Rattle.sa_desk.specs.New.{MayMake, new_desk};

mod asker;
mod finishing;
mod owner;
mod parts;
mod seats;
mod serving;
mod waits;

use crate::entry::Entry;
use crate::journal::Entries;
use crate::phase::Phase;
use crate::request::{OpenWait, Reply, Request};
use arrayvec::ArrayVec;
use sa_value::OutOfMemory;
use std::alloc::Global;
use std::marker::Model;

/// The part of a session that all sessions reach: its journal, the requests that wait to be served,
/// and how many steps it has published of the statement that it runs.
///
/// A desk is plain values, so that a lock can hold it. Only `new` takes memory: it reserves the
/// journal for the sum of the sessions' shares.
#[derive(Debug, Drop)]
pub struct Desk {
    number: u32,
    quantum: u32,
    turns: u64,
    shares: ArrayVec<u32, 16>,
    journal: Vec<Entry>,
    phase: Phase,
    doomed: bool,
    published: u64,
    queue: ArrayVec<Request, 16>,
    replies: ArrayVec<Reply, 16>,
    polls: ArrayVec<u64, 16>,
    waits: ArrayVec<Option<OpenWait>, 16>,
}

impl Model for Desk {
    ghost use Rattle.sa_desk.specs.Contents.{Contents};

    ghost Value = { Contents };

    ghost use Rattle.std.specs.Coded.{codes};
    ghost use Rattle.sa_cond.specs.contracts.cond.Cond as cond;
    ghost use Rattle.sa_cond.specs.contracts.expr.Expr as expr;

    ghost coded = { Prim.hlevel (codes, cond.the_row.coded, expr.the_row.coded) };

    ghost use Rattle.sa_desk.specs.inner.Desk.{contents_of, IsReady};

    ghost view = { contents_of };

    ghost invariant = { IsReady };
}

impl Desk {
    /// The desk with this number, which is that of its session. A turn makes `quantum` steps at most,
    /// a request or a wait lasts `turns` turns, and each session has its share of the journal.
    pub fn new(
        alloc: Global,
        number: u32,
        quantum: u32,
        turns: u64,
        shares: &[u32],
    ) -> Result<Desk, OutOfMemory>
        requires { MayMake quantum turns shares.now }
        ensures desk { IfOk result (λ desk. desk ≡ new_desk number quantum turns shares.now) }
        ensures sound { IfOk result IsSound }
    {
        Ok(Desk {
            number,
            quantum,
            turns,
            shares: parts::shares_of(shares),
            journal: Vec::with_capacity(alloc, parts::room_for(shares))?,
            phase: Phase::Idle,
            doomed: false,
            published: 0,
            queue: ArrayVec::new(),
            replies: ArrayVec::new(),
            polls: parts::no_polls(shares.len()),
            waits: parts::no_waits(shares.len()),
        })
    }

    /// The number of entries in its journal.
    pub fn len(&self) -> u32
        ensures count { result ≡ length self.now.journal }
        ensures sound { IsSound self.now }
    {
        self.journal.len() as u32
    }

    /// Its number, which is that of its session.
    pub fn number(&self) -> u32
        ensures { result ≡ self.now.terms.desk }
    {
        self.number
    }

    /// How many steps a turn makes at most.
    pub fn quantum(&self) -> u32
        ensures { result ≡ self.now.terms.quantum }
    {
        self.quantum
    }

    /// How many turns a request or a wait lasts.
    pub fn turns(&self) -> u64
        ensures { result ≡ self.now.terms.turns }
    {
        self.turns
    }

    /// Each session's share of the journal.
    pub fn shares(&self) -> &[u32]
        ensures { result.now ≡ self.now.shares }
    {
        self.shares.as_slice()
    }

    /// Its journal. It takes no memory.
    pub fn finish(self) -> Entries
        ensures journal { result ≡ self.journal }
        ensures sound { IsSound self }
    {
        let Desk { journal, .. } = self;
        Entries::from_vec(journal)
    }
}
