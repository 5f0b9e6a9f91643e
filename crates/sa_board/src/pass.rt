ghost use Rattle.std.specs.Prelude.{◌≡◌, ◌+◌, ◌≤◌, [], ◌∷◌, None, false, length};
ghost use Rattle.sa_board.specs.View.{newcomer};
ghost use Rattle.sa_board.specs.inner.Pass.{one_of};
ghost use Rattle.sa_board.specs.Pass.{IsOut, HasTaken, KnowsStill, at_home, known_of, world_of};

mod calls;

use crate::board::{Board, Place, acquire, bring_home, bring_out, raise, release};
use sa_desk::{Caller, Desk, Stamp};
use std::marker::Model;
use std::sync::Wait;

/// A session's right to the desks of its board. Contracts see what the session has met at each desk
/// and which entries it has made.
#[derive(Drop)]
pub struct Pass {
    session: u32,
    /// The number of its next entry.
    next: u32,
    seat: Place,
    /// The number of the desk that it has out, or 0.
    out: u32,
    /// The desk that it has out.
    desk: Option<Desk>,
    /// How many entries that desk had when it was taken.
    found: u32,
    /// Whether that desk was called.
    called: bool,
}

impl Model for Pass {
    ghost use Rattle.sa_board.specs.Pass.{PassState};

    ghost Value = { PassState };

    ghost use Rattle.std.specs.Coded.{codes};
    ghost use Rattle.sa_cond.specs.contracts.cond.Cond as cond;
    ghost use Rattle.sa_cond.specs.contracts.expr.Expr as expr;

    ghost coded = { Prim.hlevel (codes, cond.the_row.coded, expr.the_row.coded) };

    ghost use Rattle.sa_board.specs.inner.Pass.{state_of, IsPass};

    ghost view = { state_of };

    ghost invariant = { IsPass };
}

impl Pass {
    /// The pass of a session that has made nothing yet.
    pub(crate) fn of(session: u32, seat: Place) -> Pass
        requires away { seat.me.1 ≡ [] }
        requires out { seat.me.0.out ≡ 0 }
        requires alone { seat.me.0.known ≡ newcomer session (one_of seat.me.0).met ∷ [] }
        ensures { result ≡ record {
          table = seat.table_id;
          session = session;
          met = (one_of seat.me.0).met;
          mine = [];
          out = 0;
          desk = None;
          called = false;
        } }
    {
        Pass {
            session,
            next: 1,
            seat,
            out: 0,
            desk: None,
            found: 0,
            called: false,
        }
    }

    /// The stamp of the session's next entry.
    fn stamp(&self, me: Caller) -> Stamp
        ensures { result ≡ record { actor = me.actor; seq = length self.now.mine + 1; turn = me.turn } }
    {
        Stamp {
            actor: me.actor,
            seq: self.next,
            turn: me.turn,
        }
    }

    /// The seat, of which the session's end is made.
    pub(crate) fn into_seat(self) -> Place
        requires { self.out ≡ 0 }
        ensures table { result.table_id ≡ self.table }
        ensures away { result.me.1 ≡ [] }
        ensures out { result.me.0.out ≡ 0 }
        ensures known { result.me.0.known ≡ known_of self ∷ [] }
    {
        let Pass { seat, .. } = self;
        seat
    }

    /// Takes a desk out, and waits for as long as another session has it out.
    pub(crate) fn take_out<R: Wait>(&mut self, rt: &R, board: &Board, desk: u32)
        requires board { self.old.table ≡ board.now.table }
        requires idle { self.old.out ≡ 0 }
        requires least { 1 ≤ desk }
        requires most { desk ≤ length board.now.founded }
        ensures taken { HasTaken self.old self.new desk }
        ensures out { IsOut self.new }
        ensures still { KnowsStill (world_of self.old) (world_of self.new) }
    {
        let index = (desk - 1) as usize;
        acquire(rt, board, &mut self.seat, index);
        let taken = bring_out(board, &mut self.seat, index);
        self.found = taken.len();
        self.desk = Some(taken);
        self.out = desk;
        self.called = false;
    }

    /// Brings the desk home that is out.
    pub(crate) fn bring_back(&mut self, board: &Board)
        requires board { self.old.table ≡ board.now.table }
        requires out { 1 ≤ self.old.out }
        requires most { self.old.out ≤ length board.now.founded }
        ensures home { self.new ≡ at_home self.old }
        ensures still { KnowsStill (world_of self.old) (world_of self.new) }
    {
        let index = (self.out - 1) as usize;
        let Some(desk) = self.desk.take() else {
            unreachable!()
        };
        let entries = desk.len() - self.found;
        raise(board, &mut self.seat, index, &desk, entries as u64);
        bring_home(board, &mut self.seat, index, desk);
        release(board, &mut self.seat, index);
        self.next += entries;
        self.out = 0;
        self.called = false;
    }
}
