ghost use Rattle.std.specs.Prelude.{◌≡◌, ◌≤◌, true, length};
ghost use Rattle.sa_desk.specs.World.{Meets};
ghost use Rattle.sa_board.specs.Pass.{IsOut, HasTaken, KnowsStill, at_home, world_of};

mod calls;

use crate::board::Board;
use crate::pass::Pass;
use std::sync::Wait;

/// A desk that a session has out, for one call. No other session has it meanwhile, so it must be
/// brought home.
pub struct Held<'a, 'p> {
    pass: &'p mut Pass,
    board: &'a Board,
    ghost of_board: { pass.now.table ≡ board.now.table },
    ghost there: { pass.now.out ≤ length board.now.founded },
}

impl Board {
    /// Takes a desk out for the session of a pass, and waits for as long as another session has it.
    pub fn hold<'b, 'p, R: Wait>(&'b self, rt: &R, pass: &'p mut Pass, desk: u32) -> Held<'b, 'p>
        requires board { pass.old.table ≡ self.now.table }
        requires idle { pass.old.out ≡ 0 }
        requires least { 1 ≤ desk }
        requires most { desk ≤ length self.now.founded }
        ensures same { result.pass.ghost_name ≡ pass.entry.ghost_name }
        ensures board { result.board.now ≡ self.now }
        ensures taken { HasTaken pass.old result.pass.now desk }
        ensures out { IsOut result.pass.now }
        ensures still { KnowsStill (world_of pass.old) (world_of result.pass.now) }
        ensures allowed { (world_of result.pass.now).may_call desk pass.old.session ≡ true }
        ensures meets { Meets (world_of result.pass.now) desk pass.old.session }
    {
        pass.take_out(rt, self, desk);
        Held { pass, board: self }
    }
}

impl<'a, 'p> Held<'a, 'p> {
    /// Brings the desk home, with what the call has left of it.
    pub fn home(self)
        requires { 1 ≤ self.pass.now.out }
        ensures home { self.exit.0.now ≡ at_home self.entry.pass.now }
        ensures still { KnowsStill (world_of self.entry.pass.now) (world_of self.exit.0.now) }
    {
        let Held { pass, board } = self;
        pass.bring_back(board);
    }
}
