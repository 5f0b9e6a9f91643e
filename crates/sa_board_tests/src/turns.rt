ghost use Rattle.std.specs.Prelude.{◌≡◌, ◌≢◌};
ghost use Rattle.sa_worker.specs.View.{done};
ghost use Rattle.sa_board_tests.specs.Members.{IsMember};

use sa_board::{Board, Pass};
use sa_plan::Preparer;
use sa_worker::{Turned, Worker};
use std::sync::Wait;

/// A session takes a turn: its private work, and one call of a desk, which it takes out and brings
/// home.
pub fn take_turn<P: Preparer, R: Wait>(
    rt: &R,
    prepare: &P,
    board: &Board,
    worker: &mut Worker,
    pass: &mut Pass,
) -> Turned
    requires member { IsMember (P.answers prepare.now) board.now pass.old worker.old }
    requires undone { worker.old.stage ≢ done }
    ensures session { pass.new.session ≡ pass.old.session }
    ensures member { IsMember (P.answers prepare.now) board.now pass.new worker.new }
{
    let desk = worker.work(prepare);
    let mut held = board.hold(rt, pass, desk);
    let turned = worker.turn(&mut held);
    held.home();
    turned
}
