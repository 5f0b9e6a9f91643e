ghost use Rattle.std.specs.Prelude.{◌≡◌, ◌≢◌};
ghost use Rattle.sa_worker.specs.View.{done};
ghost use Rattle.sa_worker.specs.Answered.{answer_at};
ghost use Rattle.sa_run.specs.inner.Along.{IsAlong};

use crate::script::Script;
use sa_board::{Board, Pass};
use sa_plan::Preparer;
use sa_worker::{Turned, Worker};
use std::sync::Wait;

/// A session takes a turn: its private work, and one call of a desk, which it takes out and brings
/// home.
pub(crate) fn take_turn<R: Wait, P: Preparer>(
    rt: &R,
    prepare: &P,
    script: &Script,
    board: &Board,
    worker: &mut Worker,
    pass: &mut Pass,
) -> Turned
    requires along { IsAlong (P.answers prepare.now) script.now board.now pass.old worker.old }
    requires undone { worker.old.stage ≢ done }
    ensures along { IsAlong (P.answers prepare.now) script.now board.now pass.new worker.new }
    ensures session { pass.new.session ≡ pass.old.session }
    ensures turned { result ≡ answer_at worker.new.stage }
{
    // what its sessions are asked is for contracts alone
    let _ = script;
    let desk = worker.work(prepare);
    let mut held = board.hold(rt, pass, desk);
    let turned = worker.turn(&mut held);
    held.home();
    turned
}
