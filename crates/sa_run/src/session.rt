ghost use Rattle.std.specs.Prelude.{◌≡◌};
ghost use Rattle.sa_worker.specs.View.{done};
ghost use Rattle.sa_run.specs.inner.Along.{IsAlong};

use crate::script::Script;
use crate::turn::take_turn;
use sa_board::{Board, Pass};
use sa_plan::Preparer;
use sa_source::Pause;
use sa_worker::{Turned, Worker};
use std::sync::Wait;

/// A session takes its turns until it has closed.
pub(crate) fn run_session<R: Wait, P: Preparer, Q: Pause>(
    rt: &R,
    prepare: &P,
    pause: &Q,
    script: &Script,
    board: &Board,
    worker: &mut Worker,
    pass: &mut Pass,
)
    requires along { IsAlong (P.answers prepare.now) script.now board.now pass.old worker.old }
    ensures along { IsAlong (P.answers prepare.now) script.now board.now pass.new worker.new }
    ensures session { pass.new.session ≡ pass.old.session }
    ensures done { worker.new.stage ≡ done }
{
    'running: for _ in rt.forever() {
        if worker.is_done() {
            return;
        }
        let turned = take_turn(rt, prepare, script, board, worker, pass);
        rest(pause, turned);
    }
    unreachable!()
}

/// Pauses where a call had to wait.
fn rest<Q: Pause>(pause: &Q, turned: Turned) {
    if matches!(turned, Turned::Waiting) {
        pause.pause();
    }
}
