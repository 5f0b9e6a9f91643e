//! What a session does before a turn's call, and the call.

ghost use Rattle.std.specs.Prelude.{◌≡◌, drop};
ghost use Rattle.sa_worker.specs.View.{desk_at};
ghost use Rattle.sa_worker.specs.Works.{Works};
ghost use Rattle.sa_worker.specs.Holds.{Holds};
ghost use Rattle.sa_worker.specs.Sound.{GivesSound};
ghost use Rattle.sa_worker.specs.inner.Fields.{view_of};
ghost use Rattle.sa_worker.specs.inner.Ties.{IsTied, first_left};
ghost use Rattle.sa_worker.specs.inner.Called.{HasCalled, MayCall};

use crate::asking::{ask, look_asking, poll, withdraw};
use crate::begins::prepare_next;
use crate::ending::{begin, close, end, end_run};
use crate::running::{advance, point};
use crate::session::Session;
use crate::stage::Stage;
use crate::waiting::{kill, look, look_waiting};
use sa_desk::Desks;
use sa_plan::Preparer;
use std::mem::replace;

/// Prepares a statement, makes steps of a run, or does nothing.
pub(crate) fn work_on<P: Preparer>(session: &mut Session, prepare: &P)
    requires tied { IsTied session.old }
    requires holds { Holds (view_of session.old) }
    requires sound { GivesSound (P.answers prepare.now) (view_of session.old).given }
    ensures tied { IsTied session.new }
    ensures works { Works (P.answers prepare.now) (view_of session.old) (view_of session.new) }
{
    match replace(&mut session.stage, Stage::Done) {
        Stage::Prepares => prepare_next(session, prepare),
        Stage::Steps { run, goal, made } => advance(session, run, goal, made),
        stage => session.stage = stage,
    }
}

/// Makes the call of this stage. The session's own stage is what it leaves.
pub(crate) fn call<D: Desks>(session: &mut Session, desks: &mut D, stage: Stage)
    requires texts { session.old.statements.items
        ≡ drop (first_left session.old.number stage) session.old.texts.value }
    requires may { MayCall (D.world desks.old) session.old stage }
    ensures tied { IsTied session.new }
    ensures called { HasCalled (D.world desks.old) (D.world desks.new) session.old session.new stage }
    ensures same { D.keeps desks.old desks.new }
{
    match stage {
        Stage::Opens(opening) => begin(session, desks, opening),
        Stage::Closes => close(session, desks),
        Stage::Ends(outcome) => end(session, desks, outcome),
        Stage::Asks { kind, desk } => ask(session, desks, kind, desk),
        Stage::Polls { kind, desk, polled } => poll(session, desks, kind, desk, polled),
        Stage::LooksAsking { kind, desk, polled } => {
            look_asking(session, desks, kind, desk, polled);
        }
        Stage::Withdraws { desk, .. } => withdraw(session, desks, desk),
        Stage::Kills { kind, desk } => kill(session, desks, kind, desk),
        Stage::Waits { desk, at, looked } => look(session, desks, desk, at, looked),
        Stage::LooksWaiting { desk, at, looked } => {
            look_waiting(session, desks, desk, at, looked);
        }
        Stage::Points { run, goal, made } => point(session, desks, run, goal, made),
        Stage::EndsRun { run, end, .. } => end_run(session, desks, run, end),
        // no call comes next there
        Stage::Prepares | Stage::Steps { .. } | Stage::Done => unreachable!(),
    }
}

/// The desk of the next call.
pub(crate) fn desk_of(session: &Session) -> u32
    ensures { let view = view_of session.now in result ≡ desk_at view view.stage }
{
    match &session.stage {
        Stage::Asks { desk, .. }
        | Stage::Polls { desk, .. }
        | Stage::Withdraws { desk, .. }
        | Stage::Kills { desk, .. }
        | Stage::Waits { desk, .. } => *desk,
        _ => session.given.session,
    }
}
