//! The turns of a WAIT and of a KILL.

ghost use Rattle.std.specs.Prelude.{◌≡◌, ◌+◌, ◌<◌, ◌^◌, true, []};
ghost use Rattle.sa_desk.specs.Contents.{phase};
ghost use Rattle.sa_desk.specs.Serving.{is_killed};
ghost use Rattle.sa_desk.specs.World.{next_stamp, IsCall};
ghost use Rattle.sa_desk.specs.call.Kill.{MayKill, kill_answer, kill_entries};
ghost use Rattle.sa_desk.specs.call.Kill as kill_call;
ghost use Rattle.sa_desk.specs.call.Look.{MayLook, looked, look_entries};
ghost use Rattle.sa_desk.specs.call.Look as look_call;
ghost use Rattle.sa_desk.specs.call.LookOwn.{MayLookOwn};
ghost use Rattle.sa_desk.specs.call.Point.{point_answer};
ghost use Rattle.sa_worker.specs.View.{me_of};
ghost use Rattle.sa_worker.specs.Next.{after_kill, after_look, after_look_waiting};
ghost use Rattle.sa_worker.specs.inner.Fields.{view_of};
ghost use Rattle.sa_worker.specs.inner.Ties.{IsOn, IsTied};

use crate::session::Session;
use crate::stage::Stage;
use sa_ast::KillKind;
use sa_desk::{Desks, Killed, Looked, Outcome, Seen};

/// Kills what a desk runs.
pub(crate) fn kill<D: Desks>(session: &mut Session, desks: &mut D, kind: KillKind, desk: u32)
    requires allowed { (D.world desks.old).may_call desk session.old.given.session ≡ true }
    requires kill { let old = D.world desks.old in
        let stamp = next_stamp old (me_of (view_of session.old)) in
        MayKill (old.contents desk) stamp session.old.number kind }
    requires turn { session.old.turn + 1 < 2 ^ 64 }
    requires on { IsOn session.old }
    ensures tied { IsTied session.new }
    ensures next { let at = (D.world desks.old).contents desk in
        view_of session.new ≡ after_kill (view_of session.old) (kill_answer (phase at)) }
    ensures same { D.keeps desks.old desks.new }
    ensures call { let old = D.world desks.old in
        let at = old.contents desk in
        let stamp = next_stamp old (me_of (view_of session.old)) in
        let number = session.old.number in
        IsCall old (D.world desks.new) desk session.old.given.session
        (kill_entries at stamp number kind) (kill_call.after_kill at stamp number kind) }
{
    match desks.kill(desk, session.me(), session.number, kind) {
        Killed::Ok => session.go(Stage::Ends(Outcome::KillSent)),
        Killed::NoSuchThread => session.go(Stage::Ends(Outcome::NoSuchThread)),
    }
}

/// Looks at a desk once more, after so many looks.
pub(crate) fn look<D: Desks>(session: &mut Session, desks: &mut D, desk: u32, at: u64, count: u64)
    requires allowed { (D.world desks.old).may_call desk session.old.given.session ≡ true }
    requires look { let old = D.world desks.old in
        let stamp = next_stamp old (me_of (view_of session.old)) in
        MayLook (old.contents desk) stamp session.old.number at session.old.given.turns }
    requires turn { session.old.turn + 1 < 2 ^ 64 }
    requires count { count + 1 < 2 ^ 64 }
    requires on { IsOn session.old }
    ensures tied { IsTied session.new }
    ensures next { let old = D.world desks.old in
        let stamp = next_stamp old (me_of (view_of session.old)) in
        let answer = looked (old.contents desk) stamp session.old.number at in
        view_of session.new ≡ after_look (view_of session.old) desk at count answer }
    ensures same { D.keeps desks.old desks.new }
    ensures call { let old = D.world desks.old in
        let found = old.contents desk in
        let stamp = next_stamp old (me_of (view_of session.old)) in
        let number = session.old.number in
        IsCall old (D.world desks.new) desk session.old.given.session
        (look_entries found stamp number at) (look_call.after_look found stamp number at) }
{
    let turns = session.given.turns;
    match desks.look(desk, session.me(), session.number, at, turns) {
        Looked::NoSuchThread => session.go(Stage::Ends(Outcome::NoSuchThread)),
        Looked::Reached { steps } => session.go(Stage::Ends(Outcome::Waited { steps })),
        Looked::Spent { steps, turns } => {
            session.go(Stage::Ends(Outcome::WaitSpent { steps, turns }));
        }
        Looked::NotYet => session.go(Stage::LooksWaiting {
            desk,
            at,
            looked: count + 1,
        }),
    }
}

/// Looks for a kill between two looks.
pub(crate) fn look_waiting<D: Desks>(
    session: &mut Session,
    desks: &mut D,
    desk: u32,
    at: u64,
    count: u64,
)
    requires allowed { let own = session.old.given.session in
        (D.world desks.old).may_call own own ≡ true }
    requires look_own { let old = D.world desks.old in
        let stamp = next_stamp old (me_of (view_of session.old)) in
        MayLookOwn (old.contents session.old.given.session) stamp }
    requires turn { session.old.turn + 1 < 2 ^ 64 }
    requires on { IsOn session.old }
    ensures tied { IsTied session.new }
    ensures next { let found = (D.world desks.old).contents session.old.given.session in
        let answer = point_answer (is_killed (phase found)) in
        view_of session.new ≡ after_look_waiting (view_of session.old) desk at count answer }
    ensures same { D.keeps desks.old desks.new }
    ensures call { let old = D.world desks.old in
        let own = session.old.given.session in
        IsCall old (D.world desks.new) own own [] (old.contents own) }
{
    match desks.look_own(session.given.session, session.me()) {
        Seen::Go => session.go(Stage::Waits {
            desk,
            at,
            looked: count,
        }),
        Seen::Kill => session.go(Stage::Ends(Outcome::Interrupted)),
    }
}
