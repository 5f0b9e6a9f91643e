//! The turns of a SHOW.

ghost use Rattle.std.specs.Prelude.{◌≡◌, ◌+◌, ◌<◌, ◌^◌, true, []};
ghost use Rattle.sa_desk.specs.Contents.{phase};
ghost use Rattle.sa_desk.specs.Serving.{is_killed};
ghost use Rattle.sa_desk.specs.World.{next_stamp, IsCall};
ghost use Rattle.sa_desk.specs.call.Ask.{MayAsk, ask_answer, ask_entries};
ghost use Rattle.sa_desk.specs.call.Ask as ask_call;
ghost use Rattle.sa_desk.specs.call.LookOwn.{MayLookOwn};
ghost use Rattle.sa_desk.specs.call.Point.{point_answer};
ghost use Rattle.sa_desk.specs.call.Poll.{MayPoll, polled, poll_entries};
ghost use Rattle.sa_desk.specs.call.Poll as poll_call;
ghost use Rattle.sa_desk.specs.call.Withdraw.{MayWithdraw, withdrawn, withdraw_entries};
ghost use Rattle.sa_desk.specs.call.Withdraw as withdraw_call;
ghost use Rattle.sa_worker.specs.View.{me_of};
ghost use Rattle.sa_worker.specs.Next.{after_ask, after_poll, after_look_asking, after_withdraw};
ghost use Rattle.sa_worker.specs.inner.Fields.{view_of};
ghost use Rattle.sa_worker.specs.inner.Ties.{IsOn, IsTied};

use crate::session::Session;
use crate::stage::Stage;
use sa_ast::AskKind;
use sa_desk::{Asked, Desks, Outcome, Polled, Seen};

/// Asks a desk.
pub(crate) fn ask<D: Desks>(session: &mut Session, desks: &mut D, kind: AskKind, desk: u32)
    requires allowed { (D.world desks.old).may_call desk session.old.given.session ≡ true }
    requires ask { let old = D.world desks.old in
        let stamp = next_stamp old (me_of (view_of session.old)) in
        MayAsk (old.contents desk) stamp session.old.number kind session.old.given.turns }
    requires turn { session.old.turn + 1 < 2 ^ 64 }
    requires on { IsOn session.old }
    ensures tied { IsTied session.new }
    ensures next { let at = (D.world desks.old).contents desk in
        view_of session.new ≡ after_ask (view_of session.old) kind desk (ask_answer (phase at)) }
    ensures same { D.keeps desks.old desks.new }
    ensures call { let old = D.world desks.old in
        let at = old.contents desk in
        let stamp = next_stamp old (me_of (view_of session.old)) in
        let number = session.old.number in
        let turns = session.old.given.turns in
        IsCall old (D.world desks.new) desk session.old.given.session
        (ask_entries at stamp number kind turns) (ask_call.after_ask at stamp number kind turns) }
{
    let turns = session.given.turns;
    match desks.ask(desk, session.me(), session.number, kind, turns) {
        Asked::Queued => session.go(Stage::Polls {
            kind,
            desk,
            polled: 0,
        }),
        Asked::NotExplainable => session.go(Stage::Ends(Outcome::NotExplainable)),
        Asked::NoSuchThread => session.go(Stage::Ends(Outcome::NoSuchThread)),
    }
}

/// Polls once more, after so many polls.
pub(crate) fn poll<D: Desks>(
    session: &mut Session,
    desks: &mut D,
    kind: AskKind,
    desk: u32,
    count: u64,
)
    requires allowed { (D.world desks.old).may_call desk session.old.given.session ≡ true }
    requires poll { let old = D.world desks.old in
        let stamp = next_stamp old (me_of (view_of session.old)) in
        MayPoll (old.contents desk) stamp session.old.number }
    requires turn { session.old.turn + 1 < 2 ^ 64 }
    requires count { count + 1 < 2 ^ 64 }
    requires on { IsOn session.old }
    ensures tied { IsTied session.new }
    ensures next { let old = D.world desks.old in
        let stamp = next_stamp old (me_of (view_of session.old)) in
        let answer = polled (old.contents desk) stamp session.old.number in
        view_of session.new ≡ after_poll (view_of session.old) kind desk count answer }
    ensures same { D.keeps desks.old desks.new }
    ensures call { let old = D.world desks.old in
        let at = old.contents desk in
        let stamp = next_stamp old (me_of (view_of session.old)) in
        let number = session.old.number in
        IsCall old (D.world desks.new) desk session.old.given.session
        (poll_entries at stamp number) (poll_call.after_poll at stamp number) }
{
    match desks.poll(desk, session.me(), session.number) {
        Polled::Taken { report, begin } => session.go(Stage::Ends(Outcome::Shown {
            kind,
            desk,
            begin,
            report,
        })),
        Polled::Spent { turns } => session.go(Stage::Ends(Outcome::TimedOut { turns })),
        Polled::NotYet => session.go(Stage::LooksAsking {
            kind,
            desk,
            polled: count + 1,
        }),
    }
}

/// Looks for a kill between two polls.
pub(crate) fn look_asking<D: Desks>(
    session: &mut Session,
    desks: &mut D,
    kind: AskKind,
    desk: u32,
    count: u64,
)
    requires allowed { let own = session.old.given.session in
        (D.world desks.old).may_call own own ≡ true }
    requires look_own { let old = D.world desks.old in
        let stamp = next_stamp old (me_of (view_of session.old)) in
        MayLookOwn (old.contents session.old.given.session) stamp }
    requires turn { session.old.turn + 1 < 2 ^ 64 }
    requires on { IsOn session.old }
    ensures tied { IsTied session.new }
    ensures next { let at = (D.world desks.old).contents session.old.given.session in
        let answer = point_answer (is_killed (phase at)) in
        view_of session.new ≡ after_look_asking (view_of session.old) kind desk count answer }
    ensures same { D.keeps desks.old desks.new }
    ensures call { let old = D.world desks.old in
        let own = session.old.given.session in
        IsCall old (D.world desks.new) own own [] (old.contents own) }
{
    match desks.look_own(session.given.session, session.me()) {
        Seen::Go => session.go(Stage::Polls {
            kind,
            desk,
            polled: count,
        }),
        Seen::Kill => session.go(Stage::Withdraws {
            kind,
            desk,
            polled: count,
        }),
    }
}

/// Takes the request of a killed statement back. An answer that is there isn't shown.
pub(crate) fn withdraw<D: Desks>(session: &mut Session, desks: &mut D, desk: u32)
    requires allowed { (D.world desks.old).may_call desk session.old.given.session ≡ true }
    requires withdraw { let old = D.world desks.old in
        let stamp = next_stamp old (me_of (view_of session.old)) in
        MayWithdraw (old.contents desk) stamp session.old.number }
    requires turn { session.old.turn + 1 < 2 ^ 64 }
    requires on { IsOn session.old }
    ensures tied { IsTied session.new }
    ensures next { let old = D.world desks.old in
        let stamp = next_stamp old (me_of (view_of session.old)) in
        let answer = withdrawn (old.contents desk) stamp session.old.number in
        view_of session.new ≡ after_withdraw (view_of session.old) answer }
    ensures same { D.keeps desks.old desks.new }
    ensures call { let old = D.world desks.old in
        let at = old.contents desk in
        let stamp = next_stamp old (me_of (view_of session.old)) in
        let number = session.old.number in
        IsCall old (D.world desks.new) desk session.old.given.session
        (withdraw_entries at stamp number) (withdraw_call.after_withdraw at stamp number) }
{
    let _ = desks.withdraw(desk, session.me(), session.number);
    session.go(Stage::Ends(Outcome::Interrupted));
}
