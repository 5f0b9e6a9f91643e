//! The turns that begin and end a statement, and the last one.

ghost use Rattle.std.specs.Prelude.{◌≡◌, ◌+◌, ◌<◌, ◌^◌, true, drop};
ghost use Rattle.sa_desk.specs.declared.entry.Event.TheVariants.{Begin};
ghost use Rattle.sa_desk.specs.Contents.{phase, state};
ghost use Rattle.sa_desk.specs.Serving.{is_killed};
ghost use Rattle.sa_desk.specs.World.{next_stamp, IsCall};
ghost use Rattle.sa_desk.specs.call.Begin.{MayBegin, begin_answer, begin_entries};
ghost use Rattle.sa_desk.specs.call.Begin as begin_call;
ghost use Rattle.sa_desk.specs.call.Close.{MayClose, close_entries, after_close};
ghost use Rattle.sa_desk.specs.call.End.{MayEnd, end_answer, end_entries, run_of, outcome_of};
ghost use Rattle.sa_desk.specs.call.End as end_call;
ghost use Rattle.sa_desk.specs.program.Turn.{itself};
ghost use Rattle.sa_worker.specs.View.{prepares, done, me_of};
ghost use Rattle.sa_worker.specs.Next.{after_begin, after_end, goes_to};
ghost use Rattle.sa_worker.specs.inner.Fields.{changed, finish_of, rest_of, view_of};
ghost use Rattle.sa_worker.specs.inner.Ties.{Changes, IsOpening, IsTied};

use crate::opening::{Made, Opening};
use crate::session::Session;
use crate::settings::{Change, Settings};
use crate::stage::{RunEnd, Stage, finish_with, first_stage};
use sa_desk::{Begun, Desks, Ended, Finish, Outcome};
use sa_exec::Run;
use std::mem::replace;

/// Begins the statement. Where the session was killed it closes next.
pub(crate) fn begin<D: Desks>(session: &mut Session, desks: &mut D, opening: Opening)
    requires allowed { let own = session.old.given.session in
        (D.world desks.old).may_call own own ≡ true }
    requires begin { let old = D.world desks.old in
        let stamp = next_stamp old (me_of (view_of session.old)) in
        let number = session.old.number in
        let event = Begin number opening.text 0 opening.made.plan opening.made.tables in
        MayBegin (old.contents session.old.given.session) stamp event number 0
        opening.made.plan opening.made.tables }
    requires turn { session.old.turn + 1 < 2 ^ 64 }
    requires texts { session.old.statements.items ≡ drop session.old.number session.old.texts.value }
    requires opening { IsOpening (rest_of session.old) opening }
    ensures tied { IsTied session.new }
    ensures next { let at = (D.world desks.old).contents session.old.given.session in
        view_of session.new ≡ after_begin (view_of session.old) (begin_answer (state at).doomed) }
    ensures same { D.keeps desks.old desks.new }
    ensures call { let old = D.world desks.old in
        let own = session.old.given.session in
        let at = old.contents own in
        let stamp = next_stamp old (me_of (view_of session.old)) in
        let number = session.old.number in
        let event = Begin number opening.text 0 opening.made.plan opening.made.tables in
        IsCall old (D.world desks.new) own own
        (begin_entries at stamp event number) (begin_call.after_begin at stamp event number) }
{
    let Opening { text, made } = opening;
    let Made {
        plan,
        tables,
        course,
        change,
    } = made;
    let me = session.me();
    match desks.begin(me.actor, me, session.number, text, 0, plan, tables) {
        Begun::Ok => {
            session.began = me.turn;
            session.change = change;
            session.go(first_stage(course));
        }
        Begun::Gone => session.go(Stage::Closes),
    }
}

/// Ends a statement without a run.
pub(crate) fn end<D: Desks>(session: &mut Session, desks: &mut D, outcome: Outcome)
    requires allowed { let own = session.old.given.session in
        (D.world desks.old).may_call own own ≡ true }
    requires end { let old = D.world desks.old in
        let stamp = next_stamp old (me_of (view_of session.old)) in
        MayEnd itself (old.contents session.old.given.session) stamp session.old.number
        (Finish.Plain outcome) }
    requires turn { session.old.turn + 1 < 2 ^ 64 }
    requires number { session.old.number + 1 < 2 ^ 32 }
    requires texts { session.old.statements.items ≡ drop session.old.number session.old.texts.value }
    requires changes { Changes (rest_of session.old) session.old.change outcome }
    ensures tied { IsTied session.new }
    ensures next { let at = (D.world desks.old).contents session.old.given.session in
        let answer = end_answer (is_killed (phase at)) in
        view_of session.new ≡ after_end (view_of session.old) outcome answer }
    ensures same { D.keeps desks.old desks.new }
    ensures call { let old = D.world desks.old in
        let own = session.old.given.session in
        let at = old.contents own in
        let stamp = next_stamp old (me_of (view_of session.old)) in
        let number = session.old.number in
        IsCall old (D.world desks.new) own own
        (end_entries at stamp number None outcome) (end_call.after_end at stamp number None outcome) }
{
    let finish: Finish<Run> = Finish::Plain(outcome);
    let ended = desks.end(session.given.session, session.me(), session.number, finish);
    go_on(session, ended);
}

/// Ends a statement with its run.
pub(crate) fn end_run<D: Desks>(session: &mut Session, desks: &mut D, run: Run, end: RunEnd)
    requires allowed { let own = session.old.given.session in
        (D.world desks.old).may_call own own ≡ true }
    requires end { let old = D.world desks.old in
        let stamp = next_stamp old (me_of (view_of session.old)) in
        MayEnd itself (old.contents session.old.given.session) stamp session.old.number
        (finish_of run end) }
    requires turn { session.old.turn + 1 < 2 ^ 64 }
    requires number { session.old.number + 1 < 2 ^ 32 }
    requires texts { session.old.statements.items ≡ drop session.old.number session.old.texts.value }
    requires changes { Changes (rest_of session.old) session.old.change
        (outcome_of itself (finish_of run end)) }
    ensures tied { IsTied session.new }
    ensures next { let at = (D.world desks.old).contents session.old.given.session in
        let answer = end_answer (is_killed (phase at)) in
        view_of session.new
        ≡ after_end (view_of session.old) (outcome_of itself (finish_of run end)) answer }
    ensures same { D.keeps desks.old desks.new }
    ensures call { let old = D.world desks.old in
        let own = session.old.given.session in
        let at = old.contents own in
        let stamp = next_stamp old (me_of (view_of session.old)) in
        let number = session.old.number in
        let given = finish_of run end in
        let outcome = outcome_of itself given in
        IsCall old (D.world desks.new) own own
        (end_entries at stamp number (run_of itself given) outcome)
        (end_call.after_end at stamp number (run_of itself given) outcome) }
{
    let finish = finish_with(run, end);
    let ended = desks.end(session.given.session, session.me(), session.number, finish);
    go_on(session, ended);
}

/// The next statement comes.
fn go_on(session: &mut Session, ended: Ended)
    requires turn { session.old.turn + 1 < 2 ^ 64 }
    requires number { session.old.number + 1 < 2 ^ 32 }
    requires texts { session.old.statements.items ≡ drop session.old.number session.old.texts.value }
    ensures tied { IsTied session.new }
    ensures next { let view = view_of session.old in
        view_of session.new ≡ record view {
          settings = changed view.settings session.old.change ended;
          turn = view.turn + 1;
          number = view.number + 1;
          stage = prepares;
        } }
{
    let settings = replace(&mut session.settings, Settings::new());
    let change = replace(&mut session.change, Change::Nothing);
    session.settings = settings.after(change, ended);
    session.number += 1;
    session.go(Stage::Prepares);
}

/// Ends the session.
pub(crate) fn close<D: Desks>(session: &mut Session, desks: &mut D)
    requires allowed { let own = session.old.given.session in
        (D.world desks.old).may_call own own ≡ true }
    requires close { let old = D.world desks.old in
        let stamp = next_stamp old (me_of (view_of session.old)) in
        MayClose (old.contents session.old.given.session) stamp }
    requires turn { session.old.turn + 1 < 2 ^ 64 }
    requires texts { session.old.statements.items ≡ drop session.old.number session.old.texts.value }
    ensures tied { IsTied session.new }
    ensures next { view_of session.new ≡ goes_to (view_of session.old) done }
    ensures same { D.keeps desks.old desks.new }
    ensures call { let old = D.world desks.old in
        let own = session.old.given.session in
        let at = old.contents own in
        let stamp = next_stamp old (me_of (view_of session.old)) in
        IsCall old (D.world desks.new) own own (close_entries at stamp) (after_close at stamp) }
{
    desks.close(session.given.session, session.me());
    session.go(Stage::Done);
}
