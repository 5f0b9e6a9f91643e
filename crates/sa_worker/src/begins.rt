//! How a statement is made ready to begin.

ghost use Rattle.std.specs.Prelude.{◌≡◌, ◌-◌, ◌≤◌, ◌⊎◌, drop};
ghost use Rattle.sa_desk.specs.program.Course as course;
ghost use Rattle.sa_worker.specs.View.{prepares, text_at};
ghost use Rattle.sa_desk.specs.program.Prepares.{IsAnswer};
ghost use Rattle.sa_worker.specs.Works.{Prepares};
ghost use Rattle.sa_worker.specs.Holds.{IsGiven, IsLimit, IsSoundAnswer};
ghost use Rattle.sa_worker.specs.Sound.{GivesSound};
ghost use Rattle.sa_worker.specs.inner.Fields.{answer_of, answered, view_of};
ghost use Rattle.sa_worker.specs.inner.Ties.{IsOpening, IsTied};

use crate::opening::{Course, Made, Opening};
use crate::prepares::make;
use crate::session::{About, Session};
use crate::settings::Change;
use crate::stage::Stage;
use sa_desk::Outcome;
use sa_plan::{Prepared, Preparer};
use sa_query::Refusal;
use sa_value::Text;
use std::snapshot::Snapshot;

/// Prepares the next statement. Where none is left the session closes.
pub(crate) fn prepare_next<P: Preparer>(session: &mut Session, prepare: &P)
    requires texts { session.old.statements.items
        ≡ drop (session.old.number - 1) session.old.texts.value }
    requires number { 1 ≤ session.old.number }
    requires given { IsGiven (view_of session.old).given }
    requires limit { IsLimit session.old.settings.limit }
    requires sound { GivesSound (P.answers prepare.now) (view_of session.old).given }
    ensures tied { IsTied session.new }
    ensures works { let view = record (view_of session.old) { stage = prepares } in
        Prepares (P.answers prepare.now) view (view_of session.new) }
{
    let Some(source) = session.statements.pop_front() else {
        session.stage = Stage::Closes;
        return;
    };
    let (opening, about) = open(session, source, prepare);
    session.about = about;
    session.stage = Stage::Opens(opening);
}

/// The opening of the statement of this text, with what preparation answered.
fn open<P: Preparer>(session: &Session, source: Text, prepare: &P) -> (Opening, About)
    requires source { source ≡ text_at (view_of session.now) }
    requires given { IsGiven (view_of session.now).given }
    requires limit { IsLimit session.now.settings.limit }
    requires sound { GivesSound (P.answers prepare.now) (view_of session.now).given }
    ensures answer { IsAnswer (P.answers prepare.now) source (answer_of result.1) }
    ensures opening { IsOpening (answered session.now (answer_of result.1)) result.0 }
{
    match prepare.prepare(session.given.alloc, source.as_str()) {
        Ok(prepared) => open_prepared(session, prepared),
        Err(Refusal::OutOfMemory) => starved(session, source),
        Err(why) => refused(session, source, why),
    }
}

/// A statement that was prepared. Where memory runs out its Begin has no plan.
fn open_prepared(session: &Session, prepared: Prepared) -> (Opening, About)
    requires given { IsGiven (view_of session.now).given }
    requires limit { IsLimit session.now.settings.limit }
    requires sound { IsSoundAnswer (view_of session.now).given
        (course.prepared prepared.text prepared.work) }
    ensures answer { (answer_of result.1 ≡ course.prepared prepared.text prepared.work)
        ⊎ (answer_of result.1 ≡ course.starved prepared.text) }
    ensures opening { IsOpening (answered session.now (answer_of result.1)) result.0 }
{
    let about = About::Prepared(Snapshot::of(&prepared));
    let Prepared { text, work } = prepared;
    match make(session, &text, work) {
        Ok(made) => (Opening { text, made }, about),
        Err(_) => starved(session, text),
    }
}

/// A statement for which memory ran out before its Begin.
fn starved(session: &Session, text: Text) -> (Opening, About)
    ensures answer { answer_of result.1 ≡ course.starved text }
    ensures opening { IsOpening (answered session.now (answer_of result.1)) result.0 }
{
    let _ = session;
    let about = About::Starved(Snapshot::of(&text));
    let made = Made::plain(Course::Says(Outcome::OutOfMemory), Change::Nothing);
    (Opening { text, made }, about)
}

/// A statement that can't be run. Its Begin has the source text.
fn refused(session: &Session, source: Text, why: Refusal) -> (Opening, About)
    requires { source ≡ text_at (view_of session.now) }
    ensures answer { answer_of result.1 ≡ course.refused why }
    ensures opening { IsOpening (answered session.now (answer_of result.1)) result.0 }
{
    let _ = session;
    let about = About::Refused(Snapshot::of(&why));
    let made = Made::plain(Course::Says(Outcome::Refused(why)), Change::Nothing);
    let opening = Opening { text: source, made };
    (opening, about)
}
