//! What a statement's first turn makes before its Begin.

ghost use Rattle.std.specs.Prelude.{◌≡◌, IfOk};
ghost use Rattle.sa_desk.specs.program.Course.{prepared, names_of};
ghost use Rattle.sa_worker.specs.Holds.{CanRun, IsGiven, IsLimit, IsSoundAnswer};
ghost use Rattle.sa_worker.specs.inner.Fields.{answered, rest_of, view_of};
ghost use Rattle.sa_worker.specs.inner.Ties.{IsMade, IsStarted};

use crate::given::session_of;
use crate::opening::{Course, Goal, Made};
use crate::session::Session;
use crate::settings::{Change, trace_of};
use sa_ast::{AskKind, KillKind};
use sa_desk::Outcome;
use sa_exec::Run;
use sa_plan::{Plan, Planned, Work};
use sa_value::{OutOfMemory, Text, Texts};
use std::alloc::Global;

/// What a statement needs that was prepared so, with this canonical text.
pub(crate) fn make(session: &Session, text: &Text, work: Work) -> Result<Made, OutOfMemory>
    requires given { IsGiven (view_of session.now).given }
    requires limit { IsLimit session.now.settings.limit }
    requires sound { IsSoundAnswer (view_of session.now).given (prepared text.now work) }
    ensures { IfOk result (IsMade (answered session.now (prepared text.now work))) }
{
    match work {
        Work::Select(planned) => select(session, text, planned),
        Work::Explain(planned) => explain(session, text, planned),
        Work::Analyze(planned) => analyze(session, text, planned),
        Work::Show { kind, id } => Ok(show(session, text, kind, id)),
        Work::Kill { kind, id } => Ok(kill(session, text, kind, id)),
        Work::Wait { id, at } => Ok(wait(session, text, id, at)),
        Work::SetTrace(on) => Ok(Made::plain(Course::Says(Outcome::Set), Change::Tracing(on))),
        Work::SetLimit(limit) => Ok(Made::plain(Course::Says(Outcome::Set), Change::Limit(limit))),
        // no trace is written yet
        Work::TraceRows => Ok(Made::plain(
            Course::Says(Outcome::Trace { document: None }),
            Change::Nothing,
        )),
    }
}

/// A SHOW goes to the session that it names, if the script has it.
fn show(session: &Session, text: &Text, kind: AskKind, id: u128) -> Made
    ensures { IsMade (answered session.now (prepared text.now (Work.Show kind id))) result }
{
    let _ = text;
    match session_of(&session.given, id) {
        Some(desk) => Made::plain(Course::Shows { kind, desk }, Change::Nothing),
        None => Made::plain(Course::Says(Outcome::NoSuchThread), Change::Nothing),
    }
}

/// So does a KILL.
fn kill(session: &Session, text: &Text, kind: KillKind, id: u128) -> Made
    ensures { IsMade (answered session.now (prepared text.now (Work.Kill kind id))) result }
{
    let _ = text;
    match session_of(&session.given, id) {
        Some(desk) => Made::plain(Course::Kills { kind, desk }, Change::Nothing),
        None => Made::plain(Course::Says(Outcome::NoSuchThread), Change::Nothing),
    }
}

/// And a WAIT.
fn wait(session: &Session, text: &Text, id: u128, at: u64) -> Made
    ensures { IsMade (answered session.now (prepared text.now (Work.Wait id at))) result }
{
    let _ = text;
    match session_of(&session.given, id) {
        Some(desk) => Made::plain(Course::Waits { desk, at }, Change::Nothing),
        None => Made::plain(Course::Says(Outcome::NoSuchThread), Change::Nothing),
    }
}

/// An EXPLAIN shows its plan.
fn explain(session: &Session, text: &Text, planned: Planned) -> Result<Made, OutOfMemory>
    ensures { IfOk result (IsMade (answered session.now (prepared text.now (Work.Explain planned)))) }
{
    let change = trace_of(session.given.alloc, &session.settings, text, &planned)?;
    let Planned { plan } = planned;
    Ok(Made::plain(Course::Says(Outcome::PlanShown { plan }), change))
}

/// A SELECT runs its plan for its rows.
fn select(session: &Session, text: &Text, planned: Planned) -> Result<Made, OutOfMemory>
    requires given { IsGiven (view_of session.now).given }
    requires limit { IsLimit session.now.settings.limit }
    requires runs { CanRun (view_of session.now).given planned }
    ensures { IfOk result (IsMade (answered session.now (prepared text.now (Work.Select planned)))) }
{
    let names = copy_names(session.given.alloc, planned.plan.plan())?;
    start(session, text, planned, Goal::Rows(names))
}

/// An ANALYZE runs its plan for what the run counts.
fn analyze(session: &Session, text: &Text, planned: Planned) -> Result<Made, OutOfMemory>
    requires given { IsGiven (view_of session.now).given }
    requires limit { IsLimit session.now.settings.limit }
    requires runs { CanRun (view_of session.now).given planned }
    ensures { IfOk result (IsMade (answered session.now (prepared text.now (Work.Analyze planned)))) }
{
    let plan = planned.plan.share()?;
    start(session, text, planned, Goal::Analyzed(plan))
}

/// A run of the plan, with what the Begin shows of it.
fn start(session: &Session, text: &Text, planned: Planned, goal: Goal) -> Result<Made, OutOfMemory>
    requires given { IsGiven (view_of session.now).given }
    requires limit { IsLimit session.now.settings.limit }
    requires runs { CanRun (view_of session.now).given planned }
    ensures { IfOk result (IsStarted (rest_of session.now) text.now planned goal) }
{
    let change = trace_of(session.given.alloc, &session.settings, text, &planned)?;
    let plan = planned.plan.share()?;
    let tables = session.given.tables.share()?;
    let run = Run::start(
        session.given.alloc,
        session.number,
        planned.plan,
        session.given.tables.share()?,
        session.given.quantum,
        session.settings.limit,
    )?;
    Ok(Made {
        plan: Some(plan),
        tables: Some(tables),
        course: Course::Runs { run, goal },
        change,
    })
}

/// The names of the plan's columns.
fn copy_names(alloc: Global, plan: &Plan) -> Result<Texts, OutOfMemory>
    ensures { IfOk result (λ names. names ≡ names_of plan.now) }
{
    let mut names = Texts::new(alloc);
    for item in plan.select.as_slice() {
        names.push(item.name.copy(alloc)?)?;
    }
    Ok(names)
}
