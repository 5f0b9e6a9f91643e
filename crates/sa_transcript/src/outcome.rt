ghost use Rattle.std.specs.Prelude.{◌≡◌, ◌-◌, [], map, codes, length, None, Some, IfOk, slice_index_or};
ghost use Rattle.std.specs.Option.{option_copied};
ghost use Rattle.serde_json.specs.Data.{array, object, string, no_members};
ghost use Rattle.serde_json.specs.Data.{put as with_member};
ghost use Rattle.serde_json.specs.View.{view, members_view, items_of};
ghost use Rattle.sa_explain.specs.Number.{count};
ghost use Rattle.sa_transcript.specs.Outcome.{because, because_at, of_kind, outcome_data, plan_begun, plan_in, refusal_members, shown_data, shown_report};
ghost use Rattle.sa_transcript.specs.inner.Told.{OutcomeIsTold, ShownIsTold};

use crate::names::{lex_name, resolve_name};
use crate::object::{Members, put_count, put_text};
use sa_ast::AskKind;
use sa_count::Report;
use sa_desk::{Entries, Entry, Event, Outcome};
use sa_explain::{analyze_json, plan_json};
use sa_plan::{Names, Plan};
use sa_query::Refusal;
use sa_value::{OutOfMemory, Text};
use serde_json::{Value as Json, put};
use std::alloc::Global;

/// How a statement ended.
pub fn outcome_value(
    alloc: Global,
    names: &Names,
    journals: &[Entries],
    outcome: &Outcome,
) -> Result<Json, OutOfMemory>
    requires { OutcomeIsTold names.now journals.now outcome.now }
    ensures { IfOk result (λ json. view json ≡ outcome_data names.now journals.now outcome.now) }
{
    match outcome {
        Outcome::Rows {
            names: columns,
            rows,
        } => rows_value(alloc, columns.as_slice(), rows.len()),
        Outcome::PlanShown { plan } => {
            with_document(alloc, "plan", plan_json(alloc, plan.plan(), names)?)
        }
        Outcome::Analyzed { plan, report } => with_document(
            alloc,
            "analyzed",
            analyze_json(alloc, plan.plan(), report, names)?,
        ),
        Outcome::Shown {
            kind,
            desk,
            begin,
            report,
        } => {
            let plan = plan_begun(journals, *desk, *begin);
            with_document(
                alloc,
                "shown",
                shown_document(alloc, names, plan, *kind, report)?,
            )
        }
        Outcome::Trace { .. } => with_document(alloc, "trace", Json::Null),
        Outcome::Set => of_kind(alloc, "set", Members::new(alloc)),
        Outcome::KillSent => of_kind(alloc, "kill_sent", Members::new(alloc)),
        Outcome::Waited { steps } => waited_value(alloc, *steps),
        Outcome::Refused(why) => refusal_value(alloc, *why),
        Outcome::NoSuchThread => because(alloc, "NoSuchThread", Members::new(alloc)),
        Outcome::NotExplainable => because(alloc, "NotExplainable", Members::new(alloc)),
        Outcome::TimedOut { turns } => timed_out_value(alloc, *turns),
        Outcome::WaitSpent { steps, turns } => wait_spent_value(alloc, *steps, *turns),
        Outcome::RowLimit => because(alloc, "RowLimit", Members::new(alloc)),
        Outcome::TooManyRows => because(alloc, "TooManyRows", Members::new(alloc)),
        Outcome::Interrupted => because(alloc, "Interrupted", Members::new(alloc)),
        Outcome::OutOfMemory => because(alloc, "OutOfMemory", Members::new(alloc)),
    }
}

/// An outcome of a kind, with these members besides.
fn of_kind(alloc: Global, kind: &str, members: Members) -> Result<Json, OutOfMemory>
    ensures { IfOk result
        (λ json. view json ≡ object (of_kind kind.now (members_view members.entries))) }
{
    let mut members = members;
    put_text(alloc, &mut members, "kind", kind)?;
    Ok(Json::Object(members))
}

/// An outcome that refuses, with its reason and these members besides.
fn because(alloc: Global, why: &str, members: Members) -> Result<Json, OutOfMemory>
    ensures { IfOk result
        (λ json. view json ≡ object (because why.now (members_view members.entries))) }
{
    let mut members = members;
    put_text(alloc, &mut members, "why", why)?;
    of_kind(alloc, "refused", members)
}

/// An outcome that refuses, with its reason and a place in the statement's text.
fn because_at(alloc: Global, why: &str, place: usize) -> Result<Json, OutOfMemory>
    ensures { IfOk result (λ json. view json ≡ object (because_at why.now place)) }
{
    let mut members = Members::new(alloc);
    put_count(alloc, &mut members, "place", place as u64)?;
    because(alloc, why, members)
}

/// A statement's text was refused.
fn refusal_value(alloc: Global, why: Refusal) -> Result<Json, OutOfMemory>
    ensures { IfOk result (λ json. view json ≡ object (refusal_members why)) }
{
    match why {
        Refusal::Lex { kind, place } => because_at(alloc, lex_name(kind), place),
        Refusal::Syntax { place } => because_at(alloc, "Syntax", place),
        Refusal::NotSupported { place } => because_at(alloc, "NotSupported", place),
        Refusal::TooDeep { place } => because_at(alloc, "TooDeep", place),
        Refusal::Resolve { fault, place } => because_at(alloc, resolve_name(fault), place),
        Refusal::OutOfMemory => because(alloc, "OutOfMemory", Members::new(alloc)),
    }
}

/// A SHOW waited so many turns for an answer that didn't come.
fn timed_out_value(alloc: Global, turns: u64) -> Result<Json, OutOfMemory>
    ensures { IfOk result (λ json. view json
        ≡ object (because (codes "TimedOut") (with_member (codes "turns") (count turns) no_members))) }
{
    let mut members = Members::new(alloc);
    put_count(alloc, &mut members, "turns", turns)?;
    because(alloc, "TimedOut", members)
}

/// A WAIT looked for so many turns, and saw only so many steps.
fn wait_spent_value(alloc: Global, steps: u64, turns: u64) -> Result<Json, OutOfMemory>
    ensures { IfOk result (λ json. view json
        ≡ object (because (codes "WaitSpent")
        (with_member (codes "steps") (count steps)
        (with_member (codes "turns") (count turns) no_members)))) }
{
    let mut members = Members::new(alloc);
    put_count(alloc, &mut members, "turns", turns)?;
    put_count(alloc, &mut members, "steps", steps)?;
    because(alloc, "WaitSpent", members)
}

/// A WAIT saw so many steps.
fn waited_value(alloc: Global, steps: u64) -> Result<Json, OutOfMemory>
    ensures { IfOk result (λ json. view json
        ≡ object (of_kind (codes "waited") (with_member (codes "steps") (count steps) no_members))) }
{
    let mut members = Members::new(alloc);
    put_count(alloc, &mut members, "steps", steps)?;
    of_kind(alloc, "waited", members)
}

/// An outcome of a kind with a document.
fn with_document(alloc: Global, kind: &str, document: Json) -> Result<Json, OutOfMemory>
    ensures { IfOk result (λ json. view json
        ≡ object (of_kind kind.now (with_member (codes "document") (view document) no_members))) }
{
    let mut members = Members::new(alloc);
    put(&mut members, alloc, "document", document)?;
    of_kind(alloc, kind, members)
}

/// A SELECT gave so many rows with these column names. The rows have lines of their own.
fn rows_value(alloc: Global, columns: &[Text], rows: usize) -> Result<Json, OutOfMemory>
    ensures { IfOk result (λ json. view json
        ≡ object (of_kind (codes "rows")
        (with_member (codes "columns") (array (items_of (map string columns.now)))
        (with_member (codes "count") (count rows) no_members)))) }
{
    let mut members = Members::new(alloc);
    put_count(alloc, &mut members, "count", rows as u64)?;
    let columns = columns_value(alloc, columns)?;
    put(&mut members, alloc, "columns", columns)?;
    of_kind(alloc, "rows", members)
}

/// A list of texts.
fn columns_value(alloc: Global, columns: &[Text]) -> Result<Json, OutOfMemory>
    ensures { IfOk result (λ json. view json ≡ array (items_of (map string columns.now))) }
{
    let mut items = Vec::new(alloc);
    for column in columns {
        items.push(Json::try_from_str(alloc, column.as_str())?)?;
    }
    Ok(Json::Array(items))
}

/// The document of a plan that a session looked into; null where there is no plan.
fn shown_document(
    alloc: Global,
    names: &Names,
    plan: Option<&Plan>,
    kind: AskKind,
    report: &Report,
) -> Result<Json, OutOfMemory>
    requires { ShownIsTold names.now (option_copied plan) report.now }
    ensures { IfOk result (λ json. view json
        ≡ shown_data names.now (option_copied plan.entry) (shown_report kind report.now)) }
{
    match plan {
        None => Ok(Json::Null),
        Some(plan) => match kind {
            AskKind::Explain => plan_json(alloc, plan, names),
            AskKind::Analyze => analyze_json(alloc, plan, report, names),
        },
    }
}

/// The plan of the Begin that a desk's own session made with this number, if there is one.
fn plan_begun(journals: &[Entries], desk: u32, begin: u32) -> Option<&Plan>
    ensures { option_copied result ≡ plan_begun journals.now desk begin }
{
    for entry in journal_of(journals, desk) {
        if entry.actor == desk && entry.seq == begin {
            return plan_in(&entry.event);
        }
    }
    None
}

/// The journal of a desk.
fn journal_of(journals: &[Entries], desk: u32) -> &[Entry]
    ensures { result.now ≡ slice_index_or journals.now (desk - 1) [] }
{
    match journals.get(desk.saturating_sub(1) as usize) {
        Some(journal) => journal.as_slice(),
        None => &[],
    }
}

/// The plan of a Begin.
fn plan_in(event: &Event) -> Option<&Plan>
    ensures { option_copied result ≡ plan_in event.now }
{
    match event {
        Event::Begin {
            plan: Some(plan),
            ..
        } => Some(plan.plan()),
        _ => None,
    }
}
