ghost use Rattle.std.specs.Prelude.{◌≡◌, List, OnOk, codes};
ghost use Rattle.serde_json.specs.Data.{boolean, string};
ghost use Rattle.serde_json.specs.Data.{put as with_member};
ghost use Rattle.serde_json.specs.View.{view, members_view};
ghost use Rattle.sa_explain.specs.Number.{count};
ghost use Rattle.sa_plan.specs.declared.names.TableNames.{TableNames};
ghost use Rattle.sa_desk.specs.declared.entry.Entry.{Entry};
ghost use Rattle.sa_transcript.specs.Line.{of_statement, report_data, with_event};
ghost use Rattle.sa_transcript.specs.Names.{ask_name, kill_name, why_name};
ghost use Rattle.sa_transcript.specs.Outcome.{outcome_data};
ghost use Rattle.sa_transcript.specs.inner.Asked.{IsOfRequest, IsOfSession};
ghost use Rattle.sa_transcript.specs.inner.Told.{EventIsTold, OutcomeIsTold};

use crate::line::report_value;
use crate::names::{ask_name, kill_name, why_name};
use crate::object::{Members, put_count, put_text};
use crate::outcome::outcome_value;
use sa_ast::AskKind;
use sa_count::Report;
use sa_desk::{Entries, Event, Outcome};
use sa_plan::Names;
use sa_value::{OutOfMemory, Text};
use serde_json::{Value as Json, put};
use std::alloc::Global;

/// Puts what an event tells besides its name.
pub fn put_event(
    alloc: Global,
    members: &mut Members,
    names: &Names,
    journals: &[Entries],
    event: &Event,
) -> Result<(), OutOfMemory>
    requires { EventIsTold names.now journals.now event.now }
    ensures { OnOk result (members_view members.new.entries
        ≡ with_event names.now journals.now event.now (members_view members.old.entries)) }
{
    match event {
        Event::End {
            statement,
            outcome,
            steps,
        } => {
            let outcome = outcome_value(alloc, names, journals, outcome)?;
            put_end(alloc, members, *statement, outcome, *steps)
        }
        Event::Queued { .. }
        | Event::Refused { .. }
        | Event::Served { .. }
        | Event::Taken { .. }
        | Event::Spent { .. }
        | Event::Withdrawn { .. } => put_of_request(alloc, members, event),
        Event::Begin { .. }
        | Event::KillSent { .. }
        | Event::Waited { .. }
        | Event::WaitSpent { .. }
        | Event::Gone { .. }
        | Event::Close => put_of_session(alloc, members, event),
    }
}

/// Puts what an event of a request tells.
fn put_of_request(alloc: Global, members: &mut Members, event: &Event) -> Result<(), OutOfMemory>
    requires { IsOfRequest event.now }
    ensures { OnOk result ((names : List TableNames) (journals : List (List Entry)) →
        members_view members.new.entries
        ≡ with_event names journals event.now (members_view members.old.entries)) }
{
    match event {
        Event::Queued {
            statement,
            kind,
            at,
            budget,
        } => put_queued(alloc, members, *statement, *kind, *at, *budget),
        Event::Refused { statement, why } => {
            put_text(alloc, members, "why", why_name(*why))?;
            put_statement(alloc, members, *statement)
        }
        Event::Served {
            asker,
            request,
            report,
        } => put_served(alloc, members, *asker, *request, report),
        Event::Taken { statement } | Event::Withdrawn { statement } => {
            put_statement(alloc, members, *statement)
        }
        Event::Spent { statement, turns } => {
            put_count(alloc, members, "turns", *turns)?;
            put_statement(alloc, members, *statement)
        }
        _ => unreachable!(),
    }
}

/// Puts what an event of a session's own statement tells, its end apart.
fn put_of_session(alloc: Global, members: &mut Members, event: &Event) -> Result<(), OutOfMemory>
    requires { IsOfSession event.now }
    ensures { OnOk result ((names : List TableNames) (journals : List (List Entry)) →
        members_view members.new.entries
        ≡ with_event names journals event.now (members_view members.old.entries)) }
{
    match event {
        Event::Begin {
            statement,
            text,
            version,
            plan,
            ..
        } => put_begin(alloc, members, *statement, text, *version, plan.is_some()),
        Event::KillSent { statement, kind } => {
            put_text(alloc, members, "kind", kill_name(*kind))?;
            put_statement(alloc, members, *statement)
        }
        Event::Waited { statement, steps } => {
            put_count(alloc, members, "steps", *steps)?;
            put_statement(alloc, members, *statement)
        }
        Event::WaitSpent {
            statement,
            steps,
            turns,
        } => put_wait_spent(alloc, members, *statement, *steps, *turns),
        Event::Gone { statement } => put_statement(alloc, members, *statement),
        Event::Close => Ok(()),
        _ => unreachable!(),
    }
}

/// Puts of which statement an event is.
fn put_statement(alloc: Global, members: &mut Members, statement: u32) -> Result<(), OutOfMemory>
    ensures { OnOk result (members_view members.new.entries
        ≡ of_statement statement (members_view members.old.entries)) }
{
    put_count(alloc, members, "statement", u64::from(statement))
}

/// Puts what the begin of a statement tells.
fn put_begin(
    alloc: Global,
    members: &mut Members,
    statement: u32,
    text: &Text,
    version: u64,
    has_plan: bool,
) -> Result<(), OutOfMemory>
    ensures { OnOk result (members_view members.new.entries
        ≡ of_statement statement
        (with_member (codes "enabled") (boolean has_plan)
        (with_member (codes "text") (string text.now)
        (with_member (codes "version") (count version) (members_view members.old.entries))))) }
{
    put_count(alloc, members, "version", version)?;
    put_text(alloc, members, "text", text.as_str())?;
    put(members, alloc, "enabled", Json::Bool(has_plan))?;
    put_statement(alloc, members, statement)
}

/// Puts what a request in a queue tells.
fn put_queued(
    alloc: Global,
    members: &mut Members,
    statement: u32,
    kind: AskKind,
    at: u64,
    budget: u64,
) -> Result<(), OutOfMemory>
    ensures { OnOk result (members_view members.new.entries
        ≡ of_statement statement
        (with_member (codes "at") (count at)
        (with_member (codes "budget") (count budget)
        (with_member (codes "kind") (string (ask_name kind)) (members_view members.old.entries))))) }
{
    put_text(alloc, members, "kind", ask_name(kind))?;
    put_count(alloc, members, "budget", budget)?;
    put_count(alloc, members, "at", at)?;
    put_statement(alloc, members, statement)
}

/// Puts what an answer tells.
fn put_served(
    alloc: Global,
    members: &mut Members,
    asker: u32,
    request: u32,
    report: &Report,
) -> Result<(), OutOfMemory>
    ensures { OnOk result (members_view members.new.entries
        ≡ with_member (codes "asker") (count asker)
        (with_member (codes "report") (report_data report.now)
        (with_member (codes "request") (count request) (members_view members.old.entries)))) }
{
    put_count(alloc, members, "request", u64::from(request))?;
    let report = report_value(alloc, report)?;
    put(members, alloc, "report", report)?;
    put_count(alloc, members, "asker", u64::from(asker))
}

/// Puts what the end of a wait tells that saw too few steps.
fn put_wait_spent(
    alloc: Global,
    members: &mut Members,
    statement: u32,
    steps: u64,
    turns: u64,
) -> Result<(), OutOfMemory>
    ensures { OnOk result (members_view members.new.entries
        ≡ of_statement statement
        (with_member (codes "steps") (count steps)
        (with_member (codes "turns") (count turns) (members_view members.old.entries)))) }
{
    put_count(alloc, members, "turns", turns)?;
    put_count(alloc, members, "steps", steps)?;
    put_statement(alloc, members, statement)
}

/// Puts what the end of a statement tells.
fn put_end(
    alloc: Global,
    members: &mut Members,
    statement: u32,
    outcome: Json,
    steps: u64,
) -> Result<(), OutOfMemory>
    ensures { OnOk result (members_view members.new.entries
        ≡ of_statement statement
        (with_member (codes "outcome") (view outcome)
        (with_member (codes "steps") (count steps) (members_view members.old.entries)))) }
{
    put_count(alloc, members, "steps", steps)?;
    put(members, alloc, "outcome", outcome)?;
    put_statement(alloc, members, statement)
}
