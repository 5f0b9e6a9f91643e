ghost use Rattle.std.specs.Prelude.{◌≡◌, IfOk, OnOk, map};
ghost use Rattle.serde_json.specs.View.{view, members_view, items_of};
ghost use Rattle.serde_json.specs.Data.{array};
ghost use Rattle.sa_transcript.specs.Line.{counters_data, report_data, entry_members, event_name};

use crate::object::{Members, put_count, put_text};
use sa_count::{Counters, Report};
use sa_desk::{Entry, Event};
use sa_value::OutOfMemory;
use serde_json::{Value as Json, put};
use std::alloc::Global;

/// What a run has counted of a table.
fn counters_value(alloc: Global, counters: &Counters) -> Result<Json, OutOfMemory>
    ensures { IfOk result (λ json. view json ≡ counters_data counters.now) }
{
    let mut members = Members::new(alloc);
    put_count(alloc, &mut members, "rows", counters.rows)?;
    put_count(alloc, &mut members, "passed", counters.passed)?;
    put_count(alloc, &mut members, "loops", counters.loops)?;
    Ok(Json::Object(members))
}

/// What a run has counted of its tables.
fn tables_value(alloc: Global, tables: &[Counters]) -> Result<Json, OutOfMemory>
    ensures { IfOk result (λ json. view json ≡ array (items_of (map counters_data tables.now))) }
{
    let mut items = Vec::new(alloc);
    for counters in tables {
        items.push(counters_value(alloc, counters)?)?;
    }
    Ok(Json::Array(items))
}

/// How far a run has come.
pub fn report_value(alloc: Global, report: &Report) -> Result<Json, OutOfMemory>
    ensures { IfOk result (λ json. view json ≡ report_data report.now) }
{
    let mut members = Members::new(alloc);
    let tables = tables_value(alloc, report.tables.as_slice())?;
    put(&mut members, alloc, "tables", tables)?;
    put_count(alloc, &mut members, "steps", report.steps)?;
    put_count(
        alloc,
        &mut members,
        "statement",
        u64::from(report.statement),
    )?;
    put_count(alloc, &mut members, "sent", report.sent)?;
    Ok(Json::Object(members))
}

/// What the line of each entry tells.
pub fn entry_members(alloc: Global, entry: &Entry) -> Result<Members, OutOfMemory>
    ensures { IfOk result (λ members. members_view members.entries ≡ entry_members entry.now) }
{
    let mut members = Members::new(alloc);
    put_count(alloc, &mut members, "turn", entry.turn)?;
    put_count(alloc, &mut members, "seq", u64::from(entry.seq))?;
    put_text(alloc, &mut members, "event", event_name(&entry.event))?;
    put_count(alloc, &mut members, "desk", u64::from(entry.desk))?;
    put_count(alloc, &mut members, "actor", u64::from(entry.actor))?;
    Ok(members)
}

/// How an event is called.
fn event_name(event: &Event) -> &'static str
    ensures { result.now ≡ event_name event.now }
{
    match event {
        Event::Begin { .. } => "begin",
        Event::Queued { .. } => "queued",
        Event::Refused { .. } => "refused",
        Event::Served { .. } => "served",
        Event::Taken { .. } => "taken",
        Event::Spent { .. } => "spent",
        Event::Withdrawn { .. } => "withdrawn",
        Event::KillSent { .. } => "kill_sent",
        Event::Waited { .. } => "waited",
        Event::WaitSpent { .. } => "wait_spent",
        Event::End { .. } => "end",
        Event::Gone { .. } => "gone",
        Event::Close => "close",
    }
}
