//! The journals as short lines of text.

use sa_count::Report;
use sa_desk::{Entry, Event, Journals, Outcome};
use sa_value::{Row, Rows, Texts, ValueRef};
use std::alloc::{AllocError, Global};

/// The lines of all journals.
pub fn lines(alloc: Global, journals: &Journals) -> Result<Vec<String>, AllocError> {
    let mut lines = Vec::new(alloc);
    for (place, journal) in journals.as_slice().iter().enumerate() {
        lines.push(format!(in alloc; "desk {}", place + 1)?)?;
        for entry in journal.as_slice() {
            lines.push(line(alloc, entry, place + 1)?)?;
        }
    }
    Ok(lines)
}

/// The actor of the entry, its number and its turn, and what happened. An entry of another desk
/// tells it.
fn line(alloc: Global, entry: &Entry, desk: usize) -> Result<String, AllocError> {
    let event = event_text(alloc, &entry.event)?;
    let (actor, seq, turn) = (entry.actor, entry.seq, entry.turn);
    if entry.desk as usize != desk {
        return format!(in alloc; "of desk {}: {event}", entry.desk);
    }
    format!(in alloc; "{actor} {seq} {turn} {event}")
}

/// What happened.
fn event_text(alloc: Global, event: &Event) -> Result<String, AllocError> {
    match event {
        Event::Begin {
            statement,
            text,
            plan,
            ..
        } => {
            let how = if plan.is_some() { "planned" } else { "plain" };
            let text = text.as_str();
            format!(in alloc; "Begin {statement} {how}: {text}")
        }
        Event::Served {
            asker,
            request,
            report,
        } => {
            let counted = report_text(alloc, report)?;
            format!(in alloc; "Served {asker}.{request}: {counted}")
        }
        Event::End {
            statement,
            outcome,
            steps,
        } => {
            let outcome = outcome_text(alloc, outcome)?;
            format!(in alloc; "End {statement} after {steps}: {outcome}")
        }
        other => format!(in alloc; "{other:?}"),
    }
}

/// How a statement ended.
fn outcome_text(alloc: Global, outcome: &Outcome) -> Result<String, AllocError> {
    match outcome {
        Outcome::Rows { names, rows } => rows_text(alloc, names, rows),
        Outcome::Shown {
            kind,
            desk,
            begin,
            report,
        } => {
            let counted = report_text(alloc, report)?;
            format!(in alloc; "{kind:?} of {desk}, begin {begin}: {counted}")
        }
        Outcome::Analyzed { report, .. } => {
            let counted = report_text(alloc, report)?;
            format!(in alloc; "Analyzed: {counted}")
        }
        Outcome::PlanShown { .. } => String::from_str(alloc, "PlanShown"),
        other => format!(in alloc; "{other:?}"),
    }
}

/// What a run has counted. Of a table the loops, the rows and those that passed.
fn report_text(alloc: Global, report: &Report) -> Result<String, AllocError> {
    let (statement, steps, sent) = (report.statement, report.steps, report.sent);
    let mut text = format!(in alloc; "statement {statement} steps {steps} sent {sent}")?;
    for table in report.tables.as_slice() {
        let (loops, rows, passed) = (table.loops, table.rows, table.passed);
        let counters = format!(in alloc; " table {loops} {rows} {passed}")?;
        text.push_str(&counters)?;
    }
    Ok(text)
}

/// The columns and the rows that a query gave.
fn rows_text(alloc: Global, names: &Texts, rows: &Rows) -> Result<String, AllocError> {
    let mut text = String::from_str(alloc, "rows")?;
    for name in names.as_slice() {
        text.push_str(" ")?;
        text.push_str(name.as_str())?;
    }
    text.push_str(":")?;
    for row in rows.as_slice() {
        push_row(alloc, row, &mut text)?;
    }
    Ok(text)
}

/// Puts the row's values at the end of the text.
fn push_row(alloc: Global, row: &Row, text: &mut String) -> Result<(), AllocError> {
    for value in row.as_slice() {
        let value = match value.view() {
            ValueRef::Int(number) => format!(in alloc; " {number}")?,
            other => format!(in alloc; " {other:?}")?,
        };
        text.push_str(&value)?;
    }
    Ok(())
}
