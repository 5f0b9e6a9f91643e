ghost use Rattle.std.specs.Prelude.{◌≡◌, ◌++◌, IfOk, OnOk};
ghost use Rattle.std.specs.List.{flat_map};
ghost use Rattle.serde_json.specs.View.{view};
ghost use Rattle.sa_transcript.specs.Line.{entry_data};
ghost use Rattle.sa_transcript.specs.Transcript.{entry_lines, rows_in, transcript, CanTell};
ghost use Rattle.sa_transcript.specs.inner.Told.{EventIsTold, JournalIsTold};

use crate::event::put_event;
use crate::line::entry_members;
use crate::row::{push_done, push_line, push_rows};
use sa_desk::{Entries, Entry, Event, Journals, Outcome};
use sa_plan::Names;
use sa_value::{OutOfMemory, Row};
use serde_json::Value as Json;
use std::alloc::Global;

/// The whole text of these journals: a line for each entry, session by session, each row of a statement
/// behind the line of its end, and a last line. The names are those of the tables that the plans read.
#[tactic(auto, unfolding(crate::specs::Transcript::transcript))]
pub fn render(alloc: Global, journals: &Journals, names: &Names) -> Result<Vec<u8>, OutOfMemory>
    requires { CanTell names.now journals.now }
    ensures { IfOk result (λ text. text.items ≡ transcript names.now journals.now) }
{
    let journals = journals.as_slice();
    let mut text = Vec::new(alloc);
    for journal in journals {
        push_journal(alloc, &mut text, names, journals, journal.as_slice())?;
    }
    push_done(alloc, &mut text)?;
    Ok(text)
}

/// Puts the lines of a journal at the end of the text.
fn push_journal(
    alloc: Global,
    text: &mut Vec<u8>,
    names: &Names,
    journals: &[Entries],
    journal: &[Entry],
) -> Result<(), OutOfMemory>
    requires { JournalIsTold names.now journals.now journal.now }
    ensures { OnOk result (text.new.items
        ≡ text.old.items ++ flat_map (entry_lines names.now journals.now) journal.now) }
{
    for entry in journal {
        push_entry(alloc, text, names, journals, entry)?;
    }
    Ok(())
}

/// Puts the lines of an entry at the end of the text.
#[tactic(auto, using(crate::proofs::FloatLemmas::entry_is_exact))]
fn push_entry(
    alloc: Global,
    text: &mut Vec<u8>,
    names: &Names,
    journals: &[Entries],
    entry: &Entry,
) -> Result<(), OutOfMemory>
    requires { EventIsTold names.now journals.now entry.now.event }
    ensures { OnOk result
        (text.new.items ≡ text.old.items ++ entry_lines names.now journals.now entry.now) }
{
    let value = entry_value(alloc, names, journals, entry)?;
    push_line(alloc, text, &value)?;
    push_rows(alloc, text, rows_in(&entry.event))
}

/// An entry.
fn entry_value(
    alloc: Global,
    names: &Names,
    journals: &[Entries],
    entry: &Entry,
) -> Result<Json, OutOfMemory>
    requires { EventIsTold names.now journals.now entry.now.event }
    ensures { IfOk result (λ json. view json ≡ entry_data names.now journals.now entry.now) }
{
    let mut members = entry_members(alloc, entry)?;
    put_event(alloc, &mut members, names, journals, &entry.event)?;
    Ok(Json::Object(members))
}

/// The rows that the end of a statement tells.
fn rows_in(event: &Event) -> &[Row]
    ensures { result.now ≡ rows_in event.now }
{
    match event {
        Event::End {
            outcome: Outcome::Rows { rows, .. },
            ..
        } => rows.as_slice(),
        _ => &[],
    }
}
