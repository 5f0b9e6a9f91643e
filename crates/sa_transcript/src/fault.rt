ghost use Rattle.std.specs.Prelude.{◌≡◌, ◌≢◌, ℕ, Option, IfOk, OnOk};
ghost use Rattle.serde_json.specs.View.{view, members_view};
ghost use Rattle.sa_script.specs.declared.fault.ScriptKind.{ScriptKind as Kind};
ghost use Rattle.sa_transcript.specs.FaultLine.{fault_data, fault_text, with_row};

use crate::names::kind_name;
use crate::object::{Members, put_count, put_text};
use crate::row::push_line;
use sa_script::{ScriptFault, ScriptKind};
use sa_value::OutOfMemory;
use serde_json::Value as Json;
use std::alloc::Global;

/// The line that tells why a text is no script: the name of its fault, the byte, and where a row is
/// at fault the row's number. That memory ran out while the text was read is no fault of the text.
/// The only error is that memory runs out here.
pub fn fault_line(alloc: Global, fault: &ScriptFault) -> Result<Vec<u8>, OutOfMemory>
    requires bad { fault.now ≢ ScriptFault.OutOfMemory }
    ensures { IfOk result (λ text. (kind : Kind) (place : ℕ) (line : Option ℕ) →
        fault.now ≡ ScriptFault.Bad kind place line →
        text.items ≡ fault_text (record { kind = kind; place = place; line = line })) }
{
    match *fault {
        ScriptFault::Bad { kind, place, line } => bad_line(alloc, kind, place, line),
        ScriptFault::OutOfMemory => unreachable!(),
    }
}

/// The line of a fault of this kind, at this byte, and of this row.
#[tactic(auto, using(crate::proofs::FloatLemmas::fault_is_exact))]
fn bad_line(
    alloc: Global,
    kind: ScriptKind,
    place: usize,
    line: Option<u64>,
) -> Result<Vec<u8>, OutOfMemory>
    ensures { IfOk result (λ text. text.items
        ≡ fault_text (record { kind = kind; place = place; line = line })) }
{
    let value = fault_value(alloc, kind, place, line)?;
    let mut text = Vec::new(alloc);
    push_line(alloc, &mut text, &value)?;
    Ok(text)
}

/// A fault of a script.
fn fault_value(
    alloc: Global,
    kind: ScriptKind,
    place: usize,
    line: Option<u64>,
) -> Result<Json, OutOfMemory>
    ensures { IfOk result (λ json. view json
        ≡ fault_data (record { kind = kind; place = place; line = line })) }
{
    let mut members = Members::new(alloc);
    put_count(alloc, &mut members, "place", place as u64)?;
    put_row(alloc, &mut members, line)?;
    put_text(alloc, &mut members, "fault", kind_name(kind))?;
    Ok(Json::Object(members))
}

/// Puts the number of the row that is at fault, where one is.
fn put_row(alloc: Global, members: &mut Members, line: Option<u64>) -> Result<(), OutOfMemory>
    ensures { OnOk result (members_view members.new.entries
        ≡ with_row line (members_view members.old.entries)) }
{
    match line {
        Some(number) => put_count(alloc, members, "line", number),
        None => Ok(()),
    }
}
