ghost use Rattle.std.specs.Prelude.{◌≡◌, ◌++◌, codes, IfOk, OnOk, false};
ghost use Rattle.std.specs.List.{flat_map};
ghost use Rattle.serde_json.specs.Data.{boolean, object, no_members};
ghost use Rattle.serde_json.specs.Data.{put as with_member};
ghost use Rattle.serde_json.specs.View.{view};
ghost use Rattle.serde_json.specs.Written.{has_float};
ghost use Rattle.sa_explain.specs.Values.{values_data};
ghost use Rattle.sa_transcript.specs.Transcript.{done_line, line_of, row_line};

use crate::object::Members;
use sa_explain::values_json;
use sa_value::{OutOfMemory, Row, Value};
use serde_json::{Value as Json, put};
use std::alloc::Global;

/// Puts a line at the end of the text.
#[tactic(auto, unfolding(crate::specs::Transcript::line_of))]
pub fn push_line(alloc: Global, text: &mut Vec<u8>, value: &Json) -> Result<(), OutOfMemory>
    requires { has_float (view value.now) ≡ false }
    ensures { OnOk result (text.new.items ≡ text.old.items ++ line_of (view value.now)) }
{
    let line = value.to_string(alloc)?;
    text.extend_from_slice(line.as_bytes())?;
    text.push(b'\n')?;
    Ok(())
}

/// Puts a line for each row at the end of the text.
#[tactic(auto, using(crate::proofs::FloatLemmas::row_is_exact))]
pub fn push_rows(alloc: Global, text: &mut Vec<u8>, rows: &[Row]) -> Result<(), OutOfMemory>
    ensures { OnOk result (text.new.items ≡ text.old.items ++ flat_map row_line rows.now) }
{
    for row in rows {
        push_line(alloc, text, &row_value(alloc, row.as_slice())?)?;
    }
    Ok(())
}

/// Puts the last line at the end of the text.
pub fn push_done(alloc: Global, text: &mut Vec<u8>) -> Result<(), OutOfMemory>
    ensures { OnOk result (text.new.items ≡ text.old.items ++ done_line) }
{
    let mut members = Members::new(alloc);
    put(&mut members, alloc, "done", Json::Bool(true))?;
    push_line(alloc, text, &Json::Object(members))
}

/// A row.
fn row_value(alloc: Global, row: &[Value]) -> Result<Json, OutOfMemory>
    ensures { IfOk result (λ json. view json
        ≡ object (with_member (codes "row") (values_data row.now) no_members)) }
{
    let mut members = Members::new(alloc);
    let values = values_json(alloc, row)?;
    put(&mut members, alloc, "row", values)?;
    Ok(Json::Object(members))
}
