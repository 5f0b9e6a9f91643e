ghost use Rattle.std.specs.Prelude.{◌≡◌, [], ◌∷◌, OnOk, IfOk};
ghost use Rattle.serde_json.specs.Data.{number, unsigned, string, put as with_member};
ghost use Rattle.serde_json.specs.View.{view, members_view};

use sa_value::OutOfMemory;
use serde_json::{Map, Value as Json, put};
use std::alloc::Global;

/// The members of an object of JSON, in the order of their keys' bytes.
pub type Members = Map<String, Json>;

/// Puts a number at a key.
pub fn put_count(
    alloc: Global,
    members: &mut Members,
    key: &str,
    count: u64,
) -> Result<(), OutOfMemory>
    ensures { OnOk result (members_view members.new.entries
        ≡ with_member key.now (number (unsigned count)) (members_view members.old.entries)) }
{
    put(members, alloc, key, Json::from(count))?;
    Ok(())
}

/// Puts a text at a key.
pub fn put_text(
    alloc: Global,
    members: &mut Members,
    key: &str,
    text: &str,
) -> Result<(), OutOfMemory>
    ensures { OnOk result (members_view members.new.entries
        ≡ with_member key.now (string text.now) (members_view members.old.entries)) }
{
    let text = Json::try_from_str(alloc, text)?;
    put(members, alloc, key, text)?;
    Ok(())
}
