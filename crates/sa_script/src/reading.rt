ghost use Rattle.std.specs.Prelude.{◌≤◌, length};
ghost use Rattle.sa_script.specs.Script.{most_bytes, IsScriptOf};

use crate::fault::{ScriptFault, ScriptKind};
use crate::piece::piece_at;
use crate::said::Said;
use crate::says::take_piece;
use crate::script::Script;
use std::alloc::Global;
use std::str::from_utf8;

/// The most bytes of a script: 16 MiB.
const MOST_BYTES: usize = 16_777_216;

/// The script that a text is.
///
/// A script is UTF-8. Its pieces are ended by `;`, and the last one's may be missing.
///
/// # Errors
///
/// The first fault of the text, with its place and, where a row is at fault, its number; or want of
/// memory.
pub fn read_script(alloc: Global, bytes: &[u8]) -> Result<Script, ScriptFault>
    ensures { IsScriptOf bytes.now result }
{
    if bytes.len() > MOST_BYTES {
        return Err(ScriptFault::at(ScriptKind::TooLong, MOST_BYTES));
    }
    match from_utf8(bytes) {
        Ok(script) => read_pieces(alloc, script),
        Err(error) => Err(ScriptFault::at(ScriptKind::NotUtf8, error.valid_up_to())),
    }
}

/// The script that a text of the right size is.
fn read_pieces(alloc: Global, script: &str) -> Result<Script, ScriptFault>
    requires { length script.now ≤ most_bytes }
    ensures { IsScriptOf script.now result }
{
    let mut said = Said::new(alloc);
    let mut place = 0;
    loop {
        let piece = piece_at(script, place)?;
        let skipped = take_piece(alloc, &mut said, script, &piece)?;
        if !piece.is_closed() {
            return Ok(said.into_script());
        }
        place = piece.behind() + skipped;
    }
}
