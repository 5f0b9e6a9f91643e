//! A statement of a session, which is kept as its source text.

ghost use Rattle.std.specs.Prelude.{◌≡◌, ◌+◌, ◌<◌, ◌^◌, length, Some, None, OnOk, IfErr};
ghost use Rattle.sa_script.specs.Piece as spec;
ghost use Rattle.sa_script.specs.Said.{with_statement as with_source, last_session};
ghost use Rattle.sa_script.specs.Says.{statement_fault};
ghost use Rattle.sa_script.specs.inner.Tells.{Tells};

use crate::fault::{ScriptFault, ScriptKind};
use crate::piece::Piece;
use crate::script::SessionScripts;
use crate::source::{front_space, source_of};
use sa_value::{OutOfMemory, Text};
use std::alloc::Global;

/// The most statements of a session.
const MOST_STATEMENTS: usize = 256;

/// The most bytes of a statement.
const MOST_STATEMENT_BYTES: usize = 65_536;

/// Gives a statement to the last session.
pub(crate) fn put_statement(
    alloc: Global,
    sessions: &mut SessionScripts,
    piece: &Piece<'_>,
) -> Result<(), ScriptFault>
    requires { piece.now.place + length piece.now.text < 2 ^ 64 }
    ensures faultless { OnOk result (statement_fault sessions.old piece.now ≡ None) }
    ensures ok { OnOk result (sessions.new ≡ with_source sessions.old (spec.source_of piece.now.text)) }
    ensures fault { IfErr result
        (Tells (λ fault. statement_fault sessions.old piece.now ≡ Some fault)) }
{
    let place = piece.place() + front_space(piece.text());
    if last_len(sessions) >= MOST_STATEMENTS {
        return Err(ScriptFault::at(ScriptKind::TooManyStatements, place));
    }
    let source = source_of(piece.text());
    if source.len() > MOST_STATEMENT_BYTES {
        return Err(ScriptFault::at(ScriptKind::StatementTooLong, place));
    }
    let source = Text::from_str(alloc, source)?;
    with_statement(alloc, sessions, source)?;
    Ok(())
}

/// How many statements the last session has.
fn last_len(sessions: &SessionScripts) -> usize
    ensures { result ≡ length (last_session sessions.now) }
{
    match sessions.as_slice() {
        [.., last] => last.len(),
        [] => 0,
    }
}

/// Puts a source text behind those of the last session.
fn with_statement(
    alloc: Global,
    sessions: &mut SessionScripts,
    source: Text,
) -> Result<(), OutOfMemory>
    ensures { OnOk result (sessions.new ≡ with_source sessions.old source) }
{
    let mut all = std::mem::replace(sessions, SessionScripts::new(alloc)).into_vec();
    let Some(mut last) = all.pop() else {
        return Ok(());
    };
    last.push(source)?;
    all.push(last)?;
    *sessions = SessionScripts::from_vec(all);
    Ok(())
}
