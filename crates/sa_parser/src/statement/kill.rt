//! KILL.

ghost use Rattle.sa_parser.specs.inner.Reading as reading;
ghost use Rattle.sa_parser.specs.inner.StatementReading as statements;
ghost use Rattle.sa_parser.specs.inner.Reads.{Reads};

use crate::cursor::Cursor;
use crate::fault::ReadFault;
use sa_ast::{KillKind, Statement};

/// What is ended, if it is written.
#[tactic(auto, unfolding(crate::specs::inner::StatementReading::kill_kind, crate::specs::inner::Reading::perhaps, crate::specs::inner::Reading::either, crate::specs::inner::Reading::made))]
fn kill_kind(cursor: &mut Cursor<'_>) -> Result<Option<KillKind>, ReadFault>
    ensures { Reads
        (reading.perhaps statements.sees_kill_kind statements.kill_kind cursor.old) result
        cursor.new }
{
    if cursor.sees_word("CONNECTION") {
        cursor.word("CONNECTION")?;
        Ok(Some(KillKind::Connection))
    } else if cursor.sees_word("QUERY") {
        cursor.word("QUERY")?;
        Ok(Some(KillKind::Query))
    } else {
        Ok(None)
    }
}

/// The end of a session, which is what KILL alone means, or of its statement.
#[tactic(auto, unfolding(crate::specs::inner::StatementReading::kill, crate::specs::inner::Reading::made, crate::specs::inner::Reading::then_read))]
pub(crate) fn kill(cursor: &mut Cursor<'_>) -> Result<Statement, ReadFault>
    ensures { Reads (statements.kill cursor.old) result cursor.new }
{
    cursor.word("KILL")?;
    let kind = kill_kind(cursor)?.unwrap_or(KillKind::Connection);
    let id = cursor.number()?;
    Ok(Statement::Kill { kind, id })
}
