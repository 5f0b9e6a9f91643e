//! SHOW EXPLAIN and SHOW ANALYZE.

ghost use Rattle.sa_parser.specs.inner.StatementReading as reading;
ghost use Rattle.sa_parser.specs.inner.Reads.{Reads};

use crate::cursor::Cursor;
use crate::fault::ReadFault;
use crate::statement::plan::format;
use sa_ast::{AskKind, Statement};

/// What is asked of another session.
#[tactic(auto, unfolding(crate::specs::inner::StatementReading::ask_kind, crate::specs::inner::Reading::either, crate::specs::inner::Reading::made))]
fn ask_kind(cursor: &mut Cursor<'_>) -> Result<AskKind, ReadFault>
    ensures { Reads (reading.ask_kind cursor.old) result cursor.new }
{
    if cursor.sees_word("EXPLAIN") {
        cursor.word("EXPLAIN")?;
        Ok(AskKind::Explain)
    } else {
        cursor.word("ANALYZE")?;
        Ok(AskKind::Analyze)
    }
}

/// `SHOW EXPLAIN` or `SHOW ANALYZE`, and the id of the other session.
#[tactic(auto, unfolding(crate::specs::inner::StatementReading::show, crate::specs::inner::Reading::made, crate::specs::inner::Reading::then_read))]
pub(crate) fn show(cursor: &mut Cursor<'_>) -> Result<Statement, ReadFault>
    ensures { Reads (reading.show cursor.old) result cursor.new }
{
    cursor.word("SHOW")?;
    let kind = ask_kind(cursor)?;
    format(cursor)?;
    cursor.word("FOR")?;
    let id = cursor.number()?;
    Ok(Statement::Show { kind, id })
}
