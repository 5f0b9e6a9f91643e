ghost use Rattle.sa_parser.specs.inner.StatementReading as reading;
ghost use Rattle.sa_parser.specs.inner.Reads.{Reads};

use crate::cursor::Cursor;
use crate::fault::ReadFault;
use sa_ast::Statement;
use sa_lexer::Sign;

/// The query for the last trace of the session.
#[tactic(auto, unfolding(crate::specs::inner::StatementReading::trace_rows, crate::specs::inner::Reading::made, crate::specs::inner::Reading::then_read))]
pub(crate) fn trace_rows(cursor: &mut Cursor<'_>) -> Result<Statement, ReadFault>
    ensures { Reads (reading.trace_rows cursor.old) result cursor.new }
{
    cursor.word("SELECT")?;
    cursor.sign(Sign::Star)?;
    cursor.word("FROM")?;
    cursor.word("information_schema")?;
    cursor.sign(Sign::Dot)?;
    cursor.word("optimizer_trace")?;
    Ok(Statement::TraceRows)
}
