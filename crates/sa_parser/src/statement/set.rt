//! SET.

ghost use Rattle.sa_parser.specs.inner.StatementReading as reading;
ghost use Rattle.sa_parser.specs.inner.Reads.{Reads};

use crate::cursor::Cursor;
use crate::fault::ReadFault;
use sa_ast::Statement;
use sa_lexer::Sign;

/// Whether plans are traced, or how many row steps a statement may make. SESSION says nothing
/// more.
#[tactic(auto, unfolding(crate::specs::inner::StatementReading::set, crate::specs::inner::Reading::perhaps, crate::specs::inner::Reading::either, crate::specs::inner::Reading::made, crate::specs::inner::Reading::then_read))]
pub(crate) fn set(cursor: &mut Cursor<'_>) -> Result<Statement, ReadFault>
    ensures { Reads (reading.set cursor.old) result cursor.new }
{
    cursor.word("SET")?;
    if cursor.sees_word("SESSION") {
        cursor.word("SESSION")?;
    }
    if cursor.sees_word("optimizer_trace") {
        set_trace(cursor)
    } else {
        set_limit(cursor)
    }
}

/// Whether plans are traced.
#[tactic(auto, unfolding(crate::specs::inner::StatementReading::set_trace, crate::specs::inner::Reading::made, crate::specs::inner::Reading::then_read))]
fn set_trace(cursor: &mut Cursor<'_>) -> Result<Statement, ReadFault>
    ensures { Reads (reading.set_trace cursor.old) result cursor.new }
{
    cursor.word("optimizer_trace")?;
    cursor.sign(Sign::Equal)?;
    Ok(Statement::SetTrace(cursor.switch()?))
}

/// How many row steps a statement may make.
#[tactic(auto, unfolding(crate::specs::inner::StatementReading::set_limit, crate::specs::inner::Reading::made, crate::specs::inner::Reading::then_read))]
fn set_limit(cursor: &mut Cursor<'_>) -> Result<Statement, ReadFault>
    ensures { Reads (reading.set_limit cursor.old) result cursor.new }
{
    cursor.word("max_row_steps")?;
    cursor.sign(Sign::Equal)?;
    Ok(Statement::SetLimit(cursor.steps()?))
}
