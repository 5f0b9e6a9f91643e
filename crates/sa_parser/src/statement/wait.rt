ghost use Rattle.sa_parser.specs.inner.StatementReading as reading;
ghost use Rattle.sa_parser.specs.inner.Reads.{Reads};

use crate::cursor::Cursor;
use crate::fault::ReadFault;
use sa_ast::Statement;

/// `WAIT FOR id AT n`: until a statement of session `id` has made `n` row steps.
#[tactic(auto, unfolding(crate::specs::inner::StatementReading::wait, crate::specs::inner::Reading::made, crate::specs::inner::Reading::then_read))]
pub(crate) fn wait(cursor: &mut Cursor<'_>) -> Result<Statement, ReadFault>
    ensures { Reads (reading.wait cursor.old) result cursor.new }
{
    cursor.word("WAIT")?;
    cursor.word("FOR")?;
    let id = cursor.number()?;
    cursor.word("AT")?;
    let at = cursor.step_count()?;
    Ok(Statement::Wait { id, at })
}
