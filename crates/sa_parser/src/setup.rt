//! The statements that set tables up.

ghost use Rattle.sa_parser.specs.inner.SetupReading as reading;
ghost use Rattle.sa_parser.specs.inner.Reads.{Reads};

mod column;
mod create;
mod insert;
mod key;
mod literal;

use crate::cursor::Cursor;
use crate::fault::ReadFault;
use crate::setup::create::create;
use crate::setup::insert::insert;
use sa_ast::Statement;
use std::alloc::Global;

/// A statement that sets tables up.
#[tactic(auto, unfolding(crate::specs::inner::SetupReading::setup_read, crate::specs::inner::Reading::either, crate::specs::inner::Reading::made))]
pub(crate) fn setup(alloc: Global, cursor: &mut Cursor<'_>) -> Result<Statement, ReadFault>
    ensures { Reads (reading.setup_read cursor.old) result cursor.new }
{
    if cursor.sees_word("CREATE") {
        Ok(Statement::Create(create(alloc, cursor)?))
    } else {
        Ok(Statement::Insert(insert(alloc, cursor)?))
    }
}
