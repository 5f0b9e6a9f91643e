ghost use Rattle.sa_parser.specs.inner.SelectReading as reading;
ghost use Rattle.sa_parser.specs.inner.Reads.{Reads};

use crate::cursor::Cursor;
use crate::fault::ReadFault;
use sa_ast::NameTree;
use std::alloc::Global;

/// An alias, with AS or without it, if one is written.
#[tactic(auto, unfolding(crate::specs::inner::SelectReading::alias, crate::specs::inner::Reading::perhaps, crate::specs::inner::Reading::either, crate::specs::inner::Reading::made, crate::specs::inner::Reading::then_read))]
pub(crate) fn alias(alloc: Global, cursor: &mut Cursor<'_>) -> Result<Option<NameTree>, ReadFault>
    ensures { Reads (reading.alias cursor.old) result cursor.new }
{
    if cursor.sees_word("AS") {
        cursor.word("AS")?;
        Ok(Some(cursor.name(alloc)?))
    } else if cursor.sees_name() {
        Ok(Some(cursor.name(alloc)?))
    } else {
        Ok(None)
    }
}
