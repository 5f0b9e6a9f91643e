//! Lists with commas between their parts.

ghost use Rattle.sa_parser.specs.inner.Reading as reading;
ghost use Rattle.sa_parser.specs.inner.Reads.{Reads};

use crate::cursor::Cursor;
use crate::fault::ReadFault;
use sa_lexer::Sign;
use sqlite_items::Items;
use std::alloc::Global;

/// What a list with commas can be of.
pub(crate) trait Listed: Drop + Sized {
    ghost use Rattle.std.specs.Prelude.{ℕ};
    ghost use Rattle.sa_parser.specs.inner.Reading.{Reader};

    ghost part: { ℕ → Reader Self };

    /// One part of such a list, with expressions so many levels deep.
    fn read(alloc: Global, levels: usize, cursor: &mut Cursor<'_>) -> Result<Self, ReadFault>
        ensures { Reads (part levels cursor.old) result cursor.new };
}

/// One or more parts, with commas between them.
#[tactic(auto, using(crate::proofs::ReadingChains::turns), unfolding(crate::specs::inner::Reading::made, crate::specs::inner::Reading::then_read, crate::specs::inner::Reading::chain))]
pub(crate) fn commas<T: Listed>(
    alloc: Global,
    levels: usize,
    cursor: &mut Cursor<'_>,
) -> Result<Items<T>, ReadFault>
    ensures { Reads (reading.commas (T.part levels) cursor.old) result cursor.new }
{
    let mut parts = Items::new(alloc);
    parts.push(T::read(alloc, levels, cursor)?)?;
    // Each turn takes a token.
    for _turn in 0..cursor.left() {
        if !cursor.sees_sign(Sign::Comma) {
            break;
        }
        cursor.sign(Sign::Comma)?;
        parts.push(T::read(alloc, levels, cursor)?)?;
    }
    Ok(parts)
}
