//! LIMIT.

ghost use Rattle.std.specs.Prelude.{◌^◌};
ghost use Rattle.sa_parser.specs.inner.Reading as reading;
ghost use Rattle.sa_parser.specs.inner.SelectReading as select;
ghost use Rattle.sa_parser.specs.inner.Reads.{Reads};

use crate::cursor::Cursor;
use crate::fault::ReadFault;
use crate::limits::Limits;
use sa_lexer::Sign;

/// What every number of rows is below.
const ROW_COUNTS: u128 = 1 << 64;

/// A number of rows.
fn row_count(cursor: &mut Cursor<'_>) -> Result<u64, ReadFault>
    ensures { Reads (reading.number_below (2 ^ 64) cursor.old) result cursor.new }
{
    let count = cursor.number_below(ROW_COUNTS)?;
    Ok(count as u64)
}

/// Whether a comma stands before the second number, and that number.
#[tactic(auto, unfolding(crate::specs::inner::SelectReading::second_limit, crate::specs::inner::Reading::made, crate::specs::inner::Reading::either, crate::specs::inner::Reading::then_read))]
fn second_limit(cursor: &mut Cursor<'_>) -> Result<(bool, u64), ReadFault>
    ensures { Reads (select.second_limit cursor.old) result cursor.new }
{
    if cursor.sees_sign(Sign::Comma) {
        cursor.sign(Sign::Comma)?;
        Ok((true, row_count(cursor)?))
    } else {
        cursor.word("OFFSET")?;
        Ok((false, row_count(cursor)?))
    }
}

/// The numbers of LIMIT, if it is written.
#[tactic(auto, unfolding(crate::specs::inner::SelectReading::limit, crate::specs::inner::Reading::made, crate::specs::inner::Reading::perhaps, crate::specs::inner::Reading::then_read))]
pub(crate) fn limit(cursor: &mut Cursor<'_>) -> Result<Option<Limits>, ReadFault>
    ensures { Reads (select.limit cursor.old) result cursor.new }
{
    if !cursor.sees_word("LIMIT") {
        return Ok(None);
    }
    cursor.word("LIMIT")?;
    let first = row_count(cursor)?;
    if !cursor.sees_second() {
        return Ok(Some(Limits {
            limit: first,
            offset: 0,
        }));
    }
    let (has_comma, second) = second_limit(cursor)?;
    Ok(Some(if has_comma {
        Limits {
            limit: second,
            offset: first,
        }
    } else {
        Limits {
            limit: first,
            offset: second,
        }
    }))
}
