//! The values of an INSERT.

ghost use Rattle.sa_parser.specs.inner.Reading as reading;
ghost use Rattle.sa_parser.specs.inner.SetupReading as setup;
ghost use Rattle.sa_parser.specs.inner.Reads.{Reads};

use crate::cursor::Cursor;
use crate::fault::ReadFault;
use crate::value::number_value;
use sa_lexer::Sign;
use sa_value::{Row, Value};
use std::alloc::Global;

/// What every number of a value is below, its sign apart.
const MAGNITUDES: u128 = 1 << 127;

/// One or more values, with commas between them.
#[tactic(auto, using(crate::proofs::ReadingChains::turns), unfolding(crate::specs::inner::Reading::chain, crate::specs::inner::Reading::made, crate::specs::inner::Reading::then_read))]
pub(crate) fn literals(alloc: Global, cursor: &mut Cursor<'_>) -> Result<Row, ReadFault>
    ensures { Reads (reading.commas setup.literal cursor.old) result cursor.new }
{
    // A row is made at its size: an INSERT can have millions.
    let mut values = Row::from_vec(Vec::with_capacity(alloc, cursor.values_ahead())?);
    values.push(literal(alloc, cursor)?)?;
    // Each turn takes a token.
    for _turn in 0..cursor.left() {
        if !cursor.sees_sign(Sign::Comma) {
            break;
        }
        cursor.sign(Sign::Comma)?;
        values.push(literal(alloc, cursor)?)?;
    }
    Ok(values)
}

/// A value: a number with a sign or without one, a text, or NULL.
#[tactic(auto, unfolding(crate::specs::inner::SetupReading::literal, crate::specs::inner::Reading::either, crate::specs::inner::Reading::made, crate::specs::inner::Reading::then_read))]
fn literal(alloc: Global, cursor: &mut Cursor<'_>) -> Result<Value, ReadFault>
    ensures { Reads (setup.literal cursor.old) result cursor.new }
{
    if cursor.sees_sign(Sign::Minus) {
        cursor.sign(Sign::Minus)?;
        let number = cursor.number_below(MAGNITUDES)?;
        Ok(number_value(0 - number as i128))
    } else if cursor.sees_sign(Sign::Plus) {
        cursor.sign(Sign::Plus)?;
        let number = cursor.number_below(MAGNITUDES)?;
        Ok(number_value(number as i128))
    } else {
        cursor.value(alloc)
    }
}
