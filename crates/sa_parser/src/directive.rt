//! The directives of a script.

ghost use Rattle.sa_parser.specs.inner.DirectiveReading as reading;
ghost use Rattle.sa_parser.specs.inner.Reads.{Reads};

use crate::cursor::Cursor;
use crate::fault::ReadFault;
use sa_ast::{Directive, NumberTrees};
use sqlite_items::Items;
use std::alloc::Global;

/// A directive.
#[tactic(auto, unfolding(crate::specs::inner::DirectiveReading::directive_read, crate::specs::inner::Reading::either, crate::specs::inner::Reading::made, crate::specs::inner::Reading::then_read))]
pub(crate) fn directive(alloc: Global, cursor: &mut Cursor<'_>) -> Result<Directive, ReadFault>
    ensures { Reads (reading.directive_read cursor.old) result cursor.new }
{
    if cursor.sees_word("QUANTUM") {
        cursor.word("QUANTUM")?;
        Ok(Directive::Quantum(cursor.placed_number()?))
    } else if cursor.sees_word("TURNS") {
        cursor.word("TURNS")?;
        Ok(Directive::Turns(cursor.placed_number()?))
    } else if cursor.sees_word("LOAD") {
        load(alloc, cursor)
    } else if cursor.sees_word("SESSION") {
        cursor.word("SESSION")?;
        Ok(Directive::Session(cursor.placed_number()?))
    } else {
        schedule(alloc, cursor)
    }
}

/// `LOAD DATA`, a table, and how many bytes its rows take.
#[tactic(auto, unfolding(crate::specs::inner::DirectiveReading::load, crate::specs::inner::Reading::made, crate::specs::inner::Reading::then_read))]
fn load(alloc: Global, cursor: &mut Cursor<'_>) -> Result<Directive, ReadFault>
    ensures { Reads (reading.load cursor.old) result cursor.new }
{
    cursor.word("LOAD")?;
    cursor.word("DATA")?;
    let table = cursor.name(alloc)?;
    cursor.word("BYTES")?;
    let bytes = cursor.placed_number()?;
    Ok(Directive::Load { table, bytes })
}

/// `SCHEDULE` and the sessions that have the turns.
#[tactic(auto, unfolding(crate::specs::inner::DirectiveReading::schedule, crate::specs::inner::Reading::made, crate::specs::inner::Reading::then_read))]
fn schedule(alloc: Global, cursor: &mut Cursor<'_>) -> Result<Directive, ReadFault>
    ensures { Reads (reading.schedule cursor.old) result cursor.new }
{
    cursor.word("SCHEDULE")?;
    Ok(Directive::Schedule(numbers(alloc, cursor)?))
}

/// One or more numbers, one behind another.
#[tactic(auto, using(crate::proofs::ReadingChains::turns), unfolding(crate::specs::inner::DirectiveReading::numbers, crate::specs::inner::Reading::chain, crate::specs::inner::Reading::made))]
fn numbers(alloc: Global, cursor: &mut Cursor<'_>) -> Result<NumberTrees, ReadFault>
    ensures { Reads (reading.numbers cursor.old) result cursor.new }
{
    let mut numbers = Items::new(alloc);
    numbers.push(cursor.placed_number()?)?;
    // Each turn takes a token.
    for _turn in 0..cursor.left() {
        if !cursor.sees_number() {
            break;
        }
        numbers.push(cursor.placed_number()?)?;
    }
    Ok(numbers)
}
