//! Predicates: a sum, and what is said of it.

ghost use Rattle.sa_parser.specs.inner.ExprReading as reading;
ghost use Rattle.std.specs.Prelude.{codes};
ghost use Rattle.sa_parser.specs.inner.Reading.{commas, either, sees_word};
ghost use Rattle.sa_parser.specs.inner.Reads.{Reads};

use crate::cursor::Cursor;
use crate::fault::ReadFault;
use crate::sum::sum;
use crate::tail::{PlacedTail, Tail};
use crate::tree;
use sa_ast::{ExprTree, ExprTrees};
use sa_lexer::Sign;
use sqlite_items::{Boxed, Items};
use std::alloc::Global;

/// A sum, alone or with what makes a predicate of it.
#[cycle(nesting)]
#[tactic(auto, unfolding(crate::specs::inner::ExprReading::predicate, crate::specs::inner::Reading::perhaps, crate::specs::inner::Reading::made, crate::specs::inner::Reading::then_read))]
pub(crate) fn predicate(
    alloc: Global,
    levels: usize,
    cursor: &mut Cursor<'_>,
) -> Result<Boxed<ExprTree>, ReadFault>
    ensures { Reads (reading.predicate (reading.nested_read levels) cursor.old) result cursor.new }
{
    let value = sum(alloc, levels, cursor)?;
    if cursor.sees_predicate() {
        let tail = predicate_part(alloc, levels, cursor)?;
        Ok(tree::predicate(alloc, value, tail)?)
    } else {
        Ok(value)
    }
}

/// What makes a predicate of the sum before it.
#[cycle(nesting)]
#[tactic(auto, unfolding(crate::specs::inner::ExprReading::predicate_part, crate::specs::inner::Reading::either))]
fn predicate_part(
    alloc: Global,
    levels: usize,
    cursor: &mut Cursor<'_>,
) -> Result<PlacedTail, ReadFault>
    ensures { Reads (reading.predicate_part (reading.nested_read levels) cursor.old) result cursor.new }
{
    if cursor.sees_comparison() {
        compare_part(alloc, levels, cursor)
    } else if cursor.sees_word("IS") {
        null_part(cursor)
    } else {
        range_part(alloc, levels, cursor)
    }
}

/// A comparison with another sum.
#[cycle(nesting)]
#[tactic(auto, unfolding(crate::specs::inner::ExprReading::compare_part, crate::specs::inner::Reading::made, crate::specs::inner::Reading::then_read))]
fn compare_part(
    alloc: Global,
    levels: usize,
    cursor: &mut Cursor<'_>,
) -> Result<PlacedTail, ReadFault>
    ensures { Reads (reading.compare_part (reading.nested_read levels) cursor.old) result cursor.new }
{
    let (op, place) = cursor.comparison()?;
    let right = sum(alloc, levels, cursor)?;
    let tail = Tail::Compare { op, right };
    Ok(PlacedTail { place, tail })
}

/// `IS NULL` or `IS NOT NULL`.
#[tactic(auto, unfolding(crate::specs::inner::ExprReading::null_part, crate::specs::inner::Reading::perhaps, crate::specs::inner::Reading::made, crate::specs::inner::Reading::then_read))]
fn null_part(cursor: &mut Cursor<'_>) -> Result<PlacedTail, ReadFault>
    ensures { Reads (reading.null_part cursor.old) result cursor.new }
{
    let place = cursor.word("IS")?;
    let negated = cursor.sees_word("NOT");
    if negated {
        cursor.word("NOT")?;
    }
    cursor.word("NULL")?;
    let tail = Tail::IsNull { negated };
    Ok(PlacedTail { place, tail })
}

/// `BETWEEN` or `IN`, with NOT in front or without it.
#[cycle(nesting)]
#[tactic(auto, unfolding(crate::specs::inner::ExprReading::range_part, crate::specs::inner::Reading::either, crate::specs::inner::Reading::perhaps, crate::specs::inner::Reading::made, crate::specs::inner::Reading::then_read))]
fn range_part(
    alloc: Global,
    levels: usize,
    cursor: &mut Cursor<'_>,
) -> Result<PlacedTail, ReadFault>
    ensures { Reads (reading.range_part (reading.nested_read levels) cursor.old) result cursor.new }
{
    if !cursor.sees_word("NOT") {
        return plain_range_part(alloc, levels, cursor);
    }
    let place = cursor.word("NOT")?;
    let PlacedTail { tail, .. } = plain_range_part(alloc, levels, cursor)?;
    Ok(PlacedTail {
        place,
        tail: tail.negated(),
    })
}

/// `BETWEEN` or `IN`.
#[cycle(nesting)]
#[tactic(auto, unfolding(crate::specs::inner::Reading::either))]
fn plain_range_part(
    alloc: Global,
    levels: usize,
    cursor: &mut Cursor<'_>,
) -> Result<PlacedTail, ReadFault>
    ensures { Reads
        (either (sees_word (codes "BETWEEN")) (reading.between_part (reading.nested_read levels))
        (reading.among_part (reading.nested_read levels)) cursor.old) result cursor.new }
{
    if cursor.sees_word("BETWEEN") {
        between_part(alloc, levels, cursor)
    } else {
        among_part(alloc, levels, cursor)
    }
}

/// Between two sums.
#[cycle(nesting)]
#[tactic(auto, unfolding(crate::specs::inner::ExprReading::between_part, crate::specs::inner::Reading::made, crate::specs::inner::Reading::then_read))]
fn between_part(
    alloc: Global,
    levels: usize,
    cursor: &mut Cursor<'_>,
) -> Result<PlacedTail, ReadFault>
    ensures { Reads (reading.between_part (reading.nested_read levels) cursor.old) result cursor.new }
{
    let place = cursor.word("BETWEEN")?;
    let low = sum(alloc, levels, cursor)?;
    cursor.word("AND")?;
    let high = sum(alloc, levels, cursor)?;
    let tail = Tail::Between {
        low,
        high,
        negated: false,
    };
    Ok(PlacedTail { place, tail })
}

/// Among some sums.
#[cycle(nesting)]
#[tactic(auto, unfolding(crate::specs::inner::ExprReading::among_part, crate::specs::inner::Reading::made, crate::specs::inner::Reading::then_read))]
fn among_part(
    alloc: Global,
    levels: usize,
    cursor: &mut Cursor<'_>,
) -> Result<PlacedTail, ReadFault>
    ensures { Reads (reading.among_part (reading.nested_read levels) cursor.old) result cursor.new }
{
    let place = cursor.word("IN")?;
    cursor.sign(Sign::LeftParen)?;
    let list = sums(alloc, levels, cursor)?;
    cursor.sign(Sign::RightParen)?;
    let tail = Tail::Among {
        list,
        negated: false,
    };
    Ok(PlacedTail { place, tail })
}

/// One or more sums, with commas between them.
#[cycle(nesting)]
#[tactic(auto, using(crate::proofs::ReadingChains::turns), unfolding(crate::specs::inner::Reading::chain, crate::specs::inner::Reading::made, crate::specs::inner::Reading::then_read))]
fn sums(alloc: Global, levels: usize, cursor: &mut Cursor<'_>) -> Result<ExprTrees, ReadFault>
    ensures { Reads (commas (reading.sum (reading.nested_read levels)) cursor.old) result cursor.new }
{
    let first = sum(alloc, levels, cursor)?;
    let mut sums = Items::new(alloc);
    sums.push(first.into_inner())?;
    // Each turn takes a token.
    for _turn in 0..cursor.left() {
        if !cursor.sees_sign(Sign::Comma) {
            break;
        }
        cursor.sign(Sign::Comma)?;
        let next = sum(alloc, levels, cursor)?;
        sums.push(next.into_inner())?;
    }
    Ok(sums)
}
