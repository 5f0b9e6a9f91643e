//! Expressions, from OR down to NOT.

ghost use Rattle.sa_parser.specs.inner.ExprReading as reading;
ghost use Rattle.sa_parser.specs.inner.Reads.{Reads};

use crate::cursor::Cursor;
use crate::fault::ReadFault;
use crate::members::Members;
use crate::predicate::predicate;
use crate::rule::Rule;
use crate::sum::{factor, sum};
use crate::tree;
use sa_ast::ExprTree;
use sqlite_items::Boxed;
use std::alloc::Global;

/// What stands inside an expression, one level below it.
#[cycle(nesting)]
#[tactic(auto, using(crate::proofs::ReadingLevels::levels))]
pub(crate) fn nested(
    alloc: Global,
    levels: usize,
    rule: Rule,
    cursor: &mut Cursor<'_>,
) -> Result<Boxed<ExprTree>, ReadFault>
    ensures { Reads (reading.nested_read levels rule cursor.old) result cursor.new }
{
    if levels == 0 {
        return Err(cursor.refuse());
    }
    match rule {
        Rule::Expression => disjunction(alloc, levels - 1, cursor),
        Rule::Negation => negation(alloc, levels - 1, cursor),
        Rule::Sum => sum(alloc, levels - 1, cursor),
        Rule::Factor => factor(alloc, levels - 1, cursor),
    }
}

/// Conditions with OR between them.
#[cycle(nesting)]
#[tactic(auto, using(crate::proofs::ReadingChains::turns), unfolding(crate::specs::inner::ExprReading::disjunction, crate::specs::inner::Reading::chain, crate::specs::inner::Reading::made, crate::specs::inner::Reading::then_read))]
pub(crate) fn disjunction(
    alloc: Global,
    levels: usize,
    cursor: &mut Cursor<'_>,
) -> Result<Boxed<ExprTree>, ReadFault>
    ensures { Reads (reading.disjunction (reading.nested_read levels) cursor.old) result cursor.new }
{
    let mut members = Members::Alone(conjunction(alloc, levels, cursor)?);
    // Each turn takes a token.
    for _turn in 0..cursor.left() {
        if !cursor.sees_word("OR") {
            break;
        }
        let place = cursor.word("OR")?;
        let next = conjunction(alloc, levels, cursor)?;
        members = members.with_member(alloc, place, next)?;
    }
    Ok(members.into_or(alloc)?)
}

/// Conditions with AND between them.
#[cycle(nesting)]
#[tactic(auto, using(crate::proofs::ReadingChains::turns), unfolding(crate::specs::inner::ExprReading::conjunction, crate::specs::inner::Reading::chain, crate::specs::inner::Reading::made, crate::specs::inner::Reading::then_read))]
fn conjunction(
    alloc: Global,
    levels: usize,
    cursor: &mut Cursor<'_>,
) -> Result<Boxed<ExprTree>, ReadFault>
    ensures { Reads (reading.conjunction (reading.nested_read levels) cursor.old) result cursor.new }
{
    let mut members = Members::Alone(negation(alloc, levels, cursor)?);
    // Each turn takes a token.
    for _turn in 0..cursor.left() {
        if !cursor.sees_and() {
            break;
        }
        let place = cursor.and_mark()?;
        let next = negation(alloc, levels, cursor)?;
        members = members.with_member(alloc, place, next)?;
    }
    Ok(members.into_and(alloc)?)
}

/// A predicate, or NOT and another condition.
#[cycle(nesting)]
#[tactic(auto, unfolding(crate::specs::inner::ExprReading::negation, crate::specs::inner::Reading::either, crate::specs::inner::Reading::made, crate::specs::inner::Reading::then_read))]
fn negation(
    alloc: Global,
    levels: usize,
    cursor: &mut Cursor<'_>,
) -> Result<Boxed<ExprTree>, ReadFault>
    ensures { Reads (reading.negation (reading.nested_read levels) cursor.old) result cursor.new }
{
    if cursor.sees_word("NOT") {
        let place = cursor.word("NOT")?;
        let inner = nested(alloc, levels, Rule::Negation, cursor)?;
        Ok(tree::not(alloc, place, inner)?)
    } else {
        predicate(alloc, levels, cursor)
    }
}
