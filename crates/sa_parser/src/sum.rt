//! Sums and products.

ghost use Rattle.sa_parser.specs.inner.ExprReading as reading;
ghost use Rattle.sa_parser.specs.inner.Reads.{Reads};

use crate::cursor::Cursor;
use crate::expression::nested;
use crate::fault::ReadFault;
use crate::primary::primary;
use crate::rule::Rule;
use crate::tree;
use sa_ast::ExprTree;
use sa_lexer::Sign;
use sqlite_items::Boxed;
use std::alloc::Global;

/// Terms with a plus or a minus between them.
#[cycle(nesting)]
#[tactic(auto, using(crate::proofs::ReadingChains::turns), unfolding(crate::specs::inner::ExprReading::sum, crate::specs::inner::Reading::chain, crate::specs::inner::Reading::made, crate::specs::inner::Reading::then_read))]
pub(crate) fn sum(
    alloc: Global,
    levels: usize,
    cursor: &mut Cursor<'_>,
) -> Result<Boxed<ExprTree>, ReadFault>
    ensures { Reads (reading.sum (reading.nested_read levels) cursor.old) result cursor.new }
{
    let mut sum = term(alloc, levels, cursor)?;
    // Each turn takes a token.
    for _turn in 0..cursor.left() {
        if !cursor.sees_additive() {
            break;
        }
        let sign = cursor.additive()?;
        let next = term(alloc, levels, cursor)?;
        sum = tree::sum(alloc, sum, sign, next)?;
    }
    Ok(sum)
}

/// Factors with a star between them.
#[cycle(nesting)]
#[tactic(auto, using(crate::proofs::ReadingChains::turns), unfolding(crate::specs::inner::ExprReading::term, crate::specs::inner::Reading::chain, crate::specs::inner::Reading::made, crate::specs::inner::Reading::then_read))]
fn term(alloc: Global, levels: usize, cursor: &mut Cursor<'_>) -> Result<Boxed<ExprTree>, ReadFault>
    ensures { Reads (reading.term (reading.nested_read levels) cursor.old) result cursor.new }
{
    let mut product = factor(alloc, levels, cursor)?;
    // Each turn takes a token.
    for _turn in 0..cursor.left() {
        if !cursor.sees_sign(Sign::Star) {
            break;
        }
        let place = cursor.sign(Sign::Star)?;
        let next = factor(alloc, levels, cursor)?;
        product = tree::times(alloc, product, place, next)?;
    }
    Ok(product)
}

/// What has a sign in front, or stands by itself.
#[cycle(nesting)]
#[tactic(auto, unfolding(crate::specs::inner::ExprReading::factor, crate::specs::inner::Reading::either, crate::specs::inner::Reading::made, crate::specs::inner::Reading::then_read))]
pub(crate) fn factor(
    alloc: Global,
    levels: usize,
    cursor: &mut Cursor<'_>,
) -> Result<Boxed<ExprTree>, ReadFault>
    ensures { Reads (reading.factor (reading.nested_read levels) cursor.old) result cursor.new }
{
    if cursor.sees_sign(Sign::Minus) {
        let place = cursor.sign(Sign::Minus)?;
        let inner = nested(alloc, levels, Rule::Factor, cursor)?;
        Ok(tree::minus(alloc, place, inner)?)
    } else if cursor.sees_sign(Sign::Plus) {
        cursor.sign(Sign::Plus)?;
        nested(alloc, levels, Rule::Factor, cursor)
    } else {
        primary(alloc, levels, cursor)
    }
}
