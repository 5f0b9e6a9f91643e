//! The expressions that no operator takes apart.

ghost use Rattle.sa_parser.specs.inner.ExprReading as reading;
ghost use Rattle.sa_parser.specs.inner.Reading.{either, made, sees_sign, sign};
ghost use Rattle.sa_parser.specs.inner.Reads.{Reads};

use crate::cursor::Cursor;
use crate::expression::nested;
use crate::fault::ReadFault;
use crate::rule::Rule;
use crate::tree;
use sa_ast::ExprTree;
use sa_lexer::Sign;
use sqlite_items::Boxed;
use std::alloc::Global;

/// An expression in brackets, the call of an aggregate, a column, or a token that is an
/// expression by itself.
#[cycle(nesting)]
#[tactic(auto, unfolding(crate::specs::inner::ExprReading::primary, crate::specs::inner::Reading::either, crate::specs::inner::Reading::made, crate::specs::inner::Reading::then_read))]
pub(crate) fn primary(
    alloc: Global,
    levels: usize,
    cursor: &mut Cursor<'_>,
) -> Result<Boxed<ExprTree>, ReadFault>
    ensures { Reads (reading.primary (reading.nested_read levels) cursor.old) result cursor.new }
{
    if cursor.sees_sign(Sign::LeftParen) {
        cursor.sign(Sign::LeftParen)?;
        let inner = nested(alloc, levels, Rule::Expression, cursor)?;
        cursor.sign(Sign::RightParen)?;
        Ok(inner)
    } else if cursor.sees_call() {
        call(alloc, levels, cursor)
    } else if cursor.sees_name() {
        column(alloc, cursor)
    } else {
        cursor.atom(alloc)
    }
}

/// The call of an aggregate.
#[cycle(nesting)]
#[tactic(auto, unfolding(crate::specs::inner::ExprReading::call, crate::specs::inner::Reading::either, crate::specs::inner::Reading::made, crate::specs::inner::Reading::then_read))]
fn call(alloc: Global, levels: usize, cursor: &mut Cursor<'_>) -> Result<Boxed<ExprTree>, ReadFault>
    ensures { Reads (reading.call (reading.nested_read levels) cursor.old) result cursor.new }
{
    if cursor.sees_word("COUNT") {
        let place = cursor.word("COUNT")?;
        cursor.sign(Sign::LeftParen)?;
        let argument = counted(alloc, levels, cursor)?;
        cursor.sign(Sign::RightParen)?;
        Ok(tree::count(alloc, place, argument)?)
    } else {
        let (place, call) = cursor.aggregate()?;
        cursor.sign(Sign::LeftParen)?;
        let argument = nested(alloc, levels, Rule::Sum, cursor)?;
        cursor.sign(Sign::RightParen)?;
        Ok(tree::aggregate(alloc, place, call, argument)?)
    }
}

/// What COUNT is of: no argument, where it is of all rows, or one.
#[cycle(nesting)]
#[tactic(auto, unfolding(crate::specs::inner::Reading::either, crate::specs::inner::Reading::made))]
fn counted(
    alloc: Global,
    levels: usize,
    cursor: &mut Cursor<'_>,
) -> Result<Option<Boxed<ExprTree>>, ReadFault>
    ensures { Reads (either (sees_sign Sign.Star) (made (λ _. None) (sign Sign.Star))
        (made Some (reading.nested_read levels Rule.Sum)) cursor.old) result cursor.new }
{
    if cursor.sees_sign(Sign::Star) {
        cursor.sign(Sign::Star)?;
        Ok(None)
    } else {
        Ok(Some(nested(alloc, levels, Rule::Sum, cursor)?))
    }
}

/// A column, after the name of its table and a dot or without them.
#[tactic(auto, unfolding(crate::specs::inner::ExprReading::column, crate::specs::inner::Reading::perhaps, crate::specs::inner::Reading::made, crate::specs::inner::Reading::then_read))]
pub(crate) fn column(alloc: Global, cursor: &mut Cursor<'_>) -> Result<Boxed<ExprTree>, ReadFault>
    ensures { Reads (reading.column cursor.old) result cursor.new }
{
    let first = cursor.name(alloc)?;
    if cursor.sees_sign(Sign::Dot) {
        cursor.sign(Sign::Dot)?;
        let second = cursor.name(alloc)?;
        Ok(tree::column(alloc, first, Some(second))?)
    } else {
        Ok(tree::column(alloc, first, None)?)
    }
}
