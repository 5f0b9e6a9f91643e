//! ORDER BY.

ghost use Rattle.sa_parser.specs.declared.rule.Rule.TheVariants as rules;
ghost use Rattle.sa_parser.specs.inner.ExprReading.{nested_read};
ghost use Rattle.sa_parser.specs.inner.SelectReading as reading;
ghost use Rattle.sa_parser.specs.inner.Reads.{Reads};

use crate::commas::{Listed, commas};
use crate::cursor::Cursor;
use crate::expression::nested;
use crate::fault::ReadFault;
use crate::rule::Rule;
use sa_ast::{OrderTree, OrderTrees};
use sqlite_items::Items;
use std::alloc::Global;

/// Whether DESC is written, and not ASC or neither.
#[tactic(auto, unfolding(crate::specs::inner::SelectReading::direction, crate::specs::inner::Reading::made, crate::specs::inner::Reading::perhaps, crate::specs::inner::Reading::either))]
fn direction(cursor: &mut Cursor<'_>) -> Result<bool, ReadFault>
    ensures { Reads (reading.direction cursor.old) result cursor.new }
{
    if cursor.sees_word("ASC") {
        cursor.word("ASC")?;
        Ok(false)
    } else if cursor.sees_word("DESC") {
        cursor.word("DESC")?;
        Ok(true)
    } else {
        Ok(false)
    }
}

impl Listed for OrderTree {
    ghost part = { λ levels. reading.order_item_read (nested_read levels rules.Expression) };

    /// An expression by which rows are ordered, with its direction.
    #[tactic(auto, unfolding(crate::specs::inner::SelectReading::order_item_read, crate::specs::inner::Reading::placed, crate::specs::inner::Reading::made, crate::specs::inner::Reading::then_read))]
    fn read(alloc: Global, levels: usize, cursor: &mut Cursor<'_>) -> Result<OrderTree, ReadFault> {
        let place = cursor.place();
        let value = nested(alloc, levels, Rule::Expression, cursor)?;
        let down = direction(cursor)?;
        let value = value.into_inner();
        Ok(OrderTree { value, down, place })
    }
}

/// The items of ORDER BY; none where it isn't written.
#[tactic(auto, unfolding(crate::specs::inner::SelectReading::order, crate::specs::inner::Reading::perhaps, crate::specs::inner::Reading::made, crate::specs::inner::Reading::then_read))]
pub(crate) fn order(
    alloc: Global,
    levels: usize,
    cursor: &mut Cursor<'_>,
) -> Result<OrderTrees, ReadFault>
    ensures { Reads (reading.order (nested_read levels rules.Expression) cursor.old) result cursor.new }
{
    if !cursor.sees_word("ORDER") {
        return Ok(Items::new(alloc));
    }
    cursor.word("ORDER")?;
    cursor.word("BY")?;
    commas(alloc, levels, cursor)
}
