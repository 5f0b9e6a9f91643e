//! The select list.

ghost use Rattle.sa_parser.specs.declared.rule.Rule.TheVariants as rules;
ghost use Rattle.sa_parser.specs.inner.ExprReading.{nested_read};
ghost use Rattle.sa_parser.specs.inner.SelectReading as reading;

use crate::commas::Listed;
use crate::cursor::Cursor;
use crate::expression::nested;
use crate::fault::ReadFault;
use crate::rule::Rule;
use crate::select::alias::alias;
use sa_ast::{ItemNode, ItemTree};
use sa_lexer::Sign;
use std::alloc::Global;

impl Listed for ItemTree {
    ghost part = { λ levels. reading.item (nested_read levels rules.Expression) };

    /// `*`, `t.*`, or an expression with its alias.
    #[tactic(auto, unfolding(crate::specs::inner::SelectReading::item, crate::specs::inner::Reading::either, crate::specs::inner::Reading::placed, crate::specs::inner::Reading::made, crate::specs::inner::Reading::then_read))]
    fn read(alloc: Global, levels: usize, cursor: &mut Cursor<'_>) -> Result<ItemTree, ReadFault> {
        if cursor.sees_sign(Sign::Star) {
            let place = cursor.sign(Sign::Star)?;
            let item = ItemNode::Star;
            Ok(ItemTree { item, place })
        } else if cursor.sees_table_star() {
            let table = cursor.name(alloc)?;
            cursor.sign(Sign::Dot)?;
            cursor.sign(Sign::Star)?;
            let place = table.place;
            let item = ItemNode::TableStar(table);
            Ok(ItemTree { item, place })
        } else {
            let place = cursor.place();
            let value = nested(alloc, levels, Rule::Expression, cursor)?;
            let alias = alias(alloc, cursor)?;
            let value = value.into_inner();
            let item = ItemNode::Value { value, alias };
            Ok(ItemTree { item, place })
        }
    }
}
