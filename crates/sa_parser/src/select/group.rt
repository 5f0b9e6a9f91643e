//! GROUP BY.

ghost use Rattle.sa_parser.specs.declared.rule.Rule.TheVariants as rules;
ghost use Rattle.sa_parser.specs.inner.ExprReading.{nested_read};
ghost use Rattle.sa_parser.specs.inner.Reading as reading;
ghost use Rattle.sa_parser.specs.inner.SelectReading as select;
ghost use Rattle.sa_parser.specs.SelectTree as trees;
ghost use Rattle.sa_parser.specs.inner.Reads.{Reads};

use crate::commas::{Listed, commas};
use crate::cursor::Cursor;
use crate::expression::nested;
use crate::fault::ReadFault;
use crate::rule::Rule;
use sa_ast::{GroupTree, GroupTrees};
use sqlite_items::Items;
use std::alloc::Global;

impl Listed for GroupTree {
    ghost part = { λ levels. reading.placed trees.group_item (nested_read levels rules.Expression) };

    /// An expression by which rows are grouped.
    #[tactic(auto, unfolding(crate::specs::inner::Reading::placed))]
    fn read(alloc: Global, levels: usize, cursor: &mut Cursor<'_>) -> Result<GroupTree, ReadFault> {
        let place = cursor.place();
        let value = nested(alloc, levels, Rule::Expression, cursor)?.into_inner();
        Ok(GroupTree { value, place })
    }
}

/// The items of GROUP BY; none where it isn't written.
#[tactic(auto, unfolding(crate::specs::inner::SelectReading::group, crate::specs::inner::Reading::perhaps, crate::specs::inner::Reading::made, crate::specs::inner::Reading::then_read))]
pub(crate) fn group(
    alloc: Global,
    levels: usize,
    cursor: &mut Cursor<'_>,
) -> Result<GroupTrees, ReadFault>
    ensures { Reads (select.group (nested_read levels rules.Expression) cursor.old) result cursor.new }
{
    if !cursor.sees_word("GROUP") {
        return Ok(Items::new(alloc));
    }
    cursor.word("GROUP")?;
    cursor.word("BY")?;
    commas(alloc, levels, cursor)
}
