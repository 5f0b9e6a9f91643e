//! Queries.

ghost use Rattle.sa_parser.specs.declared.rule.Rule.TheVariants as rules;
ghost use Rattle.sa_parser.specs.inner.ExprReading.{nested_read};
ghost use Rattle.sa_parser.specs.inner.SelectReading as reading;
ghost use Rattle.sa_parser.specs.inner.Reads.{Reads};

mod alias;
mod condition;
mod from;
mod group;
mod item;
mod limit;
mod order;

use crate::commas::commas;
use crate::cursor::Cursor;
use crate::fault::ReadFault;
use crate::select::condition::{condition, having};
use crate::select::from::tables;
use crate::select::group::group;
use crate::select::limit::limit;
use crate::select::order::order;
use sa_ast::{ItemTrees, SelectTree};
use sqlite_items::Boxed;
use std::alloc::Global;

/// A query.
#[tactic(auto, unfolding(crate::specs::inner::SelectReading::select, crate::specs::inner::SelectReading::where_part, crate::specs::inner::Reading::made, crate::specs::inner::Reading::then_read))]
pub(crate) fn select(
    alloc: Global,
    levels: usize,
    cursor: &mut Cursor<'_>,
) -> Result<SelectTree, ReadFault>
    ensures { Reads
        (reading.select (nested_read levels rules.Expression) cursor.old) result cursor.new }
{
    cursor.word("SELECT")?;
    let distinct = distinct(cursor)?;
    let items: ItemTrees = commas(alloc, levels, cursor)?;
    cursor.word("FROM")?;
    let from = tables(alloc, levels, cursor)?;
    let filter = condition(alloc, levels, "WHERE", cursor)?;
    let group = group(alloc, levels, cursor)?;
    let having = having(alloc, levels, cursor)?;
    let order = order(alloc, levels, cursor)?;
    let limits = limit(cursor)?;
    let (having, having_place) = match having {
        Some((place, condition)) => (Some(condition.into_inner()), place),
        None => (None, 0),
    };
    Ok(SelectTree {
        distinct,
        items,
        from,
        filter: filter.map(Boxed::into_inner),
        group,
        having,
        having_place,
        order,
        limit: limits.map(|limits| limits.limit),
        offset: limits.map_or(0, |limits| limits.offset),
    })
}

/// Whether DISTINCT is written, and not ALL or neither.
#[tactic(auto, unfolding(crate::specs::inner::SelectReading::distinct, crate::specs::inner::Reading::made, crate::specs::inner::Reading::perhaps, crate::specs::inner::Reading::either))]
fn distinct(cursor: &mut Cursor<'_>) -> Result<bool, ReadFault>
    ensures { Reads (reading.distinct cursor.old) result cursor.new }
{
    if cursor.sees_word("ALL") {
        cursor.word("ALL")?;
        Ok(false)
    } else if cursor.sees_word("DISTINCT") {
        cursor.word("DISTINCT")?;
        Ok(true)
    } else {
        Ok(false)
    }
}
