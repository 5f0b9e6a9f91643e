//! The tables of FROM.

ghost use Rattle.sa_parser.specs.declared.rule.Rule.TheVariants as rules;
ghost use Rattle.sa_parser.specs.inner.ExprReading.{nested_read};
ghost use Rattle.sa_parser.specs.inner.Reading as reading;
ghost use Rattle.sa_parser.specs.inner.SelectReading as select;
ghost use Rattle.sa_parser.specs.SelectTree as trees;
ghost use Rattle.sa_parser.specs.inner.Reads.{Reads};
ghost use Rattle.std.specs.Prelude.{codes};

use crate::cursor::Cursor;
use crate::fault::ReadFault;
use crate::select::alias::alias;
use crate::select::condition::condition;
use sa_ast::{TableTree, TableTrees};
use sa_lexer::Sign;
use sqlite_items::{Boxed, Items};
use std::alloc::Global;

/// A table, with its alias.
#[tactic(auto, unfolding(crate::specs::inner::SelectReading::table, crate::specs::inner::Reading::made, crate::specs::inner::Reading::then_read))]
fn table(alloc: Global, cursor: &mut Cursor<'_>) -> Result<TableTree, ReadFault>
    ensures { Reads (select.table cursor.old) result cursor.new }
{
    let name = cursor.name(alloc)?;
    let alias = alias(alloc, cursor)?;
    Ok(TableTree {
        name,
        alias,
        joined: false,
        on: None,
    })
}

/// The place of JOIN. INNER and CROSS before it say nothing more.
#[tactic(auto, unfolding(crate::specs::inner::SelectReading::join, crate::specs::inner::Reading::perhaps, crate::specs::inner::Reading::either, crate::specs::inner::Reading::made, crate::specs::inner::Reading::then_read))]
fn join(cursor: &mut Cursor<'_>) -> Result<usize, ReadFault>
    ensures { Reads (select.join cursor.old) result cursor.new }
{
    if cursor.sees_word("INNER") {
        cursor.word("INNER")?;
    } else if cursor.sees_word("CROSS") {
        cursor.word("CROSS")?;
    }
    cursor.word("JOIN")
}

/// A table behind JOIN, with its condition.
#[tactic(auto, unfolding(crate::specs::inner::Reading::made, crate::specs::inner::Reading::then_read))]
fn joined_table(
    alloc: Global,
    levels: usize,
    cursor: &mut Cursor<'_>,
) -> Result<TableTree, ReadFault>
    ensures { Reads
        (reading.then_read
        (reading.then_read (reading.made trees.joined_table select.join) select.table)
        (reading.perhaps (reading.sees_word (codes "ON"))
        (reading.after (codes "ON") (nested_read levels rules.Expression))) cursor.old) result
        cursor.new }
{
    join(cursor)?;
    let table = table(alloc, cursor)?;
    let on = condition(alloc, levels, "ON", cursor)?;
    let TableTree { name, alias, .. } = table;
    Ok(TableTree {
        name,
        alias,
        joined: true,
        on: on.map(Boxed::into_inner),
    })
}

/// Tables with JOIN between them.
#[tactic(auto, using(crate::proofs::ReadingChains::turns), unfolding(crate::specs::inner::SelectReading::joined, crate::specs::inner::Reading::made, crate::specs::inner::Reading::chain))]
fn joined(alloc: Global, levels: usize, cursor: &mut Cursor<'_>) -> Result<TableTrees, ReadFault>
    ensures { Reads (select.joined (nested_read levels rules.Expression) cursor.old) result cursor.new }
{
    let mut tables = Items::new(alloc);
    tables.push(table(alloc, cursor)?)?;
    // Each turn takes a token.
    for _turn in 0..cursor.left() {
        if !cursor.sees_join() {
            break;
        }
        tables.push(joined_table(alloc, levels, cursor)?)?;
    }
    Ok(tables)
}

/// All tables, with commas and JOIN between them.
#[tactic(auto, using(crate::proofs::ReadingChains::turns), unfolding(crate::specs::inner::SelectReading::tables, crate::specs::inner::Reading::made, crate::specs::inner::Reading::then_read, crate::specs::inner::Reading::chain))]
pub(crate) fn tables(
    alloc: Global,
    levels: usize,
    cursor: &mut Cursor<'_>,
) -> Result<TableTrees, ReadFault>
    ensures { Reads (select.tables (nested_read levels rules.Expression) cursor.old) result cursor.new }
{
    let mut tables = joined(alloc, levels, cursor)?;
    // Each turn takes a token.
    for _turn in 0..cursor.left() {
        if !cursor.sees_sign(Sign::Comma) {
            break;
        }
        cursor.sign(Sign::Comma)?;
        tables.append(joined(alloc, levels, cursor)?)?;
    }
    Ok(tables)
}
