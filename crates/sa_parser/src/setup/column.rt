//! The columns of a table's definition.

ghost use Rattle.std.specs.Prelude.{◌^◌};
ghost use Rattle.sa_parser.specs.SetupTree as trees;
ghost use Rattle.sa_parser.specs.inner.Reading as reading;
ghost use Rattle.sa_parser.specs.inner.SetupReading as setup;
ghost use Rattle.sa_parser.specs.inner.Reads.{Reads};

use crate::cursor::Cursor;
use crate::fault::ReadFault;
use crate::part::{ColumnOption, Part};
use sa_ast::{ColumnTree, KindTree};
use sa_lexer::Sign;
use sqlite_items::Items;
use std::alloc::Global;

/// What every number of characters of a VARCHAR is below.
const TEXT_SIZES: u128 = 1 << 14;

/// A column, with the keys that its options make.
#[tactic(auto, using(crate::proofs::ReadingChains::turns), unfolding(crate::specs::inner::SetupReading::column, crate::specs::inner::Reading::chain, crate::specs::inner::Reading::made, crate::specs::inner::Reading::then_read))]
pub(crate) fn column(alloc: Global, cursor: &mut Cursor<'_>) -> Result<Part, ReadFault>
    ensures { Reads (setup.column cursor.old) result cursor.new }
{
    let name = cursor.name(alloc)?.name;
    let kind = kind(cursor)?;
    let mut column = Part::Column {
        column: ColumnTree {
            name,
            kind,
            not_null: false,
        },
        keys: Items::new(alloc),
    };
    // Each turn takes a token.
    for _turn in 0..cursor.left() {
        if !cursor.sees_option() {
            break;
        }
        let option = option(cursor)?;
        column = column.with_option(alloc, option)?;
    }
    Ok(column)
}

/// What a column can hold.
#[tactic(auto, unfolding(crate::specs::inner::SetupReading::kind, crate::specs::inner::Reading::either, crate::specs::inner::Reading::made, crate::specs::inner::Reading::then_read))]
fn kind(cursor: &mut Cursor<'_>) -> Result<KindTree, ReadFault>
    ensures { Reads (setup.kind cursor.old) result cursor.new }
{
    if cursor.sees_word("INT") {
        cursor.word("INT")?;
        digits(cursor)?;
        Ok(KindTree::Int)
    } else if cursor.sees_word("INTEGER") {
        cursor.word("INTEGER")?;
        digits(cursor)?;
        Ok(KindTree::Int)
    } else if cursor.sees_word("BIGINT") {
        cursor.word("BIGINT")?;
        digits(cursor)?;
        Ok(KindTree::BigInt)
    } else {
        cursor.word("VARCHAR")?;
        cursor.sign(Sign::LeftParen)?;
        let size = cursor.number_below(TEXT_SIZES)?;
        cursor.sign(Sign::RightParen)?;
        Ok(KindTree::VarChar(size as u32))
    }
}

/// How many digits are shown of a number, if that is written. It says nothing.
#[tactic(auto, unfolding(crate::specs::inner::SetupReading::digits, crate::specs::inner::Reading::perhaps, crate::specs::inner::Reading::made, crate::specs::inner::Reading::then_read))]
fn digits(cursor: &mut Cursor<'_>) -> Result<Option<u128>, ReadFault>
    ensures { Reads (setup.digits cursor.old) result cursor.new }
{
    if !cursor.sees_sign(Sign::LeftParen) {
        return Ok(None);
    }
    cursor.sign(Sign::LeftParen)?;
    let digits = cursor.number()?;
    cursor.sign(Sign::RightParen)?;
    Ok(Some(digits))
}

/// An option of a column.
#[tactic(auto, unfolding(crate::specs::inner::SetupReading::option, crate::specs::inner::Reading::perhaps, crate::specs::inner::Reading::either, crate::specs::inner::Reading::made, crate::specs::inner::Reading::then_read))]
fn option(cursor: &mut Cursor<'_>) -> Result<ColumnOption, ReadFault>
    ensures { Reads (setup.option cursor.old) result cursor.new }
{
    if cursor.sees_word("NOT") {
        cursor.word("NOT")?;
        cursor.word("NULL")?;
        Ok(ColumnOption::NotNull)
    } else if cursor.sees_word("NULL") {
        cursor.word("NULL")?;
        Ok(ColumnOption::Null)
    } else if cursor.sees_word("DEFAULT") {
        cursor.word("DEFAULT")?;
        cursor.word("NULL")?;
        Ok(ColumnOption::Null)
    } else if cursor.sees_word("PRIMARY") {
        cursor.word("PRIMARY")?;
        cursor.word("KEY")?;
        Ok(ColumnOption::PrimaryKey)
    } else {
        cursor.word("UNIQUE")?;
        if cursor.sees_word("KEY") {
            cursor.word("KEY")?;
        }
        Ok(ColumnOption::Unique)
    }
}
