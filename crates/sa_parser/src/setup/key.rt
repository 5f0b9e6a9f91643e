//! The keys of a table's definition that stand by themselves.

ghost use Rattle.sa_parser.specs.inner.Reading as reading;
ghost use Rattle.sa_parser.specs.inner.SetupReading as setup;
ghost use Rattle.sa_parser.specs.inner.Reads.{Reads};

use crate::cursor::Cursor;
use crate::fault::ReadFault;
use crate::part::Part;
use sa_ast::KeyTree;
use sa_lexer::Sign;
use sa_value::{Text, Texts};
use std::alloc::Global;

/// A key by itself.
#[tactic(auto, unfolding(crate::specs::inner::SetupReading::key_part, crate::specs::inner::Reading::perhaps, crate::specs::inner::Reading::either, crate::specs::inner::Reading::made, crate::specs::inner::Reading::then_read))]
pub(crate) fn key_part(alloc: Global, cursor: &mut Cursor<'_>) -> Result<Part, ReadFault>
    ensures { Reads (setup.key_part cursor.old) result cursor.new }
{
    let (name, unique, primary) = if cursor.sees_word("PRIMARY") {
        cursor.word("PRIMARY")?;
        cursor.word("KEY")?;
        (None, true, true)
    } else if cursor.sees_word("UNIQUE") {
        cursor.word("UNIQUE")?;
        if cursor.sees_key_word() {
            key_word(cursor)?;
        }
        (key_name(alloc, cursor)?, true, false)
    } else {
        key_word(cursor)?;
        (key_name(alloc, cursor)?, false, false)
    };
    let columns = columns(alloc, cursor)?;
    Ok(Part::Key(KeyTree {
        name,
        unique,
        primary,
        columns,
    }))
}

/// The place of KEY or INDEX.
#[tactic(auto, unfolding(crate::specs::inner::SetupReading::key_word, crate::specs::inner::Reading::either))]
fn key_word(cursor: &mut Cursor<'_>) -> Result<usize, ReadFault>
    ensures { Reads (setup.key_word cursor.old) result cursor.new }
{
    if cursor.sees_word("KEY") {
        cursor.word("KEY")
    } else {
        cursor.word("INDEX")
    }
}

/// The name of a key, if one is written.
#[tactic(auto, unfolding(crate::specs::inner::Reading::perhaps, crate::specs::inner::Reading::made))]
fn key_name(alloc: Global, cursor: &mut Cursor<'_>) -> Result<Option<Text>, ReadFault>
    ensures { Reads (reading.perhaps reading.sees_name setup.name_text cursor.old) result cursor.new }
{
    if cursor.sees_name() {
        Ok(Some(cursor.name(alloc)?.name))
    } else {
        Ok(None)
    }
}

/// The names of a key's columns, in brackets.
#[tactic(auto, unfolding(crate::specs::inner::SetupReading::columns, crate::specs::inner::Reading::made, crate::specs::inner::Reading::then_read))]
fn columns(alloc: Global, cursor: &mut Cursor<'_>) -> Result<Texts, ReadFault>
    ensures { Reads (setup.columns cursor.old) result cursor.new }
{
    cursor.sign(Sign::LeftParen)?;
    let names = names(alloc, cursor)?;
    cursor.sign(Sign::RightParen)?;
    Ok(names)
}

/// One or more names, with commas between them.
#[tactic(auto, using(crate::proofs::ReadingChains::turns), unfolding(crate::specs::inner::Reading::chain, crate::specs::inner::Reading::made, crate::specs::inner::Reading::then_read))]
fn names(alloc: Global, cursor: &mut Cursor<'_>) -> Result<Texts, ReadFault>
    ensures { Reads (reading.commas setup.name_text cursor.old) result cursor.new }
{
    let mut names = Texts::new(alloc);
    names.push(cursor.name(alloc)?.name)?;
    // Each turn takes a token.
    for _turn in 0..cursor.left() {
        if !cursor.sees_sign(Sign::Comma) {
            break;
        }
        cursor.sign(Sign::Comma)?;
        names.push(cursor.name(alloc)?.name)?;
    }
    Ok(names)
}
