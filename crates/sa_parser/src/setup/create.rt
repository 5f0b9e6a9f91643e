//! CREATE TABLE.

ghost use Rattle.sa_parser.specs.inner.SetupReading as reading;
ghost use Rattle.sa_parser.specs.inner.Reads.{Reads};

use crate::cursor::Cursor;
use crate::fault::ReadFault;
use crate::part::{Part, Parts};
use crate::setup::column::column;
use crate::setup::key::key_part;
use sa_ast::CreateTree;
use sa_lexer::Sign;
use std::alloc::Global;

/// The definition of a table. What ENGINE says behind it is passed over.
#[tactic(auto, using(crate::proofs::ReadingChains::turns), unfolding(crate::specs::inner::SetupReading::create, crate::specs::inner::Reading::chain, crate::specs::inner::Reading::made, crate::specs::inner::Reading::then_read))]
pub(crate) fn create(alloc: Global, cursor: &mut Cursor<'_>) -> Result<CreateTree, ReadFault>
    ensures { Reads (reading.create cursor.old) result cursor.new }
{
    cursor.word("CREATE")?;
    cursor.word("TABLE")?;
    let name = cursor.name(alloc)?;
    cursor.sign(Sign::LeftParen)?;
    let Parts { columns, keys } = definition(alloc, cursor)?;
    cursor.sign(Sign::RightParen)?;
    let tree = CreateTree {
        name,
        columns,
        keys,
    };
    // Each turn takes a token.
    for _turn in 0..cursor.left() {
        if !cursor.sees_word("ENGINE") {
            break;
        }
        engine(alloc, cursor)?;
    }
    Ok(tree)
}

/// One or more parts of a definition, with commas between them.
#[tactic(auto, using(crate::proofs::ReadingChains::turns), unfolding(crate::specs::inner::SetupReading::definition, crate::specs::inner::Reading::chain, crate::specs::inner::Reading::made, crate::specs::inner::Reading::then_read))]
fn definition(alloc: Global, cursor: &mut Cursor<'_>) -> Result<Parts, ReadFault>
    ensures { Reads (reading.definition cursor.old) result cursor.new }
{
    let mut parts = Parts::new(alloc);
    parts.push(part(alloc, cursor)?)?;
    // Each turn takes a token.
    for _turn in 0..cursor.left() {
        if !cursor.sees_sign(Sign::Comma) {
            break;
        }
        cursor.sign(Sign::Comma)?;
        parts.push(part(alloc, cursor)?)?;
    }
    Ok(parts)
}

/// A column or a key.
#[tactic(auto, unfolding(crate::specs::inner::SetupReading::part, crate::specs::inner::Reading::either))]
fn part(alloc: Global, cursor: &mut Cursor<'_>) -> Result<Part, ReadFault>
    ensures { Reads (reading.part cursor.old) result cursor.new }
{
    if cursor.sees_name() {
        column(alloc, cursor)
    } else {
        key_part(alloc, cursor)
    }
}

/// The place of ENGINE, before a name.
#[tactic(auto, unfolding(crate::specs::inner::SetupReading::engine, crate::specs::inner::Reading::perhaps, crate::specs::inner::Reading::made, crate::specs::inner::Reading::then_read))]
fn engine(alloc: Global, cursor: &mut Cursor<'_>) -> Result<usize, ReadFault>
    ensures { Reads (reading.engine cursor.old) result cursor.new }
{
    let place = cursor.word("ENGINE")?;
    if cursor.sees_sign(Sign::Equal) {
        cursor.sign(Sign::Equal)?;
    }
    cursor.name(alloc)?;
    Ok(place)
}
