//! INSERT.

ghost use Rattle.sa_parser.specs.inner.Reading as reading;
ghost use Rattle.sa_parser.specs.inner.SetupReading as setup;
ghost use Rattle.sa_parser.specs.inner.Reads.{Reads};

use crate::commas::{Listed, commas};
use crate::cursor::Cursor;
use crate::fault::ReadFault;
use crate::setup::literal::literals;
use sa_ast::{InsertTree, NameTree, NameTrees, TupleTree};
use sa_lexer::Sign;
use std::alloc::Global;

impl Listed for NameTree {
    ghost part = { λ _. reading.name };

    fn read(alloc: Global, _levels: usize, cursor: &mut Cursor<'_>) -> Result<NameTree, ReadFault> {
        cursor.name(alloc)
    }
}

impl Listed for TupleTree {
    ghost part = { λ _. setup.tuple };

    /// The values of one row, in brackets.
    #[tactic(auto, unfolding(crate::specs::inner::SetupReading::tuple, crate::specs::inner::Reading::placed, crate::specs::inner::Reading::made, crate::specs::inner::Reading::then_read))]
    fn read(
        alloc: Global,
        _levels: usize,
        cursor: &mut Cursor<'_>,
    ) -> Result<TupleTree, ReadFault> {
        let place = cursor.place();
        cursor.sign(Sign::LeftParen)?;
        let values = literals(alloc, cursor)?;
        cursor.sign(Sign::RightParen)?;
        Ok(TupleTree { values, place })
    }
}

/// Rows for a table.
#[tactic(auto, unfolding(crate::specs::inner::SetupReading::insert, crate::specs::inner::Reading::made, crate::specs::inner::Reading::then_read))]
pub(crate) fn insert(alloc: Global, cursor: &mut Cursor<'_>) -> Result<InsertTree, ReadFault>
    ensures { Reads (setup.insert cursor.old) result cursor.new }
{
    cursor.word("INSERT")?;
    cursor.word("INTO")?;
    let table = cursor.name(alloc)?;
    let columns = columns(alloc, cursor)?;
    cursor.word("VALUES")?;
    let tuples = commas(alloc, 0, cursor)?;
    Ok(InsertTree {
        table,
        columns,
        tuples,
    })
}

/// The columns that the values are for, in brackets, if they are written.
#[tactic(auto, unfolding(crate::specs::inner::Reading::perhaps, crate::specs::inner::Reading::made, crate::specs::inner::Reading::then_read))]
fn columns(alloc: Global, cursor: &mut Cursor<'_>) -> Result<Option<NameTrees>, ReadFault>
    ensures { Reads
        (reading.perhaps (reading.sees_sign Sign.LeftParen)
        (reading.brackets (reading.commas reading.name)) cursor.old) result cursor.new }
{
    if !cursor.sees_sign(Sign::LeftParen) {
        return Ok(None);
    }
    cursor.sign(Sign::LeftParen)?;
    let columns = commas(alloc, 0, cursor)?;
    cursor.sign(Sign::RightParen)?;
    Ok(Some(columns))
}
