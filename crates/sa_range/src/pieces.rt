ghost use Rattle.std.specs.Prelude.{◌≡◌, IfOk};
ghost use Rattle.sa_range.specs.Line.{constants, pieces_of as all_pieces};
ghost use Rattle.sa_range.specs.Atom.{literals_of as column_literals};

use crate::constant::constants;
use crate::line::Piece;
use crate::literal::literals_of;
use sa_cond::Cond;
use sa_value::{OutOfMemory, Value};
use std::alloc::Global;

/// The line of a column, cut at the constants with which a condition compares it.
pub(crate) fn line_of(
    alloc: Global,
    table: u32,
    column: u32,
    condition: &Cond,
) -> Result<Vec<Piece>, OutOfMemory>
    ensures { IfOk result (λ line. line.items
        ≡ all_pieces (constants (column_literals table column condition.now))) }
{
    let literals = literals_of(alloc, table, column, condition)?;
    let sorted = constants(alloc, literals)?;
    pieces_of(alloc, sorted.as_slice())
}

/// The pieces of a line that constants cut: NULL, and then gaps and constants in turn.
fn pieces_of(alloc: Global, constants: &[Value]) -> Result<Vec<Piece>, OutOfMemory>
    ensures { IfOk result (λ line. line.items ≡ all_pieces constants.now) }
{
    let null = Value::Null;
    let mut line = Vec::new(alloc);
    line.push(Piece::Point(Value::Null))?;
    let mut lower = &null;
    for value in constants {
        line.push(Piece::Gap {
            lower: lower.copy(alloc)?,
            upper: Some(value.copy(alloc)?),
        })?;
        line.push(Piece::Point(value.copy(alloc)?))?;
        lower = value;
    }
    line.push(Piece::Gap {
        lower: lower.copy(alloc)?,
        upper: None,
    })?;
    Ok(line)
}
