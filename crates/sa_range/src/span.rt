ghost use Rattle.std.specs.Prelude.{◌≡◌, ◌<◌, ◌≤◌, [], ◌∷◌, ◌++◌, IfOk, length};
ghost use Rattle.sa_key.specs.declared.cut.Side.TheVariants.{Above};
ghost use Rattle.sa_range.specs.RangeList.{gap_end as end_of_gap, range_of as span_of};

use crate::line::Piece;
use sa_key::{Cut, KeyRange, KeyTuple, Side};
use sa_value::{OutOfMemory, Value};
use std::alloc::Global;

/// The range of a sequence of pieces.
///
/// For example the point 1 and the gap from 2 to 5 are the tuples from above (1, 2) to below
/// (1, 5).
pub(crate) fn range_of(alloc: Global, walk: &[Piece]) -> Result<KeyRange, OutOfMemory>
    requires { length walk.now ≤ 4 }
    ensures { IfOk result (λ range. range ≡ span_of [] walk.now) }
{
    let mut points = KeyTuple::new(alloc);
    for piece in walk {
        match piece {
            Piece::Point(value) => points.push(value.copy(alloc)?)?,
            Piece::Gap { lower, upper } => return gap_range(alloc, points, lower, upper),
        }
    }
    Ok(KeyRange {
        from: Cut {
            tuple: points.copy(alloc)?,
            side: Side::Below,
        },
        to: Cut {
            tuple: points,
            side: Side::Above,
        },
    })
}

/// The range of a gap behind points.
fn gap_range(
    alloc: Global,
    points: KeyTuple,
    lower: &Value,
    upper: &Option<Value>,
) -> Result<KeyRange, OutOfMemory>
    requires { length points < 4 }
    ensures { IfOk result (λ range. range ≡ record {
      from = record { tuple = points ++ lower.now ∷ []; side = Above };
      to = end_of_gap points upper.now;
    }) }
{
    let mut from = points.copy(alloc)?;
    from.push(lower.copy(alloc)?)?;
    Ok(KeyRange {
        from: Cut {
            tuple: from,
            side: Side::Above,
        },
        to: gap_end(alloc, points, upper)?,
    })
}

/// The cut at the end of a gap behind points. The last gap ends above them.
fn gap_end(alloc: Global, points: KeyTuple, upper: &Option<Value>) -> Result<Cut, OutOfMemory>
    requires { length points < 4 }
    ensures { IfOk result (λ cut. cut ≡ end_of_gap points upper.now) }
{
    let mut tuple = points;
    match upper {
        None => Ok(Cut {
            tuple,
            side: Side::Above,
        }),
        Some(value) => {
            tuple.push(value.copy(alloc)?)?;
            Ok(Cut {
                tuple,
                side: Side::Below,
            })
        }
    }
}
