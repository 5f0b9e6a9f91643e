ghost use Rattle.std.specs.Prelude.{◌≡◌, ◌++◌, IfOk, OnOk, option_map};
ghost use Rattle.std.specs.List.{flat_map};
ghost use Rattle.sa_range.specs.inner.Longer.{at_most, is_ended as ends_in_gap, keeps, longer_of, with_piece};

use crate::chosen::Chosen;
use crate::line::{Piece, Pieces, copied};
use crate::truth::truth_on;
use sa_cond::Cond;
use sa_value::{OutOfMemory, Truth};
use std::alloc::Global;

/// A condition, the parts of a key before one, and that part with the pieces of its line.
#[derive(Drop)]
pub(crate) struct Step<'a> {
    pub(crate) condition: &'a Cond,
    pub(crate) table: u32,
    pub(crate) columns: &'a [u32],
    pub(crate) column: u32,
    pub(crate) line: &'a [Piece],
}

/// How many sequences may serve at most.
const LIMIT: usize = 1024;

/// The sequences of kept pieces over one part more, if they aren't too many.
pub(crate) fn longer(
    alloc: Global,
    step: &Step<'_>,
    walks: &[Pieces],
) -> Result<Option<Vec<Pieces>>, OutOfMemory>
    ensures { IfOk result (λ found. option_map (λ longer. longer.items) found ≡ at_most
        (flat_map (longer_of step.now.condition.now step.now.table step.now.columns.now
        step.now.column step.now.line.now) walks.now)) }
{
    let mut longer = Vec::new(alloc);
    for walk in walks {
        put_longer(alloc, &mut longer, step, walk.as_slice())?;
        if longer.len() > LIMIT {
            return Ok(None);
        }
    }
    Ok(Some(longer))
}

/// Puts the sequences that begin with a sequence to the end of others. Behind a gap nothing
/// follows.
fn put_longer(
    alloc: Global,
    longer: &mut Vec<Pieces>,
    step: &Step<'_>,
    walk: &[Piece],
) -> Result<(), OutOfMemory>
    ensures { OnOk result (longer.new.items ≡ longer.old.items ++ longer_of step.now.condition.now
        step.now.table step.now.columns.now step.now.column step.now.line.now walk.now) }
{
    if is_ended(walk) {
        longer.push(copied(alloc, walk)?)?;
        return Ok(());
    }
    for piece in step.line {
        put_kept(alloc, longer, step, walk, piece)?;
    }
    Ok(())
}

/// Puts a sequence with a piece at its end, if that is kept.
fn put_kept(
    alloc: Global,
    longer: &mut Vec<Pieces>,
    step: &Step<'_>,
    walk: &[Piece],
    piece: &Piece,
) -> Result<(), OutOfMemory>
    ensures { OnOk result (longer.new.items ≡ longer.old.items ++ with_piece step.now.condition.now
        step.now.table step.now.columns.now step.now.column walk.now piece.now) }
{
    if is_kept(step, walk, piece) {
        let mut whole = copied(alloc, walk)?;
        whole.push(piece.copy(alloc)?)?;
        longer.push(whole)?;
    }
    Ok(())
}

/// Whether the condition is TRUE with a piece behind the points of a sequence.
#[tactic(auto, unfolding(crate::specs::inner::Longer::keeps))]
fn is_kept(step: &Step<'_>, walk: &[Piece], piece: &Piece) -> bool
    ensures { result ≡ keeps step.now.condition.now step.now.table step.now.columns.now
        step.now.column walk.now piece.now }
{
    let chosen = Chosen {
        columns: step.columns,
        points: walk,
        column: step.column,
        piece,
    };
    match truth_on(step.table, &chosen, step.condition) {
        Truth::False | Truth::Unknown => false,
        Truth::True => true,
    }
}

/// Whether a sequence ends in a gap.
fn is_ended(walk: &[Piece]) -> bool
    ensures { result ≡ ends_in_gap walk.now }
{
    for piece in walk {
        if let Piece::Gap { lower: _, upper: _ } = piece {
            return true;
        }
    }
    false
}
