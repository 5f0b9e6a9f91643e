ghost use Rattle.std.specs.Prelude.{◌≡◌, IfOk};
ghost use Rattle.sa_simplify.specs.Simple.{IsWellTyped, simple};

use crate::decide::decided;
use crate::expand::expanded;
use crate::flatten::flattened;
use crate::fold::folded;
use crate::propagate::propagated;
use crate::push::{Sense, pushed};
use crate::turn::turned;
use sa_cond::Cond;
use sa_value::OutOfMemory;
use std::alloc::Global;

/// The simplified form of a condition: what seven steps, one after another, make of it.
///
/// It is TRUE on exactly the choices of rows on which the condition is. Where memory runs out, the
/// condition is gone.
#[tactic(auto, unfolding(crate::specs::Simple::simple))]
pub fn simplify(alloc: Global, filter: Cond) -> Result<Cond, OutOfMemory>
    requires typed { IsWellTyped filter }
    ensures exact { IfOk result (λ simplified. simplified ≡ simple filter) }
{
    let written_out = expanded(alloc, filter)?;
    let inward = pushed(alloc, written_out, Sense::Plain)?;
    let computed = folded(alloc, inward)?;
    let sided = turned(alloc, computed)?;
    let settled = decided(alloc, sided)?;
    let flat = flattened(alloc, settled)?;
    propagated(alloc, flat)
}
