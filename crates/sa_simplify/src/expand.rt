ghost use Rattle.std.specs.Prelude.{◌≡◌, IfOk, [], ◌∷◌, map};
ghost use Rattle.sa_value.specs.declared.truth.CompareOp.TheVariants.{Eq, Ge, Le};
ghost use Rattle.sa_cond.specs.declared.cond.Cond.TheVariants.{And, Compare};
ghost use Rattle.sa_simplify.specs.Expand.{equality_or_any, expanded as expansion_of, node_expanded};
ghost use Rattle.sa_simplify.specs.Simple.{IsWellTyped};

use crate::copy::copied;
use crate::walk::{Rewrite, reversed, rewritten};
use sa_cond::{Cond, Conds, Expr, Exprs};
use sa_value::{CompareOp, OutOfMemory};
use std::alloc::Global;

/// BETWEEN and IN are written out as comparisons.
#[tactic(auto, unfolding(crate::specs::Expand::expanded))]
pub(crate) fn expanded(alloc: Global, cond: Cond) -> Result<Cond, OutOfMemory>
    requires { IsWellTyped cond }
    ensures { IfOk result (λ done. done ≡ expansion_of cond) }
{
    rewritten::<Expand>(alloc, cond)
}

struct Expand;

impl Rewrite for Expand {
    ghost node_done = { node_expanded };

    fn node(alloc: Global, cond: Cond) -> Result<Cond, OutOfMemory> {
        match cond {
            Cond::Between { value, low, high } => between(alloc, value, low, high),
            Cond::Among { value, list } => among(alloc, value, list),
            other => Ok(other),
        }
    }
}

/// `value >= low AND value <= high`
fn between(alloc: Global, value: Expr, low: Expr, high: Expr) -> Result<Cond, OutOfMemory>
    ensures { IfOk result
        (λ done. done ≡ And (Compare Ge value low ∷ Compare Le value high ∷ [])) }
{
    let mut ends = Conds::new(alloc);
    ends.push(Cond::Compare {
        op: CompareOp::Ge,
        left: copied(alloc, &value)?,
        right: low,
    })?;
    ends.push(Cond::Compare {
        op: CompareOp::Le,
        left: value,
        right: high,
    })?;
    Ok(Cond::And(ends))
}

/// The OR of the equalities with the members of a list, or the only one.
fn among(alloc: Global, value: Expr, list: Exprs) -> Result<Cond, OutOfMemory>
    ensures { IfOk result
        (λ done. done ≡ equality_or_any (map (λ member. Compare Eq value member) list)) }
{
    let mut equalities = equalities(alloc, &value, list)?;
    if equalities.len() == 1 {
        Ok(equalities.remove(0))
    } else {
        Ok(Cond::Or(equalities))
    }
}

/// The equalities with the members of a list, in their order.
fn equalities(alloc: Global, value: &Expr, list: Exprs) -> Result<Conds, OutOfMemory>
    ensures { IfOk result
        (λ done. done ≡ map (λ member. Compare Eq value.now member) list) }
{
    let mut list = list;
    let mut turned = Conds::new(alloc);
    while let Some(member) = list.pop() {
        turned.push(Cond::Compare {
            op: CompareOp::Eq,
            left: copied(alloc, value)?,
            right: member,
        })?;
    }
    reversed(alloc, turned)
}
