ghost use Rattle.std.specs.Prelude.{◌≡◌, IfOk, map};
ghost use Rattle.sa_simplify.specs.Push.{comparison_denied as denied_comparison, pushed as pushed_in};
ghost use Rattle.sa_simplify.specs.inner.Leaf.{leaf_denied};

use crate::walk::reversed;
use sa_cond::{Cond, Conds, Expr};
use sa_value::{CompareOp, OutOfMemory};
use sqlite_items::Boxed;
use std::alloc::Global;

/// Whether a condition stands as it is, or under NOT.
#[derive(Clone, Copy, Debug, PartialEq, Eq)]
pub(crate) enum Sense {
    Plain,
    Denied,
}

/// The condition in this sense, with NOT pushed inward.
#[cycle(push)]
pub(crate) fn pushed(alloc: Global, cond: Cond, sense: Sense) -> Result<Cond, OutOfMemory>
    ensures { IfOk result (λ done. done ≡ pushed_in cond sense) }
{
    match cond {
        Cond::And(members) => {
            let members = pushed_all(alloc, members, sense)?;
            match sense {
                Sense::Plain => Ok(Cond::And(members)),
                Sense::Denied => Ok(Cond::Or(members)),
            }
        }
        Cond::Or(members) => {
            let members = pushed_all(alloc, members, sense)?;
            match sense {
                Sense::Plain => Ok(Cond::Or(members)),
                Sense::Denied => Ok(Cond::And(members)),
            }
        }
        Cond::Not(inner) => match sense {
            Sense::Plain => pushed(alloc, inner.into_inner(), Sense::Denied),
            Sense::Denied => pushed(alloc, inner.into_inner(), Sense::Plain),
        },
        leaf => match sense {
            Sense::Plain => Ok(leaf),
            Sense::Denied => denied(alloc, leaf),
        },
    }
}

/// Several conditions in this sense, in their order.
#[cycle(push)]
fn pushed_all(alloc: Global, members: Conds, sense: Sense) -> Result<Conds, OutOfMemory>
    ensures { IfOk result (λ done. done ≡ map (λ member. pushed_in member sense) members) }
{
    let mut members = members;
    let mut turned = Conds::new(alloc);
    while let Some(member) = members.pop() {
        turned.push(pushed(alloc, member, sense)?)?;
    }
    reversed(alloc, turned)
}

/// A condition without others inside, under NOT.
fn denied(alloc: Global, leaf: Cond) -> Result<Cond, OutOfMemory>
    ensures { IfOk result (λ done. done ≡ leaf_denied leaf) }
{
    match leaf {
        Cond::Compare { op, left, right } => comparison_denied(alloc, op, left, right),
        Cond::IsNull(x) => Ok(Cond::NotNull(x)),
        Cond::NotNull(x) => Ok(Cond::IsNull(x)),
        other => Ok(Cond::Not(Boxed::new(alloc, other)?)),
    }
}

/// A comparison under NOT: another comparison, but for `<=>`, which has none that is its opposite.
fn comparison_denied(
    alloc: Global,
    op: CompareOp,
    left: Expr,
    right: Expr,
) -> Result<Cond, OutOfMemory>
    ensures { IfOk result (λ done. done ≡ denied_comparison op left right) }
{
    let op = match op {
        CompareOp::Eq => CompareOp::Ne,
        CompareOp::Ne => CompareOp::Eq,
        CompareOp::Lt => CompareOp::Ge,
        CompareOp::Le => CompareOp::Gt,
        CompareOp::Gt => CompareOp::Le,
        CompareOp::Ge => CompareOp::Lt,
        CompareOp::NullEq => {
            let inner = Boxed::new(alloc, Cond::Compare { op, left, right })?;
            return Ok(Cond::Not(inner));
        }
    };
    Ok(Cond::Compare { op, left, right })
}
