ghost use Rattle.std.specs.Prelude.{◌≡◌, IfOk, map, reverse};
ghost use Rattle.sa_cond.specs.declared.cond.Cond.{Cond as condition, Cond-F, fold-Cond, out-Cond};
ghost use Rattle.sa_simplify.specs.Simple.{IsWellTyped, AreWellTyped};
ghost use Rattle.sa_simplify.specs.inner.Leaf.{IsWellTypedLeaf};

use sa_cond::{Cond, Conds};
use sa_value::OutOfMemory;
use sqlite_items::{Boxed, Items};
use std::alloc::Global;

/// A step that goes through a condition from the inside out.
pub(crate) trait Rewrite {
    /// What it makes of a node whose members are done.
    ghost node_done: { Cond-F condition → condition };

    /// Does one node, whose members are done.
    fn node(alloc: Global, cond: Cond) -> Result<Cond, OutOfMemory>
        requires { IsWellTypedLeaf cond }
        ensures { IfOk result (λ done. done ≡ node_done (out-Cond cond)) };
}

/// The condition that the step makes of a whole condition.
#[cycle(rewrite)]
pub(crate) fn rewritten<R: Rewrite>(alloc: Global, cond: Cond) -> Result<Cond, OutOfMemory>
    requires { IsWellTyped cond }
    ensures { IfOk result (λ done. done ≡ fold-Cond condition R.node_done cond) }
{
    match cond {
        Cond::And(members) => R::node(alloc, Cond::And(rewritten_all::<R>(alloc, members)?)),
        Cond::Or(members) => R::node(alloc, Cond::Or(rewritten_all::<R>(alloc, members)?)),
        Cond::Not(inner) => {
            let inner = Boxed::new(alloc, rewritten::<R>(alloc, inner.into_inner())?)?;
            R::node(alloc, Cond::Not(inner))
        }
        leaf => R::node(alloc, leaf),
    }
}

/// The conditions that the step makes of several, in their order.
#[cycle(rewrite)]
fn rewritten_all<R: Rewrite>(alloc: Global, members: Conds) -> Result<Conds, OutOfMemory>
    requires { AreWellTyped members }
    ensures { IfOk result (λ done. done ≡ map (fold-Cond condition R.node_done) members) }
{
    let mut members = members;
    let mut turned = Conds::new(alloc);
    while let Some(member) = members.pop() {
        turned.push(rewritten::<R>(alloc, member)?)?;
    }
    reversed(alloc, turned)
}

/// The items from the last one to the first.
pub(crate) fn reversed<T: Drop>(alloc: Global, items: Items<T>) -> Result<Items<T>, OutOfMemory>
    ensures { IfOk result (λ turned. turned ≡ reverse items) }
{
    let mut items = items;
    let mut turned = Items::new(alloc);
    while let Some(item) = items.pop() {
        turned.push(item)?;
    }
    Ok(turned)
}
