ghost use Rattle.std.specs.Prelude.{◌≡◌, IfOk};
ghost use Rattle.sa_simplify.specs.Flatten.{is_true, is_false, and_of, and_or_alone, flattened as flat, node_flattened, or_of, or_or_alone};
ghost use Rattle.sa_simplify.specs.inner.Added.{Adds, added_conjuncts, added_disjuncts};
ghost use Rattle.sa_simplify.specs.Simple.{IsWellTyped};

use crate::walk::{Rewrite, reversed, rewritten};
use sa_cond::{Cond, Conds};
use sa_value::{OutOfMemory, Truth};
use std::alloc::Global;

/// AND within AND and OR within OR are flattened, and known truths vanish from both.
#[tactic(auto, unfolding(crate::specs::Flatten::flattened))]
pub(crate) fn flattened(alloc: Global, cond: Cond) -> Result<Cond, OutOfMemory>
    requires { IsWellTyped cond }
    ensures { IfOk result (λ done. done ≡ flat cond) }
{
    rewritten::<Flatten>(alloc, cond)
}

struct Flatten;

impl Rewrite for Flatten {
    ghost node_done = { node_flattened };

    fn node(alloc: Global, cond: Cond) -> Result<Cond, OutOfMemory> {
        match cond {
            Cond::And(members) => all(alloc, members),
            Cond::Or(members) => any(alloc, members),
            other => Ok(other),
        }
    }
}

/// The AND of conditions, each flat by itself.
fn all(alloc: Global, members: Conds) -> Result<Cond, OutOfMemory>
    ensures { IfOk result (λ done. done ≡ and_of members) }
{
    let mut left = reversed(alloc, members)?;
    let mut flat = Conds::new(alloc);
    while let Some(member) = left.pop() {
        if decides_and(&mut flat, member)? {
            return Ok(Cond::Known(Truth::False));
        }
    }
    Ok(and_or_only(flat))
}

/// Whether a member alone makes an AND FALSE. If not, what it adds to the members is put at their end.
fn decides_and(flat: &mut Conds, member: Cond) -> Result<bool, OutOfMemory>
    ensures { IfOk result
        (λ decides. Adds (is_false member) (added_conjuncts member) flat.old flat.new decides) }
{
    match member {
        Cond::Known(Truth::False) => return Ok(true),
        Cond::Known(Truth::True) => {}
        Cond::And(inner) => flat.append(inner)?,
        other => flat.push(other)?,
    }
    Ok(false)
}

/// The OR of conditions, each flat by itself.
fn any(alloc: Global, members: Conds) -> Result<Cond, OutOfMemory>
    ensures { IfOk result (λ done. done ≡ or_of members) }
{
    let mut left = reversed(alloc, members)?;
    let mut flat = Conds::new(alloc);
    while let Some(member) = left.pop() {
        if decides_or(&mut flat, member)? {
            return Ok(Cond::Known(Truth::True));
        }
    }
    Ok(or_or_only(flat))
}

/// Whether a member alone makes an OR TRUE. If not, what it adds to the members is put at their end.
fn decides_or(flat: &mut Conds, member: Cond) -> Result<bool, OutOfMemory>
    ensures { IfOk result
        (λ decides. Adds (is_true member) (added_disjuncts member) flat.old flat.new decides) }
{
    match member {
        Cond::Known(Truth::True) => return Ok(true),
        Cond::Known(Truth::False) => {}
        Cond::Or(inner) => flat.append(inner)?,
        other => flat.push(other)?,
    }
    Ok(false)
}

/// The AND of what is left of its members.
fn and_or_only(mut members: Conds) -> Cond
    ensures { result ≡ and_or_alone members }
{
    match members.len() {
        0 => Cond::Known(Truth::True),
        1 => members.remove(0),
        _ => Cond::And(members),
    }
}

/// The OR of what is left of its members.
fn or_or_only(mut members: Conds) -> Cond
    ensures { result ≡ or_or_alone members }
{
    match members.len() {
        0 => Cond::Known(Truth::False),
        1 => members.remove(0),
        _ => Cond::Or(members),
    }
}
