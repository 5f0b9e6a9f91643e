ghost use Rattle.std.specs.Prelude.{◌≡◌, IfOk, option_map, Some};
ghost use Rattle.std.specs.List.{list_any};
ghost use Rattle.sa_simplify.specs.Propagate.{HandsOn, first_given, fix_condition, fix_in, handed_by, handed_to, is_fix, is_there as stands_there, join_in, next_handed, propagated as propagation_of};
ghost use Rattle.sa_simplify.specs.inner.Equality.{fix_at, join_at};

use crate::equality::{Place, fix, is_same, join, other};
use sa_cond::{Cond, Conds, Expr};
use sa_value::{CompareOp, OutOfMemory, Value, order_of};
use std::alloc::Global;
use std::cmp::Ordering;

/// Equalities with literals are handed on over equalities of columns.
#[tactic(auto, unfolding(crate::specs::Propagate::propagated))]
pub(crate) fn propagated(alloc: Global, cond: Cond) -> Result<Cond, OutOfMemory>
    ensures { IfOk result (λ done. done ≡ propagation_of cond) }
{
    match cond {
        Cond::And(conjuncts) => Ok(Cond::And(handed_on(alloc, conjuncts)?)),
        other => Ok(other),
    }
}

/// The conjuncts, and behind them all equalities that they hand on.
fn handed_on(alloc: Global, conjuncts: Conds) -> Result<Conds, OutOfMemory>
    ensures { IfOk result (HandsOn conjuncts) }
{
    let mut conjuncts = conjuncts;
    while let Some(equality) = next(alloc, conjuncts.as_slice())? {
        conjuncts.push(equality)?;
    }
    Ok(conjuncts)
}

/// The next equality that two conjuncts hand on.
fn next(alloc: Global, conjuncts: &[Cond]) -> Result<Option<Cond>, OutOfMemory>
    ensures { IfOk result (λ next. next ≡ option_map fix_condition (next_handed conjuncts.now)) }
{
    match first_handed(conjuncts) {
        None => Ok(None),
        Some((place, literal)) => {
            let literal = literal.copy(alloc)?;
            Ok(Some(Cond::Compare {
                op: CompareOp::Eq,
                left: Expr::Column {
                    table: place.table,
                    column: place.column,
                },
                right: Expr::Literal(literal),
            }))
        }
    }
}

/// The column and the literal of that equality.
#[tactic(auto, unfolding(crate::specs::Propagate::next_handed))]
fn first_handed(conjuncts: &[Cond]) -> Option<(Place, &Value)>
    ensures { option_map fix_at result ≡ next_handed conjuncts.now }
{
    for first in conjuncts {
        if let Some(handed) = handed_from(conjuncts, first) {
            return Some(handed);
        }
    }
    None
}

/// The first that is handed on with this conjunct as the equality of two columns.
fn handed_from<'a>(conjuncts: &'a [Cond], first: &Cond) -> Option<(Place, &'a Value)>
    ensures { option_map fix_at result
        ≡ first_given
        (λ second. handed_by conjuncts.now (join_in first.now) (fix_in second)) conjuncts.now }
{
    match join(first) {
        Some(join) => handed_over(conjuncts, join),
        None => None,
    }
}

/// The first that is handed on over this equality of two columns.
fn handed_over(conjuncts: &[Cond], join: (Place, Place)) -> Option<(Place, &Value)>
    ensures { option_map fix_at result
        ≡ first_given
        (λ second. handed_by conjuncts.now (Some (join_at join)) (fix_in second))
        conjuncts.now }
{
    for second in conjuncts {
        if let Some((place, literal)) = fix(second) {
            if let Some(place) = other(join, place) {
                if !is_there(conjuncts, place, literal) {
                    return Some((place, literal));
                }
            }
        }
    }
    None
}

/// Whether the equality of this column with this literal is a conjunct.
fn is_there(conjuncts: &[Cond], place: Place, literal: &Value) -> bool
    ensures { result ≡ stands_there conjuncts.now (record { place = place; literal = literal.now }) }
{
    for conjunct in conjuncts {
        if is_equality(conjunct, place, literal) {
            return true;
        }
    }
    false
}

/// Whether a condition is the equality of this column with this literal.
fn is_equality(cond: &Cond, place: Place, literal: &Value) -> bool
    ensures { result ≡ is_fix (record { place = place; literal = literal.now }) (fix_in cond.now) }
{
    match fix(cond) {
        None => false,
        Some((x, other)) => {
            is_same(place, x) && order_of(literal.view(), other.view()) == Ordering::Equal
        }
    }
}
