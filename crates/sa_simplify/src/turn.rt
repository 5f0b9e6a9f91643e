ghost use Rattle.std.specs.Prelude.{◌≡◌, IfOk};
ghost use Rattle.sa_simplify.specs.Node.{is_literal as is_a_literal};
ghost use Rattle.sa_simplify.specs.Simple.{IsWellTyped};
ghost use Rattle.sa_simplify.specs.Turn.{comparison_turned, mirrored as mirror_of, node_turned, turned as turned_round};

use crate::walk::{Rewrite, rewritten};
use sa_cond::{Cond, Expr};
use sa_value::{CompareOp, OutOfMemory};
use std::alloc::Global;

/// Comparisons with a literal on the left alone are turned round.
#[tactic(auto, unfolding(crate::specs::Turn::turned))]
pub(crate) fn turned(alloc: Global, cond: Cond) -> Result<Cond, OutOfMemory>
    requires { IsWellTyped cond }
    ensures { IfOk result (λ done. done ≡ turned_round cond) }
{
    rewritten::<Turn>(alloc, cond)
}

struct Turn;

impl Rewrite for Turn {
    ghost node_done = { node_turned };

    fn node(_alloc: Global, cond: Cond) -> Result<Cond, OutOfMemory> {
        match cond {
            Cond::Compare { op, left, right } => Ok(comparison(op, left, right)),
            other => Ok(other),
        }
    }
}

fn comparison(op: CompareOp, left: Expr, right: Expr) -> Cond
    ensures { result ≡ comparison_turned op left right }
{
    if is_literal(&left) && !is_literal(&right) {
        Cond::Compare {
            op: mirrored(op),
            left: right,
            right: left,
        }
    } else {
        Cond::Compare { op, left, right }
    }
}

fn is_literal(expr: &Expr) -> bool
    ensures { result ≡ is_a_literal expr.now }
{
    match expr {
        Expr::Literal(_) => true,
        _ => false,
    }
}

/// The comparison that says the same with its sides exchanged.
fn mirrored(op: CompareOp) -> CompareOp
    ensures { result ≡ mirror_of op }
{
    match op {
        CompareOp::Eq => CompareOp::Eq,
        CompareOp::NullEq => CompareOp::NullEq,
        CompareOp::Ne => CompareOp::Ne,
        CompareOp::Lt => CompareOp::Gt,
        CompareOp::Le => CompareOp::Ge,
        CompareOp::Gt => CompareOp::Lt,
        CompareOp::Ge => CompareOp::Le,
    }
}
