ghost use Rattle.std.specs.Prelude.{◌≡◌, IfOk};
ghost use Rattle.sa_simplify.specs.Decide.{comparison_decided, compared_with_null, decided as decision_of, node_decided, not_decided, not_null_decided, null_decided};
ghost use Rattle.sa_simplify.specs.Node.{literal_of};
ghost use Rattle.sa_simplify.specs.Simple.{IsWellTyped};
ghost use Rattle.sa_simplify.specs.inner.Leaf.{CanDecide};

use crate::walk::{Rewrite, rewritten};
use sa_cond::{Cond, Expr};
use sa_value::{CompareOp, OutOfMemory, Truth, Value, compare};
use sqlite_items::Boxed;
use std::alloc::Global;

/// What literals decide is decided.
#[tactic(auto, unfolding(crate::specs::Decide::decided))]
pub(crate) fn decided(alloc: Global, cond: Cond) -> Result<Cond, OutOfMemory>
    requires { IsWellTyped cond }
    ensures { IfOk result (λ done. done ≡ decision_of cond) }
{
    rewritten::<Decide>(alloc, cond)
}

struct Decide;

impl Rewrite for Decide {
    ghost node_done = { node_decided };

    fn node(alloc: Global, cond: Cond) -> Result<Cond, OutOfMemory> {
        match cond {
            Cond::Compare { op, left, right } => Ok(comparison(op, left, right)),
            Cond::IsNull(x) => Ok(null(x)),
            Cond::NotNull(x) => Ok(not_null(x)),
            Cond::Not(inner) => denied(alloc, inner),
            other => Ok(other),
        }
    }
}

fn comparison(op: CompareOp, left: Expr, right: Expr) -> Cond
    requires { CanDecide (literal_of left) (literal_of right) }
    ensures { result ≡ comparison_decided op (literal_of left) (literal_of right) left right }
{
    match (left, right) {
        (Expr::Literal(a), Expr::Literal(b)) => Cond::Known(compare(op, a.view(), b.view())),
        (Expr::Literal(Value::Null), x) => with_null(op, x),
        (x, Expr::Literal(Value::Null)) => with_null(op, x),
        (left, right) => Cond::Compare { op, left, right },
    }
}

/// The comparison of an expression with NULL.
fn with_null(op: CompareOp, x: Expr) -> Cond
    ensures { result ≡ compared_with_null op x }
{
    match op {
        CompareOp::NullEq => Cond::IsNull(x),
        _ => Cond::Known(Truth::Unknown),
    }
}

/// `x IS NULL`
fn null(x: Expr) -> Cond
    ensures { result ≡ null_decided (literal_of x) x }
{
    match x {
        Expr::Literal(Value::Null) => Cond::Known(Truth::True),
        Expr::Literal(_) => Cond::Known(Truth::False),
        x => Cond::IsNull(x),
    }
}

/// `x IS NOT NULL`
fn not_null(x: Expr) -> Cond
    ensures { result ≡ not_null_decided (literal_of x) x }
{
    match x {
        Expr::Literal(Value::Null) => Cond::Known(Truth::False),
        Expr::Literal(_) => Cond::Known(Truth::True),
        x => Cond::NotNull(x),
    }
}

/// NOT over a condition that is done.
fn denied(alloc: Global, inner: Boxed<Cond>) -> Result<Cond, OutOfMemory>
    ensures { IfOk result (λ done. done ≡ not_decided inner) }
{
    match inner.into_inner() {
        Cond::Known(truth) => Ok(Cond::Known(truth.not())),
        Cond::IsNull(x) => Ok(Cond::NotNull(x)),
        other => Ok(Cond::Not(Boxed::new(alloc, other)?)),
    }
}
