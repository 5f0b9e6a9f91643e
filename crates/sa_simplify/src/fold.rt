ghost use Rattle.std.specs.Prelude.{◌≡◌, neg_ℤ, IfOk, FitsSigned};
ghost use Rattle.std.specs.Int.{w64};
ghost use Rattle.sa_cond.specs.declared.expr.Expr.TheVariants.{Negate};
ghost use Rattle.sa_cond.specs.Expression.{number_of, applied as applied_to};
ghost use Rattle.sa_simplify.specs.Fold.{folded as fold_of, folded_expr as fold_of_expr, literal_or, node_folded_within, value_of_one, value_of_two};
ghost use Rattle.sa_simplify.specs.Node.{literal_of};
ghost use Rattle.sa_simplify.specs.Simple.{IsWellTyped};
ghost use Rattle.sa_simplify.specs.inner.Arithmetic.{IsProper, NegativeFits, ResultFits, number_in, operation, tree};

use crate::walk::{Rewrite, rewritten};
use sa_cond::{Cond, Expr};
use sa_value::{OutOfMemory, Value};
use sqlite_items::Boxed;
use std::alloc::Global;

/// Arithmetic on literals is done beforehand.
#[tactic(auto, unfolding(crate::specs::Fold::folded))]
pub(crate) fn folded(alloc: Global, cond: Cond) -> Result<Cond, OutOfMemory>
    requires { IsWellTyped cond }
    ensures { IfOk result (λ done. done ≡ fold_of cond) }
{
    rewritten::<Fold>(alloc, cond)
}

struct Fold;

impl Rewrite for Fold {
    ghost node_done = { node_folded_within };

    fn node(alloc: Global, cond: Cond) -> Result<Cond, OutOfMemory> {
        match cond {
            Cond::Compare { op, left, right } => {
                let left = folded_expr(alloc, left)?;
                let right = folded_expr(alloc, right)?;
                Ok(Cond::Compare { op, left, right })
            }
            Cond::IsNull(x) => Ok(Cond::IsNull(folded_expr(alloc, x)?)),
            Cond::NotNull(x) => Ok(Cond::NotNull(folded_expr(alloc, x)?)),
            other => Ok(other),
        }
    }
}

/// An operation on two numbers.
#[derive(Clone, Copy, Debug, PartialEq, Eq)]
pub(crate) enum Operation {
    Add,
    Subtract,
    Multiply,
}

/// The expression with its arithmetic on literals done.
#[cycle(fold)]
fn folded_expr(alloc: Global, expr: Expr) -> Result<Expr, OutOfMemory>
    requires { IsProper expr }
    ensures { IfOk result (λ done. done ≡ fold_of_expr expr) }
{
    match expr {
        Expr::Negate(x) => {
            let x = folded_box(alloc, x)?;
            Ok(negated(x))
        }
        Expr::Add(x, y) => {
            let x = folded_box(alloc, x)?;
            let y = folded_box(alloc, y)?;
            Ok(joined(Operation::Add, x, y))
        }
        Expr::Subtract(x, y) => {
            let x = folded_box(alloc, x)?;
            let y = folded_box(alloc, y)?;
            Ok(joined(Operation::Subtract, x, y))
        }
        Expr::Multiply(x, y) => {
            let x = folded_box(alloc, x)?;
            let y = folded_box(alloc, y)?;
            Ok(joined(Operation::Multiply, x, y))
        }
        other => Ok(other),
    }
}

/// The same in a box.
#[cycle(fold)]
fn folded_box(alloc: Global, expr: Boxed<Expr>) -> Result<Boxed<Expr>, OutOfMemory>
    requires { IsProper expr }
    ensures { IfOk result (λ done. done ≡ fold_of_expr expr) }
{
    let done = folded_expr(alloc, expr.into_inner())?;
    Ok(Boxed::new(alloc, done)?)
}

/// The negative of an expression that is done.
fn negated(x: Boxed<Expr>) -> Expr
    requires { NegativeFits (number_in x) }
    ensures { result ≡ literal_or (value_of_one neg_ℤ (literal_of x)) (Negate x) }
{
    match negative(x.get()) {
        Some(value) => Expr::Literal(value),
        None => Expr::Negate(x),
    }
}

/// The value of the negative of a literal: NULL where that is no number.
fn negative(x: &Expr) -> Option<Value>
    requires { NegativeFits (number_in x.now) }
    ensures { result ≡ value_of_one neg_ℤ (literal_of x.now) }
{
    match x {
        Expr::Literal(value) => Some(match number(value) {
            Some(number) => Value::Int(-number as i64),
            None => Value::Null,
        }),
        _ => None,
    }
}

/// An operation on two expressions that are done.
fn joined(op: Operation, x: Boxed<Expr>, y: Boxed<Expr>) -> Expr
    requires { ResultFits (operation op) (number_in x) (number_in y) }
    ensures { result
        ≡ literal_or (value_of_two (operation op) (literal_of x) (literal_of y)) (tree op x y) }
{
    match known(op, x.get(), y.get()) {
        Some(value) => Expr::Literal(value),
        None => match op {
            Operation::Add => Expr::Add(x, y),
            Operation::Subtract => Expr::Subtract(x, y),
            Operation::Multiply => Expr::Multiply(x, y),
        },
    }
}

/// The value of an operation, where literals decide it.
fn known(op: Operation, x: &Expr, y: &Expr) -> Option<Value>
    requires { ResultFits (operation op) (number_in x.now) (number_in y.now) }
    ensures { result ≡ value_of_two (operation op) (literal_of x.now) (literal_of y.now) }
{
    match (x, y) {
        (Expr::Literal(Value::Null), _) => Some(Value::Null),
        (_, Expr::Literal(Value::Null)) => Some(Value::Null),
        (Expr::Literal(x), Expr::Literal(y)) => Some(applied(op, x, y)),
        _ => None,
    }
}

/// What an operation makes of two values: NULL where one is no number.
fn applied(op: Operation, x: &Value, y: &Value) -> Value
    requires { ResultFits (operation op) (number_of x.now) (number_of y.now) }
    ensures { result ≡ applied_to (operation op) x.now y.now }
{
    match (number(x), number(y)) {
        (Some(x), Some(y)) => Value::Int(of_numbers(op, x, y)),
        _ => Value::Null,
    }
}

/// The number that a value is.
fn number(value: &Value) -> Option<i128>
    ensures { result ≡ number_of value.now }
{
    match value {
        Value::Int(number) => Some(i128::from(*number)),
        Value::Big(number) => Some(*number),
        Value::Null | Value::Text(_) => None,
    }
}

/// What an operation makes of two numbers.
fn of_numbers(op: Operation, x: i128, y: i128) -> i64
    requires { FitsSigned w64 (operation op x y) }
    ensures { result ≡ operation op x y }
{
    match op {
        Operation::Add => (x + y) as i64,
        Operation::Subtract => (x - y) as i64,
        Operation::Multiply => (x * y) as i64,
    }
}
