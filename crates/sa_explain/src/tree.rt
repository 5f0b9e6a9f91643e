//! The conditions of a plan, as trees of a statement's expressions.
ghost use Rattle.std.specs.Prelude.{◌≡◌, IfOk, map};
ghost use Rattle.sa_print.specs.Expression.{canonical_expr};
ghost use Rattle.sa_explain.specs.Written.{cond_text, expr_text};

use crate::leaf::{column_tree, literal_tree, placeless, truth_tree};
use sa_ast::{ExprNode, ExprTree, ExprTrees};
use sa_cond::{Cond, Expr};
use sa_plan::{Level, Names};
use sa_value::OutOfMemory;
use sqlite_items::Boxed;
use std::alloc::Global;

/// The expression, as a statement writes it.
#[cycle(expr_tree)]
fn expr_tree(
    alloc: Global,
    names: &Names,
    levels: &[Level],
    expr: &Expr,
) -> Result<ExprTree, OutOfMemory>
    ensures { IfOk result (λ tree. canonical_expr tree ≡ expr_text names.now levels.now expr.now) }
{
    match expr {
        Expr::Column { table, column } => column_tree(alloc, names, levels, *table, *column),
        Expr::Slot(_) => Ok(placeless(ExprNode::Null)),
        Expr::Literal(value) => literal_tree(alloc, value),
        Expr::Negate(x) => {
            let x = boxed_expr(alloc, names, levels, x.get())?;
            Ok(placeless(ExprNode::Negate(x)))
        }
        Expr::Add(x, y) => {
            let x = boxed_expr(alloc, names, levels, x.get())?;
            let y = boxed_expr(alloc, names, levels, y.get())?;
            Ok(placeless(ExprNode::Add(x, y)))
        }
        Expr::Subtract(x, y) => {
            let x = boxed_expr(alloc, names, levels, x.get())?;
            let y = boxed_expr(alloc, names, levels, y.get())?;
            Ok(placeless(ExprNode::Subtract(x, y)))
        }
        Expr::Multiply(x, y) => {
            let x = boxed_expr(alloc, names, levels, x.get())?;
            let y = boxed_expr(alloc, names, levels, y.get())?;
            Ok(placeless(ExprNode::Multiply(x, y)))
        }
    }
}

/// The expression in a box.
#[cycle(expr_tree)]
fn boxed_expr(
    alloc: Global,
    names: &Names,
    levels: &[Level],
    expr: &Expr,
) -> Result<Boxed<ExprTree>, OutOfMemory>
    ensures { IfOk result (λ tree. canonical_expr tree ≡ expr_text names.now levels.now expr.now) }
{
    Ok(Boxed::new(alloc, expr_tree(alloc, names, levels, expr)?)?)
}

/// The expressions of a list.
fn expr_trees(
    alloc: Global,
    names: &Names,
    levels: &[Level],
    list: &[Expr],
) -> Result<ExprTrees, OutOfMemory>
    ensures { IfOk result (λ trees. map canonical_expr trees
        ≡ map (expr_text names.now levels.now) list.now) }
{
    let mut trees = ExprTrees::new(alloc);
    for expr in list {
        trees.push(expr_tree(alloc, names, levels, expr)?)?;
    }
    Ok(trees)
}

/// The condition, as a statement writes it.
#[cycle(cond_tree)]
pub(crate) fn cond_tree(
    alloc: Global,
    names: &Names,
    levels: &[Level],
    cond: &Cond,
) -> Result<ExprTree, OutOfMemory>
    ensures { IfOk result (λ tree. canonical_expr tree ≡ cond_text names.now levels.now cond.now) }
{
    match cond {
        Cond::Known(truth) => Ok(truth_tree(*truth)),
        Cond::Compare { op, left, right } => {
            let left = boxed_expr(alloc, names, levels, left)?;
            let right = boxed_expr(alloc, names, levels, right)?;
            Ok(placeless(ExprNode::Compare {
                op: *op,
                left,
                right,
            }))
        }
        Cond::IsNull(expr) => {
            let value = boxed_expr(alloc, names, levels, expr)?;
            Ok(placeless(ExprNode::IsNull {
                value,
                negated: false,
            }))
        }
        Cond::NotNull(expr) => {
            let value = boxed_expr(alloc, names, levels, expr)?;
            Ok(placeless(ExprNode::IsNull {
                value,
                negated: true,
            }))
        }
        Cond::Between { value, low, high } => {
            let value = boxed_expr(alloc, names, levels, value)?;
            let low = boxed_expr(alloc, names, levels, low)?;
            let high = boxed_expr(alloc, names, levels, high)?;
            Ok(placeless(ExprNode::Between {
                value,
                low,
                high,
                negated: false,
            }))
        }
        Cond::Among { value, list } => {
            let value = boxed_expr(alloc, names, levels, value)?;
            let list = expr_trees(alloc, names, levels, list.as_slice())?;
            Ok(placeless(ExprNode::Among {
                value,
                list,
                negated: false,
            }))
        }
        Cond::And(members) => {
            let members = cond_trees(alloc, names, levels, members.as_slice())?;
            Ok(placeless(ExprNode::And(members)))
        }
        Cond::Or(members) => {
            let members = cond_trees(alloc, names, levels, members.as_slice())?;
            Ok(placeless(ExprNode::Or(members)))
        }
        Cond::Not(inner) => {
            let inner = cond_tree(alloc, names, levels, inner.get())?;
            Ok(placeless(ExprNode::Not(Boxed::new(alloc, inner)?)))
        }
    }
}

/// The conditions of a list.
#[cycle(cond_tree)]
fn cond_trees(
    alloc: Global,
    names: &Names,
    levels: &[Level],
    list: &[Cond],
) -> Result<ExprTrees, OutOfMemory>
    ensures { IfOk result (λ trees. map canonical_expr trees
        ≡ map (cond_text names.now levels.now) list.now) }
{
    let mut trees = ExprTrees::new(alloc);
    for cond in list {
        trees.push(cond_tree(alloc, names, levels, cond)?)?;
    }
    Ok(trees)
}
