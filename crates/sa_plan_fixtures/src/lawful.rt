ghost use Rattle.std.specs.Prelude.{◌≡◌, ◌<◌, [], ◌∷◌, length, All, IsTrue, IsSome, true};
ghost use Rattle.sa_cond.specs.Cited.{expr_names};
ghost use Rattle.sa_cond.specs.Interval.{text, interval_of, expr_kind};
ghost use Rattle.sa_cond.specs.Typed.{can_compare};
ghost use Rattle.sa_plan.specs.declared.access.Access.TheVariants as access;
ghost use Rattle.sa_plan.specs.declared.plan.Level.{Level as level};
ghost use Rattle.sa_plan.specs.Lawful.{kinds_of, IsLawful, IsLawfulCond, IsLawfulExpr};
ghost use Rattle.sa_plan_fixtures.specs.OnlyTable.{Sees};

use crate::only_table::OnlyTable;
use sa_cond::{CellKind, Cond, Expr, Kinds, interval};
use sa_plan::{Access, Plan};
use sa_query::Item;
use sa_table::Tables;
use sa_value::Value;

/// Whether the plan is of one level by ALL and fits the tables. It says no to one with arithmetic or
/// IN.
pub fn is_lawful(tables: &Tables, plan: &Plan) -> bool
    ensures lawful { IsTrue result → IsLawful tables.now plan.now }
    ensures one_level { IsTrue result → length plan.now.levels ≡ 1 }
    ensures whole { IsTrue result
        → All (λ (level : level). level.access ≡ access.All) plan.now.levels }
{
    let [level] = plan.levels.as_slice() else {
        return false;
    };
    let Access::All = level.access else {
        return false;
    };
    if level.table >= tables.len() {
        return false;
    }
    let only = OnlyTable { tables, level };
    are_lawful_conds(level.conditions.as_slice(), &only)
        && are_lawful_items(plan.select.as_slice(), &only)
}

/// Whether each condition is lawful for the table.
#[cycle(lawful)]
fn are_lawful_conds(conds: &[Cond], only: &OnlyTable<'_>) -> bool
    requires { only.now.level.now.table < length only.now.tables.now }
    ensures { IsTrue result
        → All (IsLawfulCond only.now.tables.now (only.now.level.now ∷ [])) conds.now }
{
    for cond in conds {
        if !is_lawful_cond(cond, only) {
            return false;
        }
    }
    true
}

/// Whether each item's value is lawful for the table.
fn are_lawful_items(items: &[Item], only: &OnlyTable<'_>) -> bool
    requires { only.now.level.now.table < length only.now.tables.now }
    ensures { IsTrue result
        → All (λ item. IsLawfulExpr only.now.tables.now (only.now.level.now ∷ []) item.value)
        items.now }
{
    for item in items {
        if !is_lawful_expr(&item.value, only) {
            return false;
        }
    }
    true
}

/// Whether the condition is lawful for the table.
#[cycle(lawful)]
fn is_lawful_cond(cond: &Cond, only: &OnlyTable<'_>) -> bool
    requires { only.now.level.now.table < length only.now.tables.now }
    ensures { IsTrue result → IsLawfulCond only.now.tables.now (only.now.level.now ∷ []) cond.now }
{
    match cond {
        Cond::Known(_) => true,
        Cond::Compare { left, right, .. } => compare(left, right, only),
        Cond::IsNull(expr) => is_lawful_expr(expr, only),
        Cond::NotNull(expr) => is_lawful_expr(expr, only),
        Cond::Between { value, low, high } => {
            compare(value, low, only) && compare(value, high, only)
        }
        Cond::And(members) => are_lawful_conds(members.as_slice(), only),
        Cond::Or(members) => are_lawful_conds(members.as_slice(), only),
        Cond::Not(inner) => is_lawful_cond(inner.get(), only),
        Cond::Among { .. } => false,
    }
}

/// Whether both are numbers or both are texts. A literal NULL counts as a number.
fn compare(left: &Expr, right: &Expr, only: &OnlyTable<'_>) -> bool
    requires { only.now.level.now.table < length only.now.tables.now }
    ensures left { IsTrue result
        → Sees only.now.tables.now only.now.level.now (expr_names left.now) }
    ensures right { IsTrue result
        → Sees only.now.tables.now only.now.level.now (expr_names right.now) }
    ensures typed { IsTrue result
        → let kinds = kinds_of only.now.tables.now (only.now.level.now ∷ []) in
        can_compare (expr_kind kinds left.now) (expr_kind kinds right.now) ≡ true }
{
    is_number(left, only) && is_number(right, only) || is_text(left, only) && is_text(right, only)
}

/// Whether the expression is lawful for the table.
fn is_lawful_expr(expr: &Expr, only: &OnlyTable<'_>) -> bool
    requires { only.now.level.now.table < length only.now.tables.now }
    ensures { IsTrue result → IsLawfulExpr only.now.tables.now (only.now.level.now ∷ []) expr.now }
{
    is_number(expr, only) || is_text(expr, only)
}

/// Whether the expression is a number or a literal NULL.
fn is_number(expr: &Expr, only: &OnlyTable<'_>) -> bool
    requires { only.now.level.now.table < length only.now.tables.now }
    ensures names { IsTrue result
        → Sees only.now.tables.now only.now.level.now (expr_names expr.now) }
    ensures kind { IsTrue result
        → let kinds = kinds_of only.now.tables.now (only.now.level.now ∷ []) in
        IsSome (interval_of (expr_kind kinds expr.now)) }
{
    is_leaf(expr, only) && interval(expr, only).is_some()
}

/// Whether the expression is a text.
fn is_text(expr: &Expr, only: &OnlyTable<'_>) -> bool
    requires { only.now.level.now.table < length only.now.tables.now }
    ensures names { IsTrue result
        → Sees only.now.tables.now only.now.level.now (expr_names expr.now) }
    ensures kind { IsTrue result
        → let kinds = kinds_of only.now.tables.now (only.now.level.now ∷ []) in
        expr_kind kinds expr.now ≡ text }
{
    match expr {
        Expr::Column { table, column } => {
            only.has(*table, *column) && only.column(*table, *column) == CellKind::Text
        }
        Expr::Literal(Value::Text(_)) => true,
        _ => false,
    }
}

/// Whether the expression is a column of the table, or a literal.
fn is_leaf(expr: &Expr, only: &OnlyTable<'_>) -> bool
    requires { only.now.level.now.table < length only.now.tables.now }
    ensures { IsTrue result → Sees only.now.tables.now only.now.level.now (expr_names expr.now) }
{
    match expr {
        Expr::Column { table, column } => only.has(*table, *column),
        Expr::Literal(_) => true,
        _ => false,
    }
}
