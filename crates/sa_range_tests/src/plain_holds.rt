//! Whether a condition is TRUE where some columns have a value, and whatever else counts as TRUE.

use sa_cond::{Cond, Expr};
use sa_value::{CompareOp, Truth, Value};

/// A column of the first table that has a value; None is NULL.
#[derive(Clone, Copy)]
pub(crate) struct Choice {
    pub(crate) column: u32,
    pub(crate) value: Option<i64>,
}

/// What is chosen: a column, and perhaps another one.
#[derive(Clone, Copy)]
pub(crate) struct Chosen {
    pub(crate) first: Choice,
    pub(crate) second: Option<Choice>,
}

/// Whether the condition is TRUE. No NOT stands over what may be UNKNOWN.
#[cycle(holds)]
pub(crate) fn holds(cond: &Cond, chosen: Chosen) -> bool {
    match cond {
        Cond::Known(truth) => *truth != Truth::False,
        Cond::Compare { op, left, right } => compared(*op, left, right, chosen),
        Cond::IsNull(x) => is_null(x, chosen, true),
        Cond::NotNull(x) => is_null(x, chosen, false),
        Cond::And(members) => all_hold(members.as_slice(), chosen),
        Cond::Or(members) => some_holds(members.as_slice(), chosen),
        _ => true,
    }
}

#[cycle(holds)]
fn all_hold(members: &[Cond], chosen: Chosen) -> bool {
    for member in members {
        if !holds(member, chosen) {
            return false;
        }
    }
    true
}

#[cycle(holds)]
fn some_holds(members: &[Cond], chosen: Chosen) -> bool {
    for member in members {
        if holds(member, chosen) {
            return true;
        }
    }
    false
}

fn compared(op: CompareOp, left: &Expr, right: &Expr, chosen: Chosen) -> bool {
    let Some(constant) = number_of(right) else {
        return true;
    };
    match choice_of(left, chosen) {
        None => true,
        Some(choice) => match choice.value {
            None => false,
            Some(value) => is_so(op, value, constant),
        },
    }
}

fn is_so(op: CompareOp, value: i64, constant: i64) -> bool {
    match op {
        CompareOp::Eq | CompareOp::NullEq => value == constant,
        CompareOp::Ne => value != constant,
        CompareOp::Lt => value < constant,
        CompareOp::Le => value <= constant,
        CompareOp::Gt => value > constant,
        CompareOp::Ge => value >= constant,
    }
}

/// Whether NULL is what is wanted, or what isn't.
fn is_null(x: &Expr, chosen: Chosen, wanted: bool) -> bool {
    match choice_of(x, chosen) {
        None => true,
        Some(choice) => choice.value.is_none() == wanted,
    }
}

/// The choice of the column that an expression is, if there is one.
fn choice_of(expr: &Expr, chosen: Chosen) -> Option<Choice> {
    let column = column_of(expr)?;
    if chosen.first.column == column {
        return Some(chosen.first);
    }
    let second = chosen.second?;
    if second.column == column {
        Some(second)
    } else {
        None
    }
}

fn column_of(expr: &Expr) -> Option<u32> {
    match expr {
        Expr::Column { table: 0, column } => Some(*column),
        _ => None,
    }
}

fn number_of(expr: &Expr) -> Option<i64> {
    match expr {
        Expr::Literal(Value::Int(number)) => Some(*number),
        _ => None,
    }
}

/// Whether an atom of the condition compares a column with a constant.
#[cycle(names)]
pub(crate) fn names(cond: &Cond, column: u32, constant: i64) -> bool {
    match cond {
        Cond::Compare { op: _, left, right } => {
            column_of(left) == Some(column) && number_of(right) == Some(constant)
        }
        Cond::And(members) => some_names(members.as_slice(), column, constant),
        Cond::Or(members) => some_names(members.as_slice(), column, constant),
        _ => false,
    }
}

#[cycle(names)]
fn some_names(members: &[Cond], column: u32, constant: i64) -> bool {
    for member in members {
        if names(member, column, constant) {
            return true;
        }
    }
    false
}
