//! Expressions and conditions in a line.
//!
//! `0.1` is the second column of the first table of FROM, and `$0` the first slot.

use sa_cond::{Cond, Expr};
use sa_value::{OutOfMemory, Value};

#[cycle(expr)]
pub(crate) fn push_expr(line: &mut String, expr: &Expr) -> Result<(), OutOfMemory> {
    match expr {
        Expr::Column { table, column } => Ok(write!(line, "{table}.{column}")?),
        Expr::Slot(number) => Ok(write!(line, "${number}")?),
        Expr::Literal(value) => push_value(line, value),
        Expr::Negate(x) => {
            push_operand(line, "(-", x.get())?;
            Ok(line.push_str(")")?)
        }
        Expr::Add(x, y) => {
            push_operand(line, "(", x.get())?;
            push_operand(line, " + ", y.get())?;
            Ok(line.push_str(")")?)
        }
        Expr::Subtract(x, y) => {
            push_operand(line, "(", x.get())?;
            push_operand(line, " - ", y.get())?;
            Ok(line.push_str(")")?)
        }
        Expr::Multiply(x, y) => {
            push_operand(line, "(", x.get())?;
            push_operand(line, " * ", y.get())?;
            Ok(line.push_str(")")?)
        }
    }
}

/// The operand, behind what stands before it.
#[cycle(expr)]
fn push_operand(line: &mut String, before: &str, operand: &Expr) -> Result<(), OutOfMemory> {
    line.push_str(before)?;
    push_expr(line, operand)
}

fn push_value(line: &mut String, value: &Value) -> Result<(), OutOfMemory> {
    match value {
        Value::Null => Ok(line.push_str("NULL")?),
        Value::Int(number) => Ok(write!(line, "{number}")?),
        Value::Big(number) => Ok(write!(line, "big {number}")?),
        Value::Text(text) => Ok(write!(line, "'{}'", text.as_str())?),
    }
}

#[cycle(cond)]
pub(crate) fn push_cond(line: &mut String, cond: &Cond) -> Result<(), OutOfMemory> {
    match cond {
        Cond::Known(truth) => Ok(write!(line, "{truth:?}")?),
        Cond::Compare { op, left, right } => {
            push_expr(line, left)?;
            write!(line, " {op:?} ")?;
            push_expr(line, right)
        }
        Cond::IsNull(value) => {
            push_expr(line, value)?;
            Ok(line.push_str(" null")?)
        }
        Cond::NotNull(value) => {
            push_expr(line, value)?;
            Ok(line.push_str(" not null")?)
        }
        Cond::Between { value, low, high } => {
            push_expr(line, value)?;
            push_operand(line, " between ", low)?;
            push_operand(line, " and ", high)
        }
        Cond::Among { value, list } => {
            push_expr(line, value)?;
            push_list(line, list.as_slice())
        }
        Cond::And(members) => push_conds(line, "and", members.as_slice()),
        Cond::Or(members) => push_conds(line, "or", members.as_slice()),
        Cond::Not(inner) => {
            line.push_str("not (")?;
            push_cond(line, inner.get())?;
            Ok(line.push_str(")")?)
        }
    }
}

fn push_list(line: &mut String, list: &[Expr]) -> Result<(), OutOfMemory> {
    line.push_str(" in")?;
    for member in list {
        push_operand(line, " ", member)?;
    }
    Ok(())
}

/// The members of AND or OR, behind the word.
#[cycle(cond)]
fn push_conds(line: &mut String, word: &str, members: &[Cond]) -> Result<(), OutOfMemory> {
    line.push_str(word)?;
    for member in members {
        line.push_str(" (")?;
        push_cond(line, member)?;
        line.push_str(")")?;
    }
    Ok(())
}
