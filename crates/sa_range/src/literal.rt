ghost use Rattle.std.specs.Prelude.{◌≡◌, ◌++◌, IfOk, OnOk};
ghost use Rattle.std.specs.List.{flat_map};
ghost use Rattle.sa_cond.specs.declared.expr.Expr.{out-Expr};
ghost use Rattle.sa_range.specs.Atom.{column_in as table_column, literal_in as literal_value, comparison, literal_of, literals_of};

use crate::atom::{column_in, literal_in};
use sa_cond::{Cond, Expr};
use sa_value::{CompareOp, OutOfMemory, Value};
use std::alloc::Global;

/// The literals with which the atoms of a condition compare a column.
pub(crate) fn literals_of(
    alloc: Global,
    table: u32,
    column: u32,
    cond: &Cond,
) -> Result<Vec<Value>, OutOfMemory>
    ensures { IfOk result (λ literals. literals.items ≡ literals_of table column cond.now) }
{
    let mut literals = Vec::new(alloc);
    put_literals(alloc, &mut literals, table, column, cond)?;
    Ok(literals)
}

/// Puts the literals of a condition to the end of others.
#[cycle(literals)]
fn put_literals(
    alloc: Global,
    literals: &mut Vec<Value>,
    table: u32,
    column: u32,
    cond: &Cond,
) -> Result<(), OutOfMemory>
    ensures { OnOk result (literals.new.items
        ≡ literals.old.items ++ literals_of table column cond.now) }
{
    match cond {
        Cond::Compare { op, left, right } => {
            put_literal(alloc, literals, table, column, *op, left, right)
        }
        Cond::And(members) => put_all(alloc, literals, table, column, members.as_slice()),
        Cond::Or(members) => put_all(alloc, literals, table, column, members.as_slice()),
        Cond::Known(_) => Ok(()),
        Cond::IsNull(_) => Ok(()),
        Cond::NotNull(_) => Ok(()),
        Cond::Between {
            value: _,
            low: _,
            high: _,
        } => Ok(()),
        Cond::Among { value: _, list: _ } => Ok(()),
        Cond::Not(_) => Ok(()),
    }
}

/// Puts the literals of several conditions, one after another.
#[cycle(literals)]
fn put_all(
    alloc: Global,
    literals: &mut Vec<Value>,
    table: u32,
    column: u32,
    members: &[Cond],
) -> Result<(), OutOfMemory>
    ensures { OnOk result (literals.new.items
        ≡ literals.old.items ++ flat_map (literals_of table column) members.now) }
{
    for member in members {
        put_literals(alloc, literals, table, column, member)?;
    }
    Ok(())
}

/// Puts the literal with which a comparison compares the column.
fn put_literal(
    alloc: Global,
    literals: &mut Vec<Value>,
    table: u32,
    column: u32,
    op: CompareOp,
    left: &Expr,
    right: &Expr,
) -> Result<(), OutOfMemory>
    ensures { OnOk result (literals.new.items ≡ literals.old.items ++ literal_of column
        (comparison op (table_column table (out-Expr left.now))
        (literal_value (out-Expr right.now)))) }
{
    let Some(other) = column_in(table, left) else {
        return Ok(());
    };
    let Some(literal) = literal_in(right) else {
        return Ok(());
    };
    if other == column {
        literals.push(literal.copy(alloc)?)?;
    }
    Ok(())
}
