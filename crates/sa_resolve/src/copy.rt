ghost use Rattle.std.specs.Prelude.{◌≡◌, IfOk};

use sa_cond::Expr;
use sa_value::OutOfMemory;
use sqlite_items::Boxed;
use std::alloc::Global;

/// An equal expression of its own.
#[cycle(copy)]
pub(crate) fn copied(alloc: Global, expr: &Expr) -> Result<Expr, OutOfMemory>
    ensures { IfOk result (λ copy. copy ≡ expr.now) }
{
    match expr {
        Expr::Column { table, column } => Ok(Expr::Column {
            table: *table,
            column: *column,
        }),
        Expr::Slot(number) => Ok(Expr::Slot(*number)),
        Expr::Literal(value) => Ok(Expr::Literal(value.copy(alloc)?)),
        Expr::Negate(x) => Ok(Expr::Negate(boxed(alloc, x.get())?)),
        Expr::Add(x, y) => Ok(Expr::Add(boxed(alloc, x.get())?, boxed(alloc, y.get())?)),
        Expr::Subtract(x, y) => Ok(Expr::Subtract(boxed(alloc, x.get())?, boxed(alloc, y.get())?)),
        Expr::Multiply(x, y) => Ok(Expr::Multiply(boxed(alloc, x.get())?, boxed(alloc, y.get())?)),
    }
}

/// An equal expression in a box.
#[cycle(copy)]
fn boxed(alloc: Global, expr: &Expr) -> Result<Boxed<Expr>, OutOfMemory>
    ensures { IfOk result (λ copy. copy ≡ expr.now) }
{
    let copy = copied(alloc, expr)?;
    Ok(Boxed::new(alloc, copy)?)
}
