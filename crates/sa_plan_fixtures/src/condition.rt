use sa_cond::{Cond, Conds, Expr};
use sa_value::{CompareOp, OutOfMemory, Text, Truth, Value};
use sqlite_items::{Boxed, Items};
use std::alloc::Global;

/// The position in FROM by which the tests' trees name their table.
pub const POSITION: u32 = 3;

/// An operand.
#[derive(Clone, Copy)]
pub enum Operand {
    Column(u32),
    Number(i64),
    Text(&'static str),
    Null,
}

/// A condition.
#[derive(Clone, Copy)]
pub enum Test {
    Known(Truth),
    Compare(Operand, CompareOp, Operand),
    IsNull(Operand),
    NotNull(Operand),
    Between(Operand, i64, i64),
    NotBetween(Operand, i64, i64),
}

impl Operand {
    /// Its tree.
    pub fn expr(self, alloc: Global) -> Result<Expr, OutOfMemory> {
        Ok(match self {
            Operand::Column(column) => Expr::Column {
                table: POSITION,
                column,
            },
            Operand::Number(number) => Expr::Literal(Value::Int(number)),
            Operand::Text(characters) => {
                Expr::Literal(Value::Text(Text::from_str(alloc, characters)?))
            }
            Operand::Null => Expr::Literal(Value::Null),
        })
    }
}

impl Test {
    /// Its tree.
    pub fn cond(self, alloc: Global) -> Result<Cond, OutOfMemory> {
        Ok(match self {
            Test::Known(truth) => Cond::Known(truth),
            Test::Compare(left, op, right) => Cond::Compare {
                op,
                left: left.expr(alloc)?,
                right: right.expr(alloc)?,
            },
            Test::IsNull(operand) => Cond::IsNull(operand.expr(alloc)?),
            Test::NotNull(operand) => Cond::NotNull(operand.expr(alloc)?),
            Test::Between(operand, low, high) => between(alloc, operand, low, high)?,
            Test::NotBetween(operand, low, high) => {
                Cond::Not(Boxed::new(alloc, between(alloc, operand, low, high)?)?)
            }
        })
    }
}

/// The tree of `operand BETWEEN low AND high`.
fn between(alloc: Global, operand: Operand, low: i64, high: i64) -> Result<Cond, OutOfMemory> {
    Ok(Cond::Between {
        value: operand.expr(alloc)?,
        low: Expr::Literal(Value::Int(low)),
        high: Expr::Literal(Value::Int(high)),
    })
}

/// The trees of these conditions.
pub fn conditions_of(alloc: Global, tests: &[Test]) -> Result<Conds, OutOfMemory> {
    let mut conditions = Items::new(alloc);
    for test in tests {
        conditions.push(test.cond(alloc)?)?;
    }
    Ok(conditions)
}
