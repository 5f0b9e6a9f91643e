use sa_value::{CompareOp, Text};
use sqlite_items::{Boxed, Items};

/// The functions over the rows of a group.
///
/// Source: MariaDB Knowledge Base, "Aggregate Functions".
#[derive(Clone, Copy, Debug, PartialEq, Eq)]
pub enum AggregateCall {
    /// `COUNT(*)`, which has no argument.
    CountRows,
    /// `COUNT(x)`
    Count,
    Sum,
    Min,
    Max,
}

/// An expression, and where a fault in it is shown.
#[cycle(expression)]
#[derive(Debug, Drop)]
pub struct ExprTree {
    pub node: ExprNode,
    /// The first byte of its operator, or else of the expression.
    pub place: usize,
}

/// A list of expressions.
pub type ExprTrees = Items<ExprTree>;

/// An expression as it is written, without its brackets.
///
/// Source: MariaDB Knowledge Base, "Comparison Operators", "Logical Operators" and "Arithmetic
/// Operators".
#[cycle(expression)]
#[derive(Debug, Drop)]
pub enum ExprNode {
    /// A number with its sign.
    Number(i128),
    Text(Text),
    Null,
    /// TRUE or FALSE.
    Known(bool),
    /// A column, after its table and a dot if the table is written.
    Name {
        table: Option<Text>,
        column: Text,
    },
    /// The argument stands for all calls but that of all rows.
    Aggregate {
        call: AggregateCall,
        argument: Option<Boxed<ExprTree>>,
    },
    Negate(Boxed<ExprTree>),
    Compare {
        op: CompareOp,
        left: Boxed<ExprTree>,
        right: Boxed<ExprTree>,
    },
    /// `IS NULL`, or `IS NOT NULL` where it is negated.
    IsNull {
        value: Boxed<ExprTree>,
        negated: bool,
    },
    Between {
        value: Boxed<ExprTree>,
        low: Boxed<ExprTree>,
        high: Boxed<ExprTree>,
        negated: bool,
    },
    /// `IN`, or `NOT IN` where it is negated.
    Among {
        value: Boxed<ExprTree>,
        list: ExprTrees,
        negated: bool,
    },
    /// Two or more members.
    And(ExprTrees),
    /// Two or more members.
    Or(ExprTrees),
    Not(Boxed<ExprTree>),
    Add(Boxed<ExprTree>, Boxed<ExprTree>),
    Subtract(Boxed<ExprTree>, Boxed<ExprTree>),
    Multiply(Boxed<ExprTree>, Boxed<ExprTree>),
}
