//! Trees of expressions, put together from their parts.

ghost use Rattle.std.specs.Prelude.{◌≡◌, IfOk};
ghost use Rattle.sa_parser.specs.Tree as spec;

use crate::tail::{PlacedTail, Tail};
use sa_ast::{AggregateCall, ExprNode, ExprTree, NameTree};
use sa_value::OutOfMemory;
use sqlite_items::Boxed;
use std::alloc::Global;

/// A node at its place.
pub(crate) fn tree(
    alloc: Global,
    place: usize,
    node: ExprNode,
) -> Result<Boxed<ExprTree>, OutOfMemory>
    ensures { IfOk result (λ tree. tree ≡ spec.tree place node) }
{
    Ok(Boxed::new(alloc, ExprTree { node, place })?)
}

/// A column, with the name of its table in front if there are two names.
pub(crate) fn column(
    alloc: Global,
    first: NameTree,
    second: Option<NameTree>,
) -> Result<Boxed<ExprTree>, OutOfMemory>
    ensures { IfOk result (λ tree. tree ≡ spec.column_tree first second) }
{
    let NameTree { name, place } = first;
    let node = match second {
        None => ExprNode::Name {
            table: None,
            column: name,
        },
        Some(second) => ExprNode::Name {
            table: Some(name),
            column: second.name,
        },
    };
    tree(alloc, place, node)
}

/// An aggregate of an argument.
pub(crate) fn aggregate(
    alloc: Global,
    place: usize,
    call: AggregateCall,
    argument: Boxed<ExprTree>,
) -> Result<Boxed<ExprTree>, OutOfMemory>
    ensures { IfOk result (λ tree. tree ≡ spec.aggregate_tree (place, call) argument) }
{
    let node = ExprNode::Aggregate {
        call,
        argument: Some(argument),
    };
    tree(alloc, place, node)
}

/// COUNT of all rows, or of an argument.
pub(crate) fn count(
    alloc: Global,
    place: usize,
    argument: Option<Boxed<ExprTree>>,
) -> Result<Boxed<ExprTree>, OutOfMemory>
    ensures { IfOk result (λ tree. tree ≡ spec.count_tree place argument) }
{
    match argument {
        None => {
            let node = ExprNode::Aggregate {
                call: AggregateCall::CountRows,
                argument: None,
            };
            tree(alloc, place, node)
        }
        Some(argument) => aggregate(alloc, place, AggregateCall::Count, argument),
    }
}

/// What a minus makes of a factor: a number with the other sign, if there is one.
#[tactic(auto, unfolding(crate::specs::Tree::minus_tree))]
pub(crate) fn minus(
    alloc: Global,
    place: usize,
    inner: Boxed<ExprTree>,
) -> Result<Boxed<ExprTree>, OutOfMemory>
    ensures { IfOk result (λ tree. tree ≡ spec.minus_tree place inner) }
{
    let node = match &inner.get().node {
        ExprNode::Number(number) if *number != i128::MIN => ExprNode::Number(-*number),
        _ => ExprNode::Negate(inner),
    };
    tree(alloc, place, node)
}

/// A product.
pub(crate) fn times(
    alloc: Global,
    left: Boxed<ExprTree>,
    place: usize,
    right: Boxed<ExprTree>,
) -> Result<Boxed<ExprTree>, OutOfMemory>
    ensures { IfOk result (λ tree. tree ≡ spec.times_tree left (place, right)) }
{
    tree(alloc, place, ExprNode::Multiply(left, right))
}

/// A sum, or a difference where the sign is a minus.
pub(crate) fn sum(
    alloc: Global,
    left: Boxed<ExprTree>,
    sign: (bool, usize),
    right: Boxed<ExprTree>,
) -> Result<Boxed<ExprTree>, OutOfMemory>
    ensures { IfOk result (λ tree. tree ≡ spec.sum_tree left (sign, right)) }
{
    let (is_minus, place) = sign;
    let node = if is_minus {
        ExprNode::Subtract(left, right)
    } else {
        ExprNode::Add(left, right)
    };
    tree(alloc, place, node)
}

/// NOT of a condition.
pub(crate) fn not(
    alloc: Global,
    place: usize,
    inner: Boxed<ExprTree>,
) -> Result<Boxed<ExprTree>, OutOfMemory>
    ensures { IfOk result (λ tree. tree ≡ spec.not_tree place inner) }
{
    tree(alloc, place, ExprNode::Not(inner))
}

/// A value with what makes a predicate of it.
pub(crate) fn predicate(
    alloc: Global,
    value: Boxed<ExprTree>,
    tail: PlacedTail,
) -> Result<Boxed<ExprTree>, OutOfMemory>
    ensures { IfOk result (λ tree. tree ≡ spec.predicate_tree value (Some tail)) }
{
    let PlacedTail { place, tail } = tail;
    tree(alloc, place, tail_node(value, tail))
}

/// The predicate that a tail makes of the value before it.
fn tail_node(value: Boxed<ExprTree>, tail: Tail) -> ExprNode
    ensures { result ≡ spec.tail_node value tail }
{
    match tail {
        Tail::Compare { op, right } => ExprNode::Compare {
            op,
            left: value,
            right,
        },
        Tail::IsNull { negated } => ExprNode::IsNull { value, negated },
        Tail::Between { low, high, negated } => ExprNode::Between {
            value,
            low,
            high,
            negated,
        },
        Tail::Among { list, negated } => ExprNode::Among {
            value,
            list,
            negated,
        },
    }
}
