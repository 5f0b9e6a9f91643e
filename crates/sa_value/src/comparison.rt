ghost use Rattle.std.specs.Prelude.{◌≡◌};
ghost use Rattle.sa_value.specs.Value.{value_at};
ghost use Rattle.std.specs.Cmp.{IsTotalOrder};
ghost use Rattle.sa_value.specs.Compare.{order_of as order_between, truth_of, CanCompare};

use crate::truth::{CompareOp, Truth};
use crate::value::ValueRef;
use std::cmp::Ordering;

/// The truth of `a op b`.
///
/// The two are numbers, or texts, or one of them is NULL. Texts are compared by their bytes.
/// Source: MariaDB Knowledge Base, "Comparison Operators"; the order of texts is this project's.
pub fn compare(op: CompareOp, a: ValueRef<'_>, b: ValueRef<'_>) -> Truth
    requires { CanCompare (value_at a) (value_at b) }
    ensures { result ≡ truth_of op (value_at a.entry) (value_at b.entry) }
{
    match (op, a, b) {
        (CompareOp::NullEq, _, _) => Truth::known(op.holds_at(order_of(a, b))),
        (_, ValueRef::Null, _) | (_, _, ValueRef::Null) => Truth::Unknown,
        _ => Truth::known(op.holds_at(order_of(a, b))),
    }
}

/// How two values stand to each other: NULL comes first, then numbers by their value, then texts by
/// their bytes.
///
/// Source: MariaDB Knowledge Base, "ORDER BY", for NULL and numbers; the rest is this project's.
pub fn order_of(a: ValueRef<'_>, b: ValueRef<'_>) -> Ordering
    ensures { result ≡ order_between (value_at a.entry) (value_at b.entry) }
{
    match (a, b) {
        (ValueRef::Null, ValueRef::Null) => Ordering::Equal,
        (ValueRef::Null, _) => Ordering::Less,
        (_, ValueRef::Null) => Ordering::Greater,
        (ValueRef::Int(a), ValueRef::Int(b)) => a.cmp(&b),
        (ValueRef::Int(a), ValueRef::Big(b)) => i128::from(a).cmp(&b),
        (ValueRef::Big(a), ValueRef::Int(b)) => a.cmp(&i128::from(b)),
        (ValueRef::Big(a), ValueRef::Big(b)) => a.cmp(&b),
        (ValueRef::Text(a), ValueRef::Text(b)) => a.cmp(b),
        (ValueRef::Int(_) | ValueRef::Big(_), ValueRef::Text(_)) => Ordering::Less,
        (ValueRef::Text(_), ValueRef::Int(_) | ValueRef::Big(_)) => Ordering::Greater,
    }
}

/// The order of values is a total one: turned round it is the reverse, it is transitive, and values
/// that are equal in it stand alike to every third one. Sorting and searching rest on it.
pub fn order_is_total()
    ensures { IsTotalOrder order_between }
{}
