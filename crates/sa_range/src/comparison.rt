ghost use Rattle.std.specs.Prelude.{◌≡◌};
ghost use Rattle.sa_value.specs.Compare.{holds_at as holds_of, known as known_truth, truth_of as comparison_truth};
ghost use Rattle.sa_cond.specs.Condition.{is_null as is_null_value};
ghost use Rattle.sa_range.specs.Atom.{beside as order_beside, compared_on as compared_truth, tested_on as tested_truth, truth_beside as beside_truth};

use crate::line::Piece;
use sa_value::{CompareOp, Truth, Value, order_of};
use std::cmp::Ordering;

/// The truth of `column op literal` on a piece of the column's line, the same on all of it.
///
/// Source: MariaDB Knowledge Base, "Comparison Operators".
pub(crate) fn compared_on(op: CompareOp, literal: &Value, piece: &Piece) -> Truth
    ensures { result ≡ compared_truth op literal.now piece.now }
{
    match piece {
        Piece::Point(value) => truth_of(op, value, literal),
        Piece::Gap { lower, upper: _ } => truth_beside(op, literal, beside(lower, literal)),
    }
}

/// The truth of IS NULL or IS NOT NULL of a column on a piece of its line.
///
/// Source: MariaDB Knowledge Base, "IS NULL".
pub(crate) fn tested_on(for_null: bool, piece: &Piece) -> Truth
    ensures { result ≡ tested_truth for_null piece.now }
{
    match piece {
        Piece::Point(value) => known(is_null(value) == for_null),
        Piece::Gap { lower: _, upper: _ } => known(!for_null),
    }
}

/// The truth of a comparison of two values, which may be of any kinds.
fn truth_of(op: CompareOp, value: &Value, literal: &Value) -> Truth
    ensures { result ≡ comparison_truth op value.now literal.now }
{
    match (op, value) {
        (CompareOp::NullEq, _) => known(holds_at(op, order_of(value.view(), literal.view()))),
        (_, Value::Null) => Truth::Unknown,
        _ => truth_beside(op, literal, order_of(value.view(), literal.view())),
    }
}

/// The truth of a comparison for whatever stands so to a literal, and isn't NULL.
fn truth_beside(op: CompareOp, literal: &Value, order: Ordering) -> Truth
    ensures { result ≡ beside_truth op literal.now order }
{
    match (op, literal) {
        (CompareOp::NullEq, _) => known(holds_at(op, order)),
        (_, Value::Null) => Truth::Unknown,
        _ => known(holds_at(op, order)),
    }
}

/// How the values of a gap above `lower` stand to a constant.
fn beside(lower: &Value, literal: &Value) -> Ordering
    ensures { result ≡ order_beside lower.now literal.now }
{
    if order_of(literal.view(), lower.view()).is_gt() {
        Ordering::Less
    } else {
        Ordering::Greater
    }
}

/// Whether a comparison holds of values that stand in this order.
fn holds_at(op: CompareOp, order: Ordering) -> bool
    ensures { result ≡ holds_of op order }
{
    match op {
        CompareOp::Eq | CompareOp::NullEq => order == Ordering::Equal,
        CompareOp::Ne => order != Ordering::Equal,
        CompareOp::Lt => order == Ordering::Less,
        CompareOp::Le => order != Ordering::Greater,
        CompareOp::Gt => order == Ordering::Greater,
        CompareOp::Ge => order != Ordering::Less,
    }
}

/// The truth of what is known to hold or not.
fn known(holds: bool) -> Truth
    ensures { result ≡ known_truth holds }
{
    if holds { Truth::True } else { Truth::False }
}

/// Whether a value is NULL.
fn is_null(value: &Value) -> bool
    ensures { result ≡ is_null_value value.now }
{
    matches!(value, Value::Null)
}
