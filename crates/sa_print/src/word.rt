ghost use Rattle.std.specs.Prelude.{◌≡◌, ◌++◌, codes};
ghost use Rattle.sa_print.specs.Statement.{switch_word};
ghost use Rattle.sa_print.specs.Expression.{comparison_sign, call_name, truth_text, not_text};

use sa_ast::AggregateCall;
use sa_value::CompareOp;

/// How a comparison is written, between its blanks.
pub(crate) fn comparison_word(op: CompareOp) -> &'static str
    ensures { result.now ≡ codes " " ++ comparison_sign op ++ codes " " }
{
    match op {
        CompareOp::Eq => " = ",
        CompareOp::NullEq => " <=> ",
        CompareOp::Ne => " <> ",
        CompareOp::Lt => " < ",
        CompareOp::Le => " <= ",
        CompareOp::Gt => " > ",
        CompareOp::Ge => " >= ",
    }
}

/// The name of an aggregate.
pub(crate) fn call_name(call: AggregateCall) -> &'static str
    ensures { result.now ≡ call_name call }
{
    match call {
        AggregateCall::CountRows | AggregateCall::Count => "COUNT",
        AggregateCall::Sum => "SUM",
        AggregateCall::Min => "MIN",
        AggregateCall::Max => "MAX",
    }
}

/// How a truth is written.
pub(crate) fn truth_word(holds: bool) -> &'static str
    ensures { result.now ≡ truth_text holds }
{
    if holds { "TRUE" } else { "FALSE" }
}

/// What follows a value that is tested for NULL.
pub(crate) fn null_word(negated: bool) -> &'static str
    ensures { result.now ≡ codes " IS " ++ not_text negated ++ codes "NULL)" }
{
    if negated {
        " IS NOT NULL)"
    } else {
        " IS NULL)"
    }
}

/// What stands between a value and its bounds.
pub(crate) fn between_word(negated: bool) -> &'static str
    ensures { result.now ≡ codes " " ++ not_text negated ++ codes "BETWEEN " }
{
    if negated {
        " NOT BETWEEN "
    } else {
        " BETWEEN "
    }
}

/// What stands between a value and the list that it is sought in.
pub(crate) fn in_word(negated: bool) -> &'static str
    ensures { result.now ≡ codes " " ++ not_text negated ++ codes "IN (" }
{
    if negated { " NOT IN (" } else { " IN (" }
}

/// How a switch is set.
pub(crate) fn switch_word(on: bool) -> &'static str
    ensures { result.now ≡ switch_word on }
{
    if on { "on" } else { "off" }
}
