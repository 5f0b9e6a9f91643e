/// The rules by which an inner part of an expression is read, one level below what holds it.
#[derive(Clone, Copy, Debug, PartialEq, Eq)]
pub(crate) enum Rule {
    /// What stands in brackets.
    Expression,
    /// What stands behind NOT.
    Negation,
    /// The argument of an aggregate.
    Sum,
    /// What stands behind a sign.
    Factor,
}
