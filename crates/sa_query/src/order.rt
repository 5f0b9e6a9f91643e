use sa_cond::Expr;
use sa_value::Sequence;

/// An item of ORDER BY.
#[derive(Debug, Drop)]
pub struct OrderKey {
    pub value: Expr,
    /// Whether its values fall from row to row (DESC), and don't rise.
    pub down: bool,
}

/// The items of ORDER BY, the first of which counts most.
pub type OrderKeys = Sequence<OrderKey>;
