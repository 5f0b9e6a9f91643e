use crate::kind::has_kind;
use crate::sample::Sample;
use crate::typed::is_typed;
use sa_cond::{Cond, Expr, eval, interval, value_of};
use sa_value::{Truth, ValueRef};

/// The truth of a condition on the sample, where it is well-typed.
pub fn truth(cond: &Cond) -> Option<Truth> {
    if is_typed(cond) {
        Some(eval(cond, &Sample))
    } else {
        None
    }
}

/// The ends of the static interval of an expression over the sample.
pub fn ends(expr: &Expr) -> Option<(i128, i128)> {
    interval(expr, &Sample)
}

/// The value of an expression on the sample, where it is well-typed.
pub fn value<'a>(expr: &'a Expr, sample: &'a Sample) -> Option<ValueRef<'a>> {
    if has_kind(expr) {
        Some(value_of(expr, sample))
    } else {
        None
    }
}
