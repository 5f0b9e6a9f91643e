ghost use Rattle.std.specs.Prelude.{◌≡◌, if◌then◌else◌, is_some};
ghost use Rattle.sa_cond.specs.Interval.{expr_kind, static_interval};
ghost use Rattle.sa_cond.specs.Typed.{can_compare, is_proper};
ghost use Rattle.sa_sample.specs.declared.kind.Kind.TheVariants.{Faulty, Number};
ghost use Rattle.sa_sample.specs.Sample.{sample_kinds};
ghost use Rattle.sa_sample.specs.inner.Fits.{fit, proper, told};

use crate::sample::Sample;
use sa_cond::{CellKind, Expr, Kinds, interval};
use sa_value::Value;

/// What an expression over the sample is: a number where it has a static interval.
#[derive(Clone, Copy)]
pub(crate) enum Kind {
    Number,
    Sum,
    Text,
    Null,
    Faulty,
}

fn kind_of(expr: &Expr) -> Kind
    ensures { result ≡ told (expr_kind sample_kinds expr.now) }
{
    match expr {
        Expr::Literal(value) => match value {
            Value::Null => Kind::Null,
            Value::Text(_) => Kind::Text,
            _ => number(expr),
        },
        Expr::Slot(_) => Kind::Sum,
        Expr::Column { table, column } => match Sample.column(*table, *column) {
            CellKind::Text => Kind::Text,
            _ => number(expr),
        },
        _ => number(expr),
    }
}

/// A number, if the expression has a static interval.
fn number(expr: &Expr) -> Kind
    ensures { result
        ≡ (if is_some (static_interval sample_kinds expr.now) then Number else Faulty) }
{
    match interval(expr, &Sample) {
        Some(_) => Kind::Number,
        None => Kind::Faulty,
    }
}

/// Whether an expression has a kind at all.
pub(crate) fn has_kind(expr: &Expr) -> bool
    ensures { result ≡ is_proper (expr_kind sample_kinds expr.now) }
{
    is_proper_kind(kind_of(expr))
}

fn is_proper_kind(kind: Kind) -> bool
    ensures { result ≡ proper kind }
{
    match kind {
        Kind::Faulty => false,
        _ => true,
    }
}

/// Whether two expressions may be compared.
pub(crate) fn comparable(left: &Expr, right: &Expr) -> bool
    ensures { result
        ≡ can_compare (expr_kind sample_kinds left.now) (expr_kind sample_kinds right.now) }
{
    kinds_fit(kind_of(left), kind_of(right))
}

/// Whether two kinds may be compared.
fn kinds_fit(left: Kind, right: Kind) -> bool
    ensures { result ≡ fit left right }
{
    match (left, right) {
        (Kind::Faulty, _) => false,
        (_, Kind::Faulty) => false,
        (Kind::Text, Kind::Number) => false,
        (Kind::Text, Kind::Sum) => false,
        (Kind::Number, Kind::Text) => false,
        (Kind::Sum, Kind::Text) => false,
        _ => true,
    }
}
