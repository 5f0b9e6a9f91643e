ghost use Rattle.std.specs.Prelude.{◌≡◌, ◌*ℤ◌, option_map};
ghost use Rattle.sa_cond.specs.Interval.{interval_of, number_within, negated, added, subtracted, multiplied, kind_of_cell, kind_of_literal};
ghost use Rattle.sa_cond.specs.Interval.{Interval};
ghost use Rattle.sa_cond.specs.inner.Ends.{interval_at};

use crate::cells::CellKind;
use crate::number::bigint;
use sa_value::Value;

/// The ends of a static interval, which never leaves the range of BIGINT.
#[derive(Clone, Copy)]
pub(crate) struct Ends {
    pub(crate) least: i64,
    pub(crate) greatest: i64,
}

impl Ends {
    /// These ends, if they are in the range of BIGINT.
    fn within(least: i128, greatest: i128) -> Option<Ends>
        ensures { option_map interval_at result
            ≡ interval_of (number_within (record { least = least; greatest = greatest })) }
    {
        Some(Ends {
            least: bigint(least)?,
            greatest: bigint(greatest)?,
        })
    }

    /// The interval of a column or a slot, where it has one.
    pub(crate) fn of_cell(kind: CellKind) -> Option<Ends>
        ensures { option_map interval_at result ≡ interval_of (kind_of_cell kind) }
    {
        match kind {
            CellKind::Number { least, greatest } => Some(Ends { least, greatest }),
            CellKind::Sum | CellKind::Text => None,
        }
    }

    /// The interval of a literal, where it has one. That of NULL is 0 to 0.
    pub(crate) fn of_literal(value: &Value) -> Option<Ends>
        ensures { option_map interval_at result ≡ interval_of (kind_of_literal value.now) }
    {
        match value {
            Value::Null => Some(Ends {
                least: 0,
                greatest: 0,
            }),
            Value::Int(number) => Some(Ends {
                least: *number,
                greatest: *number,
            }),
            Value::Big(number) => Ends::within(*number, *number),
            Value::Text(_) => None,
        }
    }

    /// The interval of a negation.
    pub(crate) fn negated(self) -> Option<Ends>
        ensures { option_map interval_at result
            ≡ interval_of (number_within (negated (interval_at self))) }
    {
        Ends::within(-i128::from(self.greatest), -i128::from(self.least))
    }

    /// The interval of a sum.
    pub(crate) fn added(self, other: Ends) -> Option<Ends>
        ensures { option_map interval_at result
            ≡ interval_of (number_within (added (interval_at self) (interval_at other))) }
    {
        Ends::within(
            i128::from(self.least) + i128::from(other.least),
            i128::from(self.greatest) + i128::from(other.greatest),
        )
    }

    /// The interval of a difference.
    pub(crate) fn subtracted(self, other: Ends) -> Option<Ends>
        ensures { option_map interval_at result
            ≡ interval_of (number_within (subtracted (interval_at self) (interval_at other))) }
    {
        Ends::within(
            i128::from(self.least) - i128::from(other.greatest),
            i128::from(self.greatest) - i128::from(other.least),
        )
    }

    /// The interval of a product, whose ends are among the products of the ends.
    pub(crate) fn multiplied(self, other: Ends) -> Option<Ends>
        ensures { option_map interval_at result
            ≡ interval_of (number_within (multiplied (interval_at self) (interval_at other))) }
    {
        let low = product(self.least, other.least);
        let left = product(self.least, other.greatest);
        let right = product(self.greatest, other.least);
        let high = product(self.greatest, other.greatest);
        Ends::within(
            low.min(left).min(right.min(high)),
            low.max(left).max(right.max(high)),
        )
    }
}

/// The product of two numbers of 64 bits.
fn product(a: i64, b: i64) -> i128
    ensures { result ≡ a *ℤ b }
{
    i128::from(a) * i128::from(b)
}
