ghost use Rattle.std.specs.Prelude.{◌≡◌, ◌*ℤ◌, option_map, if◌then◌else◌};
ghost use Rattle.sa_cond.specs.Interval.{Interval, interval_of, is_bigint, number_within, negated, added, subtracted, multiplied};
ghost use Rattle.sa_resolve.specs.inner.Ends.{interval_at};

/// The ends of a static interval, which never leaves the range of BIGINT.
#[derive(Clone, Copy, Debug)]
pub(crate) struct Ends {
    pub(crate) least: i64,
    pub(crate) greatest: i64,
}

impl Ends {
    /// These ends, if they are in the range of BIGINT.
    pub(crate) fn within(least: i128, greatest: i128) -> Option<Ends>
        ensures { option_map interval_at result
            ≡ interval_of (number_within (record { least = least; greatest = greatest })) }
    {
        Some(Ends {
            least: bigint(least)?,
            greatest: bigint(greatest)?,
        })
    }

    /// The interval of a negation.
    pub(crate) fn negated(self) -> Option<Ends>
        ensures { option_map interval_at result
            ≡ interval_of (number_within (negated (interval_at self))) }
    {
        Ends::within(-i128::from(self.greatest), -i128::from(self.least))
    }

    /// The interval of a sum.
    pub(crate) fn added(self, other: Ends) -> Option<Ends>
        ensures { option_map interval_at result
            ≡ interval_of (number_within (added (interval_at self) (interval_at other))) }
    {
        Ends::within(
            i128::from(self.least) + i128::from(other.least),
            i128::from(self.greatest) + i128::from(other.greatest),
        )
    }

    /// The interval of a difference.
    pub(crate) fn subtracted(self, other: Ends) -> Option<Ends>
        ensures { option_map interval_at result
            ≡ interval_of (number_within (subtracted (interval_at self) (interval_at other))) }
    {
        Ends::within(
            i128::from(self.least) - i128::from(other.greatest),
            i128::from(self.greatest) - i128::from(other.least),
        )
    }

    /// The interval of a product, whose ends are among the products of the ends.
    pub(crate) fn multiplied(self, other: Ends) -> Option<Ends>
        ensures { option_map interval_at result
            ≡ interval_of (number_within (multiplied (interval_at self) (interval_at other))) }
    {
        let low = product(self.least, other.least);
        let left = product(self.least, other.greatest);
        let right = product(self.greatest, other.least);
        let high = product(self.greatest, other.greatest);
        Ends::within(
            low.min(left).min(right.min(high)),
            low.max(left).max(right.max(high)),
        )
    }
}

/// The product of two numbers of 64 bits.
fn product(a: i64, b: i64) -> i128
    ensures { result ≡ a *ℤ b }
{
    i128::from(a) * i128::from(b)
}

/// A number, if it is in the range of BIGINT.
fn bigint(number: i128) -> Option<i64>
    ensures { result ≡ (if is_bigint number then Some number else None) }
{
    i64::try_from(number).ok()
}
