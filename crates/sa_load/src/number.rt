ghost use Rattle.std.specs.Prelude.{◌≡◌, ◌↔◌, ◌-◌, ◌^◌, ◌≤◌, true, min, IsSome, IfSome, Some, None, if◌then◌else◌};
ghost use Rattle.std.specs.Str.Parse.{digits_value, starts_with_minus};
ghost use Rattle.sa_load.specs.Field.{are_digits, digits, signed};
ghost use Rattle.sa_load.specs.inner.FieldParts.{is_within};

/// Whether a minus stands first, and what stands behind it.
pub(crate) fn split_minus(field: &[u8]) -> (bool, &[u8])
    ensures minus { result.0 ≡ starts_with_minus field.now }
    ensures digits { result.1.now ≡ digits field.now }
{
    match field {
        [b'-', digits @ ..] => (true, digits),
        _ => (false, field),
    }
}

/// The number that digits write, or `u64::MAX` where it is larger; None where there is no digit or
/// where one of the bytes is none.
pub(crate) fn magnitude(digits: &[u8]) -> Option<u64>
    ensures digits { IsSome result ↔ (are_digits digits.now ≡ true) }
    ensures number { IfSome result (λ n. n ≡ min (digits_value 10 digits.now) (2 ^ 64 - 1)) }
{
    if digits.is_empty() {
        return None;
    }
    let mut number: u64 = 0;
    for byte in digits {
        if !byte.is_ascii_digit() {
            return None;
        }
        number = number
            .saturating_mul(10)
            .saturating_add(u64::from(*byte - b'0'));
    }
    Some(number)
}

/// The number with this sign and magnitude, where a column with this limit can hold it.
pub(crate) fn within(limit: u64, minus: bool, magnitude: u64) -> Option<i64>
    requires { limit ≤ 2 ^ 63 }
    ensures { let held = is_within limit minus magnitude in
        result ≡ (if held then Some (signed minus magnitude) else None) }
{
    if minus {
        if magnitude > limit {
            return None;
        }
        return Some((-i128::from(magnitude)) as i64);
    }
    if magnitude >= limit {
        return None;
    }
    Some(magnitude as i64)
}
