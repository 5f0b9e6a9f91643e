ghost use Rattle.std.specs.Prelude.{◌≡◌, ◌<◌, length, All};
ghost use Rattle.sa_table.specs.Table.{key_tuple};
ghost use Rattle.sa_table.specs.inner.Column.{IsRanged};
ghost use Rattle.sa_table.specs.inner.Digest.{mixed, text_digest, value_digest, digest_of};

use crate::column::number_of;
use sa_value::Value;

/// The next odd number to 2^64 divided by the golden ratio.
const FACTOR: u64 = 11400714819323198485;

/// A digest with one number more in it. That of a number alone is the number.
#[tactic(auto, unfolding(crate::specs::inner::Digest::mixed))]
fn mixed(digest: u64, number: u64) -> u64
    ensures { result ≡ mixed digest number }
{
    digest.wrapping_mul(FACTOR).wrapping_add(number)
}

fn text_digest(text: &str) -> u64
    ensures { result ≡ text_digest text.now }
{
    text.as_bytes()
        .iter()
        .fold(0, |digest, byte| mixed(digest, u64::from(*byte)))
}

/// The digest of a value, or None for NULL.
fn value_digest(value: &Value) -> Option<u64>
    requires { IsRanged value.now }
    ensures { result ≡ value_digest value.now }
{
    match value {
        Value::Text(text) => Some(text_digest(text.as_str())),
        _ => number_of(value).map(|number| number.cast_unsigned()),
    }
}

/// The digest of what a row has in a key, or None where NULL is among it. Equal tuples have equal
/// digests.
pub(crate) fn digest_of(parts: &[u32], row: &[Value]) -> Option<u64>
    requires there { All (λ part. part < length row.now) parts.now }
    requires ranged { All IsRanged row.now }
    ensures { result ≡ digest_of (key_tuple parts.now row.now) }
{
    let mut digest = 0;
    for part in parts {
        digest = mixed(digest, value_digest(&row[*part as usize])?);
    }
    Some(digest)
}
