ghost use Rattle.std.specs.Prelude.{◌≡◌};
ghost use Rattle.sa_parser.specs.SetupTree as spec;

use sa_value::Value;

/// A number as a value: an `Int` where 64 bits hold it.
#[tactic(auto, unfolding(crate::specs::SetupTree::number_value))]
pub(crate) fn number_value(number: i128) -> Value
    ensures { result ≡ spec.number_value number }
{
    match i64::try_from(number) {
        Ok(number) => Value::Int(number),
        Err(_) => Value::Big(number),
    }
}
