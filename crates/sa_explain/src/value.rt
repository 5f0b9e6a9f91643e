//! Values as JSON.
ghost use Rattle.std.specs.Prelude.{◌≡◌, false, IfOk};
ghost use Rattle.serde_json.specs.View.{view};
ghost use Rattle.serde_json.specs.Written.{has_float};
ghost use Rattle.sa_explain.specs.Values.{value_data, values_data};

use sa_value::{OutOfMemory, Value};
use serde_json::Value as Json;
use std::alloc::{AllocError, Global};

/// These values, as a list.
pub fn values_json(alloc: Global, values: &[Value]) -> Result<Json, OutOfMemory>
    ensures value { IfOk result (λ json. view json ≡ values_data values.now) }
    ensures exact { IfOk result (λ json. has_float (view json) ≡ false) }
{
    let mut items = Vec::new(alloc);
    for value in values {
        items.push(value_json(alloc, value)?)?;
    }
    Ok(Json::from(items))
}

/// A value. A sum is a text of digits, since JSON's readers may not hold its 128 bits.
fn value_json(alloc: Global, value: &Value) -> Result<Json, AllocError>
    ensures { IfOk result (λ json. view json ≡ value_data value.now) }
{
    Ok(match value {
        Value::Null => Json::Null,
        Value::Int(number) => Json::from(*number),
        Value::Big(number) => Json::from(number.to_string(alloc)?),
        Value::Text(text) => Json::try_from_str(alloc, text.as_str())?,
    })
}
