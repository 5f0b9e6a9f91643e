ghost use Rattle.std.specs.Prelude.{◌≡◌, IfOk};

use crate::memory::OutOfMemory;
use crate::text::Text;
use std::alloc::Global;

/// A value of a cell or of an expression.
#[derive(Debug, Drop)]
pub enum Value {
    /// No value.
    Null,
    /// An INT or BIGINT, a count, or what arithmetic makes of them.
    Int(i64),
    /// A sum, which 64 bits may not hold.
    Big(i128),
    /// A VARCHAR.
    Text(Text),
}

/// A value that somebody else holds.
#[derive(Clone, Copy, Debug)]
pub enum ValueRef<'a> {
    Null,
    Int(i64),
    Big(i128),
    Text(&'a str),
}

impl Value {
    ghost use Rattle.sa_value.specs.Value.{value_at};

    /// The value, with its text lent. It takes no memory.
    pub fn view(&self) -> ValueRef<'_>
        ensures { value_at result ≡ self.now }
    {
        match self {
            Value::Null => ValueRef::Null,
            Value::Int(number) => ValueRef::Int(*number),
            Value::Big(number) => ValueRef::Big(*number),
            Value::Text(text) => ValueRef::Text(text.as_str()),
        }
    }

    /// An equal value of its own.
    pub fn copy(&self, alloc: Global) -> Result<Value, OutOfMemory>
        ensures { IfOk result (λ value. value ≡ self.now) }
    {
        Ok(match self {
            Value::Null => Value::Null,
            Value::Int(number) => Value::Int(*number),
            Value::Big(number) => Value::Big(*number),
            Value::Text(text) => Value::Text(text.copy(alloc)?),
        })
    }
}
