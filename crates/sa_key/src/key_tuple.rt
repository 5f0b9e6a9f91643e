ghost use Rattle.std.specs.Prelude.{◌≡◌, ◌<◌, ◌≤◌, ◌↔◌, [], ◌∷◌, ◌++◌, length, take, IsTrue, IfOk, OnOk, OnErr};
ghost use Rattle.sa_key.specs.Range.{without_last_nulls};

use crate::key_ref::KeyRef;
use sa_value::{OutOfMemory, Value, Values};
use std::alloc::Global;
use std::marker::Model;

/// The values of a key's parts, up to four. Contracts see the list of them.
#[derive(Debug, Drop)]
pub struct KeyTuple {
    values: Values,
}

impl Model for KeyTuple {
    ghost use Rattle.std.specs.Prelude.{◌≤◌, List, length};
    ghost use Rattle.sa_value.specs.declared.value.Value.{Value as value};

    ghost Value = { List value };

    ghost view = { λ tuple. tuple.values };

    ghost invariant = { λ tuple. length tuple.values ≤ 4 };
}

impl KeyTuple {
    /// No values. It takes memory from `alloc` as it grows.
    pub fn new(alloc: Global) -> KeyTuple
        ensures { result ≡ [] }
    {
        KeyTuple {
            values: Values::new(alloc),
        }
    }

    /// These values. It takes no memory.
    pub fn from_values(values: Values) -> KeyTuple
        requires { length values ≤ 4 }
        ensures { result ≡ values }
    {
        KeyTuple { values }
    }

    /// Puts a value at the end. There is room for it. An error leaves the tuple as it was.
    pub fn push(&mut self, value: Value) -> Result<(), OutOfMemory>
        requires { length self.old < 4 }
        ensures ok { OnOk result (self.new ≡ self.old ++ value ∷ []) }
        ensures err { OnErr result (self.new ≡ self.old) }
    {
        self.values.push(value)
    }

    /// The values.
    pub fn as_slice(&self) -> &[Value]
        ensures { result.now ≡ self.now }
    {
        self.values.as_slice()
    }

    /// How many values there are.
    pub fn len(&self) -> usize
        ensures value { result ≡ length self.now }
        ensures fits { result ≤ 4 }
    {
        self.values.len()
    }

    /// Whether there is no value.
    pub fn is_empty(&self) -> bool
        ensures { IsTrue result ↔ (self.now ≡ []) }
    {
        self.values.is_empty()
    }

    /// The tuple, with its texts lent. It takes no memory.
    pub fn view(&self) -> KeyRef<'_>
        ensures { result ≡ self.now }
    {
        let mut lent = KeyRef::new();
        for value in self.values.as_slice() {
            lent.push(value.view());
        }
        lent
    }

    /// An equal tuple, whose texts take memory from `alloc`.
    pub fn copy(&self, alloc: Global) -> Result<KeyTuple, OutOfMemory>
        ensures { IfOk result (λ tuple. tuple ≡ self.now) }
    {
        let mut copy = KeyTuple::new(alloc);
        for value in self.values.as_slice() {
            copy.push(value.copy(alloc)?)?;
        }
        Ok(copy)
    }

    /// The tuple without the NULLs at its end. It takes no memory.
    pub fn without_last_nulls(self) -> KeyTuple
        ensures { result ≡ without_last_nulls self }
    {
        let KeyTuple { values } = self;
        let mut values = values.into_vec();
        values.truncate(kept_length(values.as_slice()));
        KeyTuple {
            values: Values::from_vec(values),
        }
    }
}

/// How many values stay where the NULLs at the end are dropped.
fn kept_length(values: &[Value]) -> usize
    ensures { take result values.now ≡ without_last_nulls values.now }
{
    let mut kept = 0;
    for index in 0..values.len() {
        kept = match values[index] {
            Value::Null => kept,
            _ => index + 1,
        };
    }
    kept
}
