ghost use Rattle.std.specs.Prelude.{◌≡◌, ◌<◌, ◌≤◌, ◌↔◌, [], ◌∷◌, ◌++◌, length, IsTrue, Some, slice_get};

use arrayvec::ArrayVec;
use sa_value::ValueRef;
use std::marker::Model;

/// The values of a key's parts, up to four, that somebody else holds. Contracts see the list of
/// them. It takes no memory.
#[derive(Debug, Drop)]
pub struct KeyRef<'a> {
    parts: ArrayVec<Part<'a>, 4>,
}

/// A value of a tuple. The places behind the last one hold NULL.
#[derive(Clone, Copy, Debug)]
struct Part<'a> {
    value: ValueRef<'a>,
}

impl<'a> Default for Part<'a> {
    fn default() -> Part<'a> {
        Part {
            value: ValueRef::Null,
        }
    }
}

impl<'a> Model for KeyRef<'a> {
    ghost use Rattle.std.specs.Prelude.{List, map};
    ghost use Rattle.sa_value.specs.declared.value.Value.{Value as value};
    ghost use Rattle.sa_value.specs.Value.{value_at};

    ghost Value = { List value };

    ghost view = { λ tuple. map (λ part. value_at part.value) tuple.parts.items };
}

impl<'a> KeyRef<'a> {
    ghost use Rattle.sa_value.specs.Value.{value_at};

    /// No values.
    pub fn new() -> KeyRef<'a>
        ensures { result ≡ [] }
    {
        KeyRef {
            parts: ArrayVec::new(),
        }
    }

    /// Puts a value at the end. There is room for it.
    pub fn push(&mut self, value: ValueRef<'a>)
        requires { length self.old < 4 }
        ensures { self.new ≡ self.old ++ value_at value.entry ∷ [] }
    {
        self.parts.push(Part { value });
    }

    /// How many values there are.
    pub fn len(&self) -> usize
        ensures value { result ≡ length self.now }
        ensures fits { result ≤ 4 }
    {
        self.parts.len()
    }

    /// Whether there is no value.
    pub fn is_empty(&self) -> bool
        ensures { IsTrue result ↔ (self.now ≡ []) }
    {
        self.parts.is_empty()
    }

    /// The value at an index.
    pub fn get(&self, index: usize) -> ValueRef<'a>
        requires { index < length self.now }
        ensures { slice_get self.now index ≡ Some (value_at result) }
    {
        self.parts.as_slice()[index].value
    }
}
