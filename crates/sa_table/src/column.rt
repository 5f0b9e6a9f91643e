ghost use Rattle.std.specs.Prelude.{◌≡◌, ◌<◌, [], ◌∷◌, ◌++◌, length, IfOk, OnOk, Option, slice_index_or};
ghost use Rattle.sa_value.specs.Value.{value_at};
ghost use Rattle.sa_table.specs.inner.Column.{values_in, number_in, held_in, IsRanged, CanTake, SameColumn, HoldsKind};

use crate::cells::Cells;
use crate::def::ColumnKind;
use sa_value::{OutOfMemory, Text, Value, ValueRef};
use std::alloc::Global;

/// The cells of one column, in the order of the rows.
#[derive(Debug, Drop)]
pub(crate) enum Column {
    Numbers(Cells<i64>),
    Texts(Cells<Text>),
}

/// The number that a column of numbers holds of a value.
pub(crate) fn number_of(value: &Value) -> Option<i64>
    requires { IsRanged value.now }
    ensures { result ≡ number_in value.now }
{
    match value {
        Value::Int(number) => Some(*number),
        Value::Big(number) => Some(*number as i64),
        Value::Null | Value::Text(_) => None,
    }
}

impl Column {
    /// No cells.
    pub(crate) fn new(alloc: Global, kind: ColumnKind) -> Column
        ensures empty { values_in result ≡ [] }
        ensures kind { HoldsKind kind result }
    {
        match kind {
            ColumnKind::Int | ColumnKind::BigInt => Column::Numbers(Cells::new(alloc)),
            ColumnKind::VarChar(_) => Column::Texts(Cells::new(alloc)),
        }
    }

    /// The value of a row.
    #[inline(always)]
    pub(crate) fn value(&self, row: usize) -> ValueRef<'_>
        requires { row < length (values_in self.now) }
        ensures { value_at result ≡ slice_index_or (values_in self.now) row Value.Null }
    {
        match self {
            Column::Numbers(cells) => match cells.get(row) {
                Some(number) => ValueRef::Int(*number),
                None => ValueRef::Null,
            },
            Column::Texts(cells) => match cells.get(row) {
                Some(text) => ValueRef::Text(text.as_str()),
                None => ValueRef::Null,
            },
        }
    }

    /// Room for a value.
    pub(crate) fn reserve(&mut self, value: &Value) -> Result<(), OutOfMemory>
        requires { IsRanged value.now }
        ensures same { SameColumn self.old self.new }
        ensures room { OnOk result (CanTake self.new value.now) }
    {
        match self {
            Column::Numbers(cells) => match number_of(value) {
                Some(_) => cells.reserve(),
                None => cells.reserve_null(),
            },
            Column::Texts(cells) => match value {
                Value::Text(_) => cells.reserve(),
                _ => cells.reserve_null(),
            },
        }
    }

    /// Puts a value at the end.
    pub(crate) fn push(&mut self, alloc: Global, value: Value)
        requires ranged { IsRanged value }
        requires room { CanTake self.old value }
        ensures values { values_in self.new ≡ values_in self.old ++ held_in self.old value ∷ [] }
        ensures kind { (kind : ColumnKind) → HoldsKind kind self.old → HoldsKind kind self.new }
    {
        match self {
            Column::Numbers(cells) => match number_of(&value) {
                Some(number) => cells.push(number),
                None => cells.push_null(0),
            },
            Column::Texts(cells) => match value {
                Value::Text(text) => cells.push(text),
                _ => cells.push_null(Text::from_string(String::new(alloc))),
            },
        }
    }
}
