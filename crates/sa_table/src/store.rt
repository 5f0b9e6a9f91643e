ghost use Rattle.std.specs.Prelude.{◌≡◌, ◌+◌, ◌<◌, [], ◌∷◌, ◌++◌, length, All, IfOk, OnOk, vec_len, slice_index_or};
ghost use Rattle.sa_value.specs.Value.{value_at};
ghost use Rattle.sa_table.specs.Table.{value_in, key_tuple};
ghost use Rattle.sa_table.specs.AddRow.{same_tuple};
ghost use Rattle.sa_table.specs.inner.Column.{IsRanged};
ghost use Rattle.sa_table.specs.inner.Store.{row_in, rows_in, Fills, held_row, TakesRow, SameStore, SameKinds, HoldKinds};

use crate::column::Column;
use crate::def::ColumnDef;
use sa_value::{OutOfMemory, Value, ValueRef, order_of};
use std::alloc::Global;
use std::cmp::Ordering;
use std::mem;

/// The rows of a table, column by column.
#[derive(Debug, Drop)]
pub(crate) struct Store {
    pub(crate) count: u32,
    pub(crate) columns: Vec<Column>,
}

impl Store {
    /// No rows of these columns.
    pub(crate) fn new(alloc: Global, defs: &[ColumnDef]) -> Result<Store, OutOfMemory>
        ensures none { IfOk result (λ store. store.count ≡ 0) }
        ensures filled { IfOk result Fills }
        ensures kinds { IfOk result (λ store. HoldKinds defs.now store.columns.items) }
    {
        let mut columns = Vec::with_capacity(alloc, defs.len())?;
        for def in defs {
            columns.push(Column::new(alloc, def.kind))?;
        }
        Ok(Store { count: 0, columns })
    }

    /// The value of a cell.
    #[inline(always)]
    pub(crate) fn cell(&self, row: u32, column: u32) -> ValueRef<'_>
        requires filled { Fills self.now }
        requires row_there { row < self.now.count }
        requires column_there { column < vec_len self.now.columns }
        ensures { value_at result ≡ value_in (row_in self.now.columns.items row) column }
    {
        self.columns[column as usize].value(row as usize)
    }

    /// Whether a row has the same values in the parts of a key as one that is there.
    pub(crate) fn has_equal(&self, parts: &[u32], row: &[Value], other: u32) -> bool
        requires filled { Fills self.now }
        requires other_there { other < self.now.count }
        requires wide { length row.now ≡ vec_len self.now.columns }
        requires parts_there { All (λ part. part < vec_len self.now.columns) parts.now }
        ensures { result ≡ same_tuple (key_tuple parts.now row.now)
            (key_tuple parts.now (row_in self.now.columns.items other)) }
    {
        for part in parts {
            let stored = self.cell(other, *part);
            if order_of(row[*part as usize].view(), stored) != Ordering::Equal {
                return false;
            }
        }
        true
    }

    /// Room for one row more.
    pub(crate) fn reserve(&mut self, row: &[Value]) -> Result<(), OutOfMemory>
        requires wide { length row.now ≡ vec_len self.old.columns }
        requires ranged { All IsRanged row.now }
        ensures same { SameStore self.old self.new }
        ensures room { OnOk result (TakesRow self.new row.now) }
    {
        for (index, value) in row.iter().enumerate() {
            self.columns[index].reserve(value)?;
        }
        Ok(())
    }

    /// Puts a row at the end.
    pub(crate) fn push(&mut self, alloc: Global, mut row: Vec<Value>)
        requires filled { Fills self.old }
        requires few { self.old.count < 1000000 }
        requires ranged { All IsRanged row.items }
        requires room { TakesRow self.old row.items }
        ensures rows { rows_in self.new ≡ rows_in self.old
            ++ held_row self.old.columns.items row.items ∷ [] }
        ensures filled { Fills self.new }
        ensures kinds { SameKinds self.old self.new }
        ensures wide { vec_len self.new.columns ≡ vec_len self.old.columns }
    {
        for column in 0..self.columns.len() {
            let value = mem::replace(&mut row[column], Value::Null);
            self.columns[column].push(alloc, value);
        }
        self.count += 1;
    }
}
