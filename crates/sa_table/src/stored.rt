ghost use Rattle.std.specs.Prelude.{◌≡◌, ◌<◌, [], length, IfOk, OnOk, OnErr, IfErr, slice_index_or};
ghost use Rattle.sa_value.specs.Value.{value_at};

use crate::def::{ColumnDefs, TableDef};
use crate::definition::{is_same, raise};
use crate::fault::RowFault;
use crate::index::Index;
use crate::keys::{empty_indexes, key_fault, push_digests, reserve_indexes};
use crate::store::Store;
use crate::values::column_fault;
use sa_value::{OutOfMemory, Row, Value, ValueRef};
use std::alloc::Global;
use std::marker::Model;

/// A table with more rows takes no row.
const MOST_ROWS: u32 = 1_000_000;

/// A table: its definition, its rows, and an index for each key. That of a key that isn't unique
/// stays empty.
#[derive(Debug, Drop)]
pub(crate) struct StoredTable {
    def: TableDef,
    store: Store,
    indexes: Vec<Index>,
}

impl Model for StoredTable {
    ghost use Rattle.sa_table.specs.Table.{Table};

    ghost Value = { Table };

    ghost use Rattle.sa_table.specs.inner.Stored.{table_in, IsStored};

    ghost view = { table_in };

    ghost invariant = { IsStored };
}

impl StoredTable {
    ghost use Rattle.sa_table.specs.Table.{Table, new_table, value_in};
    ghost use Rattle.sa_table.specs.Create.{same_name, first_or};
    ghost use Rattle.sa_table.specs.AddRow.{row_faults, with_row};
    ghost use Rattle.sa_table.specs.Sound.{IsSoundTable};
    ghost use Rattle.sa_table.specs.inner.First.{first};
    ghost use Rattle.sa_table.specs.inner.Stored.{IsDefinition};

    /// A table without rows.
    pub(crate) fn new(alloc: Global, def: TableDef) -> Result<StoredTable, OutOfMemory>
        requires { IsDefinition def }
        ensures made { IfOk result (λ table. table ≡ new_table def) }
        ensures sound { IfOk result IsSoundTable }
    {
        let TableDef {
            name,
            columns,
            keys,
        } = def;
        let columns = raise(columns.into_vec(), keys.as_slice());
        let store = Store::new(alloc, &columns)?;
        let indexes = empty_indexes(alloc, keys.as_slice())?;
        Ok(StoredTable {
            def: TableDef {
                name,
                columns: ColumnDefs::from_vec(columns),
                keys,
            },
            store,
            indexes,
        })
    }

    /// What the table was made by.
    pub(crate) fn def(&self) -> &TableDef
        ensures { result.now ≡ self.now.def }
    {
        &self.def
    }

    /// Whether the table has this name.
    pub(crate) fn has_name(&self, name: &str) -> bool
        ensures { result ≡ same_name self.now.def.name name.now }
    {
        is_same(self.def.name.as_str(), name)
    }

    /// How many rows there are.
    pub(crate) fn count(&self) -> u32
        ensures { result ≡ length self.now.rows }
    {
        self.store.count
    }

    /// The value of a cell.
    #[inline(always)]
    pub(crate) fn cell(&self, row: u32, column: u32) -> ValueRef<'_>
        requires row_there { row < length self.now.rows }
        requires column_there { column < length self.now.def.columns }
        ensures { value_at result ≡ value_in (slice_index_or self.now.rows row []) column }
    {
        self.store.cell(row, column)
    }

    /// The first fault of a row.
    fn row_fault(&self, row: &[Value]) -> Option<RowFault>
        ensures { result ≡ first (row_faults self.now row.now) }
    {
        let columns = self.def.columns.as_slice();
        if self.store.count >= MOST_ROWS {
            return Some(RowFault::RowFull);
        }
        if row.len() != columns.len() {
            return Some(RowFault::Arity);
        }
        if let Some(fault) = column_fault(columns, row) {
            return Some(fault);
        }
        key_fault(&self.store, self.def.keys.as_slice(), &self.indexes, row)
    }

    /// Puts a row at the end, and gives its number.
    pub(crate) fn add_row(&mut self, alloc: Global, row: Row) -> Result<u32, RowFault>
        ensures ok { OnOk result (self.new ≡ with_row self.old row) }
        ensures number { IfOk result (λ number. number ≡ length self.old.rows) }
        ensures faultless { OnOk result (row_faults self.old row ≡ []) }
        ensures fault { IfErr result
            (λ f. f ≡ first_or RowFault.OutOfMemory (row_faults self.old row)) }
        ensures err { OnErr result (self.new ≡ self.old) }
        ensures sound { IsSoundTable self.new }
    {
        if let Some(fault) = self.row_fault(row.as_slice()) {
            return Err(fault);
        }
        self.store.reserve(row.as_slice())?;
        reserve_indexes(&mut self.indexes, self.def.keys.as_slice())?;
        let number = self.store.count;
        push_digests(
            &mut self.indexes,
            self.def.keys.as_slice(),
            row.as_slice(),
            number,
        );
        self.store.push(alloc, row.into_vec());
        Ok(number)
    }
}
