ghost use Rattle.std.specs.Prelude.{◌≡◌, ◌≢◌, ◌↔◌, ◌<◌, [], ◌∷◌, ◌++◌, length, All, IsTrue, OnOk, OnErr, IfOk, IfErr, IfSome, IfNone, slice_set};

use crate::def::TableDef;
use crate::definition::table_fault;
use crate::fault::{RowFault, TableFault};
use crate::stored::StoredTable;
use sa_value::{Row, ValueRef};
use std::alloc::Global;
use std::marker::Model;

/// Tables in memory, numbered from 0 on. Contracts see them as a list of definitions with their rows.
#[derive(Debug, Drop)]
pub struct Tables {
    alloc: Global,
    tables: Vec<StoredTable>,
}

impl Model for Tables {
    ghost use Rattle.std.specs.Prelude.{List};
    ghost use Rattle.sa_table.specs.Table.{Table};

    ghost Value = { List Table };

    ghost use Rattle.sa_table.specs.Sound.{AreSound};

    ghost view = { λ tables. tables.tables.items };

    ghost invariant = { λ tables. AreSound tables.tables.items };
}

impl Tables {
    ghost use Rattle.sa_table.specs.Table.{new_table, table_at, row_count, column_count, cell_at};
    ghost use Rattle.sa_table.specs.Create.{table_faults, first_or};
    ghost use Rattle.sa_table.specs.AddRow.{row_faults, with_row};
    ghost use Rattle.sa_table.specs.Sound.{AreSound};
    ghost use Rattle.sa_value.specs.Value.{value_at};

    /// No tables. They take memory from `alloc` as they grow.
    pub fn new(alloc: Global) -> Tables
        ensures { result ≡ [] }
    {
        Tables {
            alloc,
            tables: Vec::new(alloc),
        }
    }

    /// Makes a table without rows, and gives its number. The columns of its primary key are NOT NULL.
    pub fn create(&mut self, def: TableDef) -> Result<u32, TableFault>
        ensures ok { OnOk result (self.new ≡ self.old ++ new_table def ∷ []) }
        ensures number { IfOk result (λ number. number ≡ length self.old) }
        ensures faultless { OnOk result (table_faults self.old def ≡ []) }
        ensures fault { IfErr result
            (λ f. f ≡ first_or TableFault.OutOfMemory (table_faults self.old def)) }
        ensures err { OnErr result (self.new ≡ self.old) }
    {
        if let Some(fault) = table_fault(&self.tables, &def) {
            return Err(fault);
        }
        self.tables.reserve(1)?;
        let table = StoredTable::new(self.alloc, def)?;
        let number = self.tables.len() as u32;
        self.tables.push_reserved(table);
        Ok(number)
    }

    /// Puts a row at the end of a table, and gives its number.
    pub fn add_row(&mut self, table: u32, row: Row) -> Result<u32, RowFault>
        requires there { table < length self.old }
        ensures ok { OnOk result
            (self.new ≡ slice_set self.old table (with_row (table_at self.old table) row)) }
        ensures number { IfOk result (λ number. number ≡ row_count self.old table) }
        ensures faultless { OnOk result (row_faults (table_at self.old table) row ≡ []) }
        ensures fault { IfErr result
            (λ f. f ≡ first_or RowFault.OutOfMemory (row_faults (table_at self.old table) row)) }
        ensures err { OnErr result (self.new ≡ self.old) }
    {
        self.tables[table as usize].add_row(self.alloc, row)
    }

    /// How many tables there are.
    pub fn len(&self) -> u32
        ensures number { result ≡ length self.now }
        ensures sound { AreSound self.now }
    {
        self.tables.len() as u32
    }

    /// Whether there is no table.
    pub fn is_empty(&self) -> bool
        ensures { IsTrue result ↔ (self.now ≡ []) }
    {
        self.tables.is_empty()
    }

    /// The number of the table with this name, which is compared byte for byte.
    pub fn find(&self, name: &str) -> Option<u32>
        ensures there { IfSome result (λ table. table < length self.now) }
        ensures found { IfSome result (λ table. (table_at self.now table).def.name ≡ name.now) }
        ensures absent { IfNone result (All (λ table. table.def.name ≢ name.now) self.now) }
    {
        for (number, table) in self.tables.iter().enumerate() {
            if table.has_name(name) {
                return Some(number as u32);
            }
        }
        None
    }

    /// What a table was made by.
    pub fn def(&self, table: u32) -> &TableDef
        requires there { table < length self.now }
        ensures { result.now ≡ (table_at self.now table).def }
    {
        self.tables[table as usize].def()
    }

    /// How many rows a table has.
    pub fn count(&self, table: u32) -> u32
        requires there { table < length self.now }
        ensures { result ≡ row_count self.now table }
    {
        self.tables[table as usize].count()
    }

    /// The value of a cell.
    #[inline(always)]
    pub fn cell(&self, table: u32, row: u32, column: u32) -> ValueRef<'_>
        requires table_there { table < length self.now }
        requires row_there { row < row_count self.now table }
        requires column_there { column < column_count self.now table }
        ensures { value_at result ≡ cell_at self.now table row column }
    {
        self.tables[table as usize].cell(row, column)
    }
}
