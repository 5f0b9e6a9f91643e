ghost use Rattle.std.specs.Prelude.{◌≡◌, length, IfOk};

use crate::columns::{NumberColumn, number_columns, positions_before};
use crate::entries::{count_before, distinct_counts, parts_of, sorted_rows};
use crate::index::Index;
use arrayvec::ArrayVec;
use sa_key::{CutRef, before_goes_down, order_of_tuples_is_total};
use sa_table::Tables;
use sa_value::OutOfMemory;
use std::alloc::Global;
use std::marker::Model;
use std::snapshot::Snapshot;

/// An index as a sorted list of rows, with their keys where these are numbers. Contracts see what
/// it is of.
#[derive(Drop)]
pub struct ListIndex {
    table: u32,
    key: u32,
    /// The rows in order.
    rows: Vec<u32>,
    /// The different values of no part, of the first part, of the first two, and on.
    counts: ArrayVec<u32, 5>,
    /// What the rows have in the parts of the key, in the order of the rows. It is empty where one
    /// of the parts isn't a number.
    columns: Vec<NumberColumn>,
    /// The tables that it was built over, for contracts alone.
    tables: Snapshot<Tables>,
}

impl Model for ListIndex {
    ghost use Rattle.sa_index.specs.Indexed.{Indexed};
    ghost use Rattle.sa_index.specs.inner.Built.{AreBuilt};

    ghost Value = { Indexed };

    ghost view = { λ index. record {
      tables = index.tables.value;
      table = index.table;
      key = index.key;
    } };

    ghost invariant = { λ index. AreBuilt (record {
      tables = index.tables.value;
      table = index.table;
      key = index.key;
    }) index.rows.items index.counts.items index.columns.items };
}

impl Index for ListIndex {
    ghost indexed = { λ index. index };

    fn build(
        alloc: Global,
        tables: &Tables,
        table: u32,
        key: u32,
    ) -> Result<ListIndex, OutOfMemory> {
        order_of_tuples_is_total();
        let parts = parts_of(tables, table, key);
        let rows = sorted_rows(alloc, tables, table, parts)?;
        let counts = distinct_counts(tables, table, parts, &rows);
        let columns = number_columns(alloc, tables, table, parts, &rows)?;
        Ok(ListIndex {
            table,
            key,
            rows,
            counts,
            columns,
            tables: Snapshot::of(tables),
        })
    }

    fn count(&self) -> u32 {
        self.rows.len() as u32
    }

    fn at(&self, position: u32) -> u32 {
        self.rows[position as usize]
    }

    fn lower(&self, tables: &Tables, cut: &CutRef<'_>) -> u32 {
        order_of_tuples_is_total();
        before_goes_down();
        let parts = parts_of(tables, self.table, self.key);
        if self.columns.len() == parts.len() {
            return positions_before(&self.columns, self.rows.len(), cut) as u32;
        }
        count_before(tables, self.table, parts, &self.rows, cut)
    }

    fn distinct(&self, parts: u32) -> u32 {
        self.counts.as_slice()[parts as usize]
    }
}
