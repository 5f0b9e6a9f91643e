ghost use Rattle.std.specs.Prelude.{◌≡◌, ◌<◌, length, IfOk};
ghost use Rattle.sa_table.specs.Table.{table_at};
ghost use Rattle.sa_index.specs.inner.Shelf.{AreKeysIndexed};

use crate::index::Index;
use sa_table::Tables;
use sa_value::OutOfMemory;
use std::alloc::Global;
use std::marker::Model;
use std::sync::Arc;

/// The indexes of all keys of some tables. Contracts see the tables.
#[derive(Drop)]
pub struct Shelf<I: Index> {
    tables: Arc<Tables>,
    indexes: Vec<Vec<I>>,
}

impl<I: Index> Model for Shelf<I> {
    ghost use Rattle.std.specs.Prelude.{List};
    ghost use Rattle.std.specs.Arc.{arc_value};
    ghost use Rattle.sa_table.specs.Table.{Table};
    ghost use Rattle.sa_index.specs.inner.Shelf.{AreShelved};

    ghost Value = { List Table };

    ghost view = { λ shelf. arc_value shelf.tables };

    ghost invariant = { λ shelf. AreShelved (λ indexes. indexes.items) I.indexed (arc_value shelf.tables) shelf.indexes.items };
}

impl<I: Index> Shelf<I> {
    ghost use Rattle.std.specs.Arc.{arc_value};
    ghost use Rattle.sa_index.specs.Indexed.{IsKeyOf};

    /// The indexes of all keys of these tables. They take memory from `alloc`.
    pub fn build(alloc: Global, tables: Arc<Tables>) -> Result<Shelf<I>, OutOfMemory>
        ensures { IfOk result (λ shelf. shelf ≡ arc_value tables) }
    {
        let mut indexes = Vec::new(alloc);
        for table in 0..tables.len() {
            indexes.push(table_indexes(alloc, &tables, table)?)?;
        }
        Ok(Shelf { tables, indexes })
    }

    /// The tables.
    pub fn tables(&self) -> &Arc<Tables>
        ensures { arc_value result.now ≡ self.now }
    {
        &self.tables
    }

    /// The index of a key.
    pub fn index(&self, table: u32, key: u32) -> &I
        requires there { IsKeyOf self.now table key }
        ensures { I.indexed result.now
            ≡ record { tables = self.now; table = table; key = key } }
    {
        &self.indexes[table as usize][key as usize]
    }
}

/// The indexes of all keys of a table.
fn table_indexes<I: Index>(
    alloc: Global,
    tables: &Tables,
    table: u32,
) -> Result<Vec<I>, OutOfMemory>
    requires { table < length tables.now }
    ensures { IfOk result (λ indexes. AreKeysIndexed I.indexed tables.now table indexes.items) }
{
    let mut indexes = Vec::new(alloc);
    for key in 0..key_count(tables, table) {
        indexes.push(I::build(alloc, tables, table, key)?)?;
    }
    Ok(indexes)
}

/// How many keys a table has.
fn key_count(tables: &Tables, table: u32) -> u32
    requires { table < length tables.now }
    ensures { result ≡ length (table_at tables.now table).def.keys }
{
    let _there = tables.len();
    tables.def(table).keys.len() as u32
}
