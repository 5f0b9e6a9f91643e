ghost use Rattle.std.specs.Prelude.{◌≡◌, IfOk};

use crate::tables::Tables;
use sa_value::OutOfMemory;
use std::marker::Model;
use std::sync::Arc;

/// Tables that several hold at once. Contracts see them as the tables, wherever these lie.
#[derive(Debug, Drop)]
pub struct SharedTables {
    tables: Arc<Tables>,
}

impl Model for SharedTables {
    ghost use Rattle.std.specs.Prelude.{List};
    ghost use Rattle.sa_table.specs.Table.{Table};

    ghost Value = { List Table };

    ghost use Rattle.std.specs.Arc.{arc_value};

    ghost view = { λ shared. arc_value shared.tables };
}

impl SharedTables {
    ghost use Rattle.std.specs.Arc.{arc_value};

    /// The tables that an `Arc` holds. It takes no memory.
    pub fn new(tables: Arc<Tables>) -> SharedTables
        ensures { result ≡ arc_value tables }
    {
        SharedTables { tables }
    }

    /// The tables.
    pub fn tables(&self) -> &Tables
        ensures { result.now ≡ self.now }
    {
        &self.tables
    }

    /// The same tables for one more holder. It takes no memory, and fails only where there are 2^64
    /// holders already.
    pub fn share(&self) -> Result<SharedTables, OutOfMemory>
        ensures { IfOk result (λ shared. shared ≡ self.now) }
    {
        Ok(SharedTables {
            tables: Arc::try_clone(&self.tables)?,
        })
    }
}
