//! The table of the scripts.

use sa_table::{ColumnDef, ColumnDefs, ColumnKind, KeyDefs, TableDef, Tables};
use sa_value::{Row, Text, Value};
use std::alloc::Global;
use std::sync::Arc;
use std::test::Fail;

/// t(a INT) with 1, 2, 3.
pub fn tables(alloc: Global) -> Result<Arc<Tables>, Fail> {
    let mut tables = Tables::new(alloc);
    let mut columns = ColumnDefs::new(alloc);
    columns.push(ColumnDef {
        name: Text::from_str(alloc, "a")?,
        kind: ColumnKind::Int,
        not_null: false,
    })?;
    let def = TableDef {
        name: Text::from_str(alloc, "t")?,
        columns,
        keys: KeyDefs::new(alloc),
    };
    let table = tables.create(def)?;
    for number in 1..4 {
        let mut row = Row::new(alloc);
        row.push(Value::Int(number))?;
        tables.add_row(table, row)?;
    }
    Ok(Arc::new(alloc, tables)?)
}
