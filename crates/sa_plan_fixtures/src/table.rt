use crate::condition::POSITION;
use sa_cond::{Conds, Expr};
use sa_plan::{Access, Level, Levels, Plan};
use sa_query::{Item, Items};
use sa_table::{ColumnDef, ColumnDefs, ColumnKind, KeyDefs, TableDef, Tables};
use sa_value::{OutOfMemory, Row, Text, Value};
use std::alloc::Global;
use std::test::Fail;

/// The number of the tests' table. Another table stands before it.
const TABLE: u32 = 1;

/// Two tables: `other` with one row, and `t` with columns of these kinds and rows such as
/// `1,x;NULL,y;`.
pub fn tables_of(alloc: Global, kinds: &[ColumnKind], rows: &str) -> Result<Tables, Fail> {
    let mut tables = Tables::new(alloc);
    let other = tables.create(table_def(alloc, "other", &[ColumnKind::Int])?)?;
    add_row(alloc, &mut tables, other, &[ColumnKind::Int], "-1")?;
    let table = tables.create(table_def(alloc, "t", kinds)?)?;
    for row in rows.split_terminator(';') {
        add_row(alloc, &mut tables, table, kinds, row)?;
    }
    Ok(tables)
}

/// Puts a row such as `1,x` into a table.
fn add_row(
    alloc: Global,
    tables: &mut Tables,
    table: u32,
    kinds: &[ColumnKind],
    row: &str,
) -> Result<(), Fail> {
    let mut values = Vec::new(alloc);
    for (field, kind) in row.split(',').zip(kinds) {
        values.push(value_of(alloc, *kind, field)?)?;
    }
    if table >= tables.len() {
        return Err("no such table".into());
    }
    tables.add_row(table, Row::from_vec(values))?;
    Ok(())
}

/// The value of a field of a column of this kind.
fn value_of(alloc: Global, kind: ColumnKind, field: &str) -> Result<Value, Fail> {
    Ok(match (field, kind) {
        ("NULL", _) => Value::Null,
        (_, ColumnKind::VarChar(_)) => Value::Text(Text::from_str(alloc, field)?),
        (_, ColumnKind::Int | ColumnKind::BigInt) => Value::Int(field.parse()?),
    })
}

/// A table's definition. Its columns, at most four, are named `a`, `b` and so on.
fn table_def(alloc: Global, name: &str, kinds: &[ColumnKind]) -> Result<TableDef, OutOfMemory> {
    let mut columns = ColumnDefs::new(alloc);
    for (name, kind) in ["a", "b", "c", "d"].iter().zip(kinds) {
        columns.push(ColumnDef {
            name: Text::from_str(alloc, name)?,
            kind: *kind,
            not_null: false,
        })?;
    }
    Ok(TableDef {
        name: Text::from_str(alloc, name)?,
        columns,
        keys: KeyDefs::new(alloc),
    })
}

/// The plan that reads all rows of `t` and gives these columns of those that pass. `estimate` is
/// how many rows the planner would reckon with.
pub fn plan_of(
    alloc: Global,
    conditions: Conds,
    select: &[u32],
    estimate: u32,
) -> Result<Plan, OutOfMemory> {
    let mut levels = Levels::new(alloc);
    levels.push(Level {
        position: POSITION,
        table: TABLE,
        alias: Text::from_str(alloc, "t")?,
        access: Access::All,
        conditions,
        estimate: u64::from(estimate),
    })?;
    let mut items = Items::new(alloc);
    for column in select {
        items.push(Item {
            name: Text::from_string(format!(in alloc; "column {column}")?),
            value: Expr::Column {
                table: POSITION,
                column: *column,
            },
        })?;
    }
    Ok(Plan {
        levels,
        select: items,
        cost: 20 + 5 * u128::from(estimate),
    })
}
