//! The limit of rows. This runs for minutes where it isn't compiled.

use crate::filled::{add, count, empty};
use crate::row::row;
use sa_table::{RowFault, Tables};
use sa_value::{OutOfMemory, Row, Value};
use std::alloc::Global;
use std::process::Abort;
use std::test::Fail;

/// A row of a number and NULL.
fn numbered(alloc: Global, number: u32) -> Result<Row, OutOfMemory> {
    let mut values = Vec::with_capacity(alloc, 2)?;
    values.push(Value::Int(i64::from(number)))?;
    values.push(Value::Null)?;
    Ok(Row::from_vec(values))
}

/// A table of as many rows as it may have, in the last of them a text.
fn full(rt: &impl Abort, alloc: Global) -> Result<Tables, OutOfMemory> {
    let mut tables = empty(rt, alloc, "t: a INT NOT NULL, b VARCHAR(2) / UNIQUE u 1")?;
    for number in 0..999_999 {
        let added = add(rt, &mut tables, numbered(alloc, number)?);
        assert!(rt; added.is_ok());
    }
    let last = add(rt, &mut tables, row(alloc, "999999, 'x'")?);
    assert_eq!(rt; last, Ok(999_999));
    Ok(tables)
}

/// Good and faulty rows, none of which a full table takes.
const ROWS: &str = "\
-1, NULL
-1
NULL, NULL
'x', NULL
2147483648, NULL
-1, 'xyz'
-1, 'x'";

/// Compares what each row is answered.
fn each_is_refused(
    rt: &impl Abort,
    alloc: Global,
    tables: &mut Tables,
    rows: &str,
) -> Result<(), OutOfMemory> {
    for text in rows.split('\n') {
        let given = add(rt, tables, row(alloc, text)?);
        assert_eq!(rt; given, Err(RowFault::RowFull), "{text}");
    }
    Ok(())
}

/// A table has 1,000,000 rows and no more, whatever else is wrong with a row.
#[test]
fn a_full_table_takes_no_row(rt: HostRuntime) -> Result<(), Fail> {
    let mut tables = full(&rt, rt.alloc())?;
    each_is_refused(&rt, rt.alloc(), &mut tables, ROWS)?;
    assert_eq!(rt; count(&rt, &tables), 1_000_000);
    Ok(())
}
