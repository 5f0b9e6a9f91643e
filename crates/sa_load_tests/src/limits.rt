//! The limits of a text and of rows. The latter runs for minutes where it isn't compiled.

use crate::line::{bytes, cell, is_same};
use crate::loading::load;
use crate::shown::count;
use crate::table::table;
use sa_table::Tables;
use sa_value::OutOfMemory;
use std::alloc::{AllocError, Global};
use std::process::Abort;
use std::test::Fail;

fn repeated(alloc: Global, piece: &str, times: u32) -> Result<String, AllocError> {
    let mut text = String::new(alloc);
    for _ in 0..times {
        text.push_str(piece)?;
    }
    Ok(text)
}

/// What is answered of a text that is one piece again and again.
fn answered(rt: &impl Abort, alloc: Global, line: &str) -> Result<String, OutOfMemory> {
    let mut tables = table(rt, alloc, cell(line, 1))?;
    let times = cell(line, 3).parse::<u32>().unwrap_or(0);
    let text = repeated(alloc, cell(line, 2), times)?;
    Ok(load(rt, alloc, &mut tables, text.as_bytes())?)
}

/// Each line of a table: name, columns, piece, how often it stands there, number of rows or fault.
fn each_is_answered(rt: &impl Abort, alloc: Global, lines: &str) -> Result<(), OutOfMemory> {
    for line in lines.split('\n') {
        let given = answered(rt, alloc, line)?;
        is_same(rt, line, given.as_str(), cell(line, 4));
    }
    Ok(())
}

/// Texts at their limits.
const LONG: &str = r"255 bytes | VARCHAR(255) | x | 255 | 1
256 bytes | VARCHAR(256) | x | 256 | 1: TooLong { column: 0 }
255 bytes in 85 characters | VARCHAR(85) | € | 85 | 1
256 bytes in 128 characters | VARCHAR(255) | ä | 128 | 1: TooLong { column: 0 }";

#[test]
fn long_texts_are_answered(rt: HostRuntime) -> Result<(), Fail> {
    each_is_answered(&rt, rt.alloc(), LONG)?;
    Ok(())
}

/// A table of as many rows as it may have, out of a text that has one record more.
fn full(rt: &impl Abort, alloc: Global) -> Result<Tables, OutOfMemory> {
    let mut tables = table(rt, alloc, "INT NOT NULL, VARCHAR(2) / 1")?;
    let first = load(rt, alloc, &mut tables, b"5,ab\n")?;
    is_same(rt, "the first record", first.as_str(), "1");
    let text = repeated(alloc, "6,\\N\n", 1_000_000)?;
    let given = load(rt, alloc, &mut tables, text.as_bytes())?;
    is_same(rt, "1,000,001 records", given.as_str(), "1000000: RowFull");
    Ok(tables)
}

/// Good and faulty records, none of which a full table takes.
const RECORDS: &str = r"-1,cd
-1
<255>,cd
x,cd
\N,cd
2147483648,cd
-1,cde
-1,ab";

/// Compares what each record is answered.
fn each_is_refused(
    rt: &impl Abort,
    alloc: Global,
    tables: &mut Tables,
    records: &str,
) -> Result<(), OutOfMemory> {
    for record in records.split('\n') {
        let text = bytes(alloc, record)?;
        let given = load(rt, alloc, tables, text.as_slice())?;
        is_same(rt, record, given.as_str(), "1: RowFull");
    }
    Ok(())
}

/// A table has 1,000,000 rows and no more, whatever else is wrong with a record.
#[test]
fn a_full_table_takes_no_record(rt: HostRuntime) -> Result<(), Fail> {
    let mut tables = full(&rt, rt.alloc())?;
    let none = load(&rt, rt.alloc(), &mut tables, b"")?;
    is_same(&rt, "no record", none.as_str(), "0");
    each_is_refused(&rt, rt.alloc(), &mut tables, RECORDS)?;
    assert_eq!(rt; count(&rt, &tables), 1_000_000);
    Ok(())
}
