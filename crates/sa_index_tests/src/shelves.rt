//! Shelves: the indexes of all keys of some tables.

use crate::built::at;
use crate::filled::{add, create};
use crate::value::row;
use sa_index::{Index, ListIndex, Shelf};
use sa_table::Tables;
use sa_value::OutOfMemory;
use std::alloc::Global;
use std::process::Abort;
use std::sync::Arc;
use std::test::Fail;

/// Three tables: one without keys, one with two keys, one with a key and without rows.
fn three_tables(rt: &impl Abort, alloc: Global) -> Result<Tables, OutOfMemory> {
    let mut tables = Tables::new(alloc);
    create(rt, alloc, &mut tables, "s", "INT")?;
    create(
        rt,
        alloc,
        &mut tables,
        "t",
        "INT, VARCHAR / KEY 0, UNIQUE 1",
    )?;
    create(rt, alloc, &mut tables, "u", "INT / KEY 0")?;
    add(rt, &mut tables, 0, row(alloc, "7")?);
    add(rt, &mut tables, 1, row(alloc, "2, 'A")?);
    add(rt, &mut tables, 1, row(alloc, "1, NULL")?);
    add(rt, &mut tables, 1, row(alloc, "1, 'b")?);
    Ok(tables)
}

/// The entries of the index of a key, `-` behind each.
fn entries(
    rt: &impl Abort,
    alloc: Global,
    shelf: &Shelf<ListIndex>,
    table: u32,
    key: u32,
) -> Result<String, OutOfMemory> {
    let index = index_of(rt, shelf, table, key);
    let mut text = String::new(alloc);
    for position in 0..index.count() {
        let row = at(rt, index, position);
        text.push_str(format!(in alloc; "{row}-")?.as_str())?;
    }
    Ok(text)
}

/// The index of a key.
fn index_of<'a>(
    rt: &impl Abort,
    shelf: &'a Shelf<ListIndex>,
    table: u32,
    key: u32,
) -> &'a ListIndex {
    let tables = shelf.tables();
    assert!(rt; table < tables.len());
    assert!(rt; (key as usize) < tables.def(table).keys.len());
    shelf.index(table, key)
}

#[test]
fn each_key_has_its_index(rt: HostRuntime) -> Result<(), Fail> {
    let tables = Arc::new(rt.alloc(), three_tables(&rt, rt.alloc())?)?;
    let shelf = Shelf::build(rt.alloc(), tables)?;
    assert_eq!(rt; shelf.tables().len(), 3);
    assert_eq!(rt; entries(&rt, rt.alloc(), &shelf, 1, 0)?.as_str(), "1-2-0-");
    assert_eq!(rt; entries(&rt, rt.alloc(), &shelf, 1, 1)?.as_str(), "1-0-2-");
    assert_eq!(rt; entries(&rt, rt.alloc(), &shelf, 2, 0)?.as_str(), "");
    Ok(())
}

#[test]
fn no_tables_have_a_shelf(rt: HostRuntime) -> Result<(), Fail> {
    let tables = Arc::new(rt.alloc(), Tables::new(rt.alloc()))?;
    let shelf: Shelf<ListIndex> = Shelf::build(rt.alloc(), tables)?;
    assert!(rt; shelf.tables().is_empty());
    Ok(())
}
