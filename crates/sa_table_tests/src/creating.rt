//! Definitions: the first fault of each, what they become, and the tables of a name.

use crate::definition::definition;
use crate::filled::empty;
use crate::line::{cell, is_counted, is_same};
use crate::written::written;
use sa_table::{SharedTables, TableFault, Tables};
use sa_value::OutOfMemory;
use std::alloc::{AllocError, Global};
use std::process::Abort;
use std::sync::Arc;
use std::test::Fail;

/// So many tables, named `t0`, `t1` and so on.
fn tables_before(rt: &impl Abort, alloc: Global, count: u32) -> Result<Tables, OutOfMemory> {
    let mut tables = Tables::new(alloc);
    for number in 0..count {
        let text = format!(in alloc; "t{number}: a INT")?;
        let created = tables.create(definition(alloc, text.as_str())?);
        assert_eq!(rt; created, Ok(number));
    }
    Ok(tables)
}

/// Each line of a table: name, tables before, definition, number of the table or fault.
fn each_creates(rt: &impl Abort, alloc: Global, table: &str) -> Result<(), OutOfMemory> {
    for line in table.split('\n') {
        let given = created(rt, alloc, line)?;
        is_same(rt, line, given.as_str(), cell(line, 3));
    }
    Ok(())
}

/// What the definition of a line is answered. One that is refused is not counted.
fn created(rt: &impl Abort, alloc: Global, line: &str) -> Result<String, OutOfMemory> {
    let before = cell(line, 1).parse::<u32>().unwrap_or(0);
    let mut tables = tables_before(rt, alloc, before)?;
    let given = tables.create(definition(alloc, cell(line, 2))?);
    is_counted(rt, line, given.is_ok(), before, tables.len());
    Ok(answer(alloc, given)?)
}

fn answer(alloc: Global, given: Result<u32, TableFault>) -> Result<String, AllocError> {
    match given {
        Ok(number) => format!(in alloc; "{number}"),
        Err(fault) => format!(in alloc; "{fault:?}"),
    }
}

/// Definitions at their limits.
const ACCEPTED: &str = "\
a first table | 0 | t: a INT | 0
32 tables | 31 | t: a INT | 31
32 columns | 0 | t: 32*a INT | 0
8 keys | 0 | t: a INT / 8*KEY k 0 | 0
4 parts | 0 | t: 5*a INT / KEY k 3 1 0 2 | 0
the last column in a key | 0 | t: a INT, b INT / KEY k 1 | 0
names that differ in case alone | 1 | T0: a INT, A INT / KEY k 0, UNIQUE K 0 | 1
one name for a table, a column and a key | 0 | t: t INT / KEY t 0 | 0
one column in two keys | 0 | t: a INT / PRIMARY p 0, UNIQUE u 0 | 0";

#[test]
fn definitions_are_taken(rt: HostRuntime) -> Result<(), Fail> {
    each_creates(&rt, rt.alloc(), ACCEPTED)?;
    Ok(())
}

/// Definitions with one fault.
const REFUSED: &str = "\
33 tables | 32 | t: a INT | TooManyTables
33 columns | 0 | t: 33*a INT | TooManyColumns
9 keys | 0 | t: a INT / 9*KEY k 0 | TooManyKeys
5 parts | 0 | t: 5*a INT / KEY k 3 1 0 2 4 | TooManyParts
5 parts in the second key | 0 | t: 5*a INT / KEY k 0, UNIQUE u 3 1 0 2 4 | TooManyParts
another table's name | 2 | t1: a INT | DuplicateName
one name for two columns | 0 | t: a INT, b INT, a BIGINT | DuplicateName
a part twice | 0 | t: a INT, b INT / KEY k 0 1 0 | DuplicateName
one name for two keys | 0 | t: a INT / KEY k 0, UNIQUE u 0, UNIQUE k 0 | DuplicateName
one name for a primary key and another | 0 | t: a INT / PRIMARY p 0, KEY p 0 | DuplicateName
a part past the columns | 0 | t: a INT, b INT / KEY k 0 2 | UnknownColumn
two primary keys with one name | 0 | t: a INT, b INT / PRIMARY p 0, PRIMARY p 1 | SecondPrimary
two primary keys with two names | 0 | t: a INT, b INT / PRIMARY p 0, PRIMARY q 1 | SecondPrimary";

#[test]
fn faults_are_told(rt: HostRuntime) -> Result<(), Fail> {
    each_creates(&rt, rt.alloc(), REFUSED)?;
    Ok(())
}

/// Definitions with two faults, each pair once.
const FIRST_OF_TWO: &str = "\
tables before columns | 32 | t: 33*a INT | TooManyTables
tables before keys | 32 | t: a INT / 9*KEY k 0 | TooManyTables
tables before parts | 32 | t: 5*a INT / KEY k 0 1 2 3 4 | TooManyTables
tables before a name | 32 | t0: a INT | TooManyTables
tables before a column | 32 | t: a INT / KEY k 1 | TooManyTables
tables before primary keys | 32 | t: a INT / PRIMARY p 0, PRIMARY p 0 | TooManyTables
columns before keys | 0 | t: 33*a INT / 9*KEY k 0 | TooManyColumns
columns before parts | 0 | t: 33*a INT / KEY k 0 1 2 3 4 | TooManyColumns
columns before a name | 1 | t0: 33*a INT | TooManyColumns
columns before a column | 0 | t: 33*a INT / KEY k 33 | TooManyColumns
columns before primary keys | 0 | t: 33*a INT / PRIMARY p 0, PRIMARY p 0 | TooManyColumns
keys before parts | 0 | t: 5*a INT / 8*KEY k 0, KEY m 0 1 2 3 4 | TooManyKeys
keys before a name | 1 | t0: a INT / 9*KEY k 0 | TooManyKeys
keys before a column | 0 | t: a INT / 9*KEY k 1 | TooManyKeys
keys before primary keys | 0 | t: a INT / 9*PRIMARY p 0 | TooManyKeys
parts before a name | 0 | t: 5*a INT / KEY k 0 1 2 3 0 | TooManyParts
parts before a column | 0 | t: a INT / KEY k 0 1 2 3 4 | TooManyParts
parts before primary keys | 0 | t: 5*a INT / PRIMARY p 0 1 2 3 4, PRIMARY p 0 | TooManyParts
a name before a column | 0 | t: a INT, a INT / KEY k 2 | DuplicateName
a name before primary keys | 0 | t: a INT, a INT / PRIMARY p 0, PRIMARY p 0 | DuplicateName
a column before primary keys | 0 | t: a INT / PRIMARY p 1, PRIMARY p 0 | UnknownColumn";

#[test]
fn the_first_fault_is_told(rt: HostRuntime) -> Result<(), Fail> {
    each_creates(&rt, rt.alloc(), FIRST_OF_TWO)?;
    Ok(())
}

/// Each line of a table: name, definition, what `def` shows of it.
fn each_shows(rt: &impl Abort, alloc: Global, table: &str) -> Result<(), OutOfMemory> {
    for line in table.split('\n') {
        let shown = shown(rt, alloc, cell(line, 1))?;
        is_same(rt, line, shown.as_str(), cell(line, 2));
    }
    Ok(())
}

/// What `def` shows of a table.
fn shown(rt: &impl Abort, alloc: Global, def: &str) -> Result<String, OutOfMemory> {
    let tables = empty(rt, alloc, def)?;
    assert!(rt; 0 < tables.len());
    written(alloc, tables.def(0))
}

/// Definitions with keys.
const SHOWN: &str = "\
no key | t: a INT, b BIGINT NOT NULL, c VARCHAR(3) | t: a INT, b BIGINT NOT NULL, c VARCHAR(3)
a primary key | t: a INT, b INT / PRIMARY p 1 | t: a INT, b INT NOT NULL / PRIMARY p 1
two parts | t: 3*a INT / PRIMARY p 2 0 | t: a0 INT NOT NULL, a1 INT, a2 INT NOT NULL / PRIMARY p 2 0
NOT NULL already | t: a INT NOT NULL / PRIMARY p 0 | t: a INT NOT NULL / PRIMARY p 0
other keys | t: a INT, b INT / UNIQUE u 0, KEY k 1 | t: a INT, b INT / UNIQUE u 0, KEY k 1";

#[test]
fn a_primary_key_raises_not_null(rt: HostRuntime) -> Result<(), Fail> {
    each_shows(&rt, rt.alloc(), SHOWN)?;
    Ok(())
}

/// Each line of a table: a name, and the number of the table that has it.
fn each_is_found(rt: &impl Abort, tables: &Tables, table: &str) {
    for line in table.split('\n') {
        let number = cell(line, 1).parse::<u32>().ok();
        assert_eq!(rt; tables.find(cell(line, 0)), number, "{line}");
    }
}

/// Names beside twelve tables.
const NAMES: &str = "\
t0 | 0
t1 | 1
t11 | 11
t12 | none
t | none
T1 | none
| none";

#[test]
fn names_are_found(rt: HostRuntime) -> Result<(), Fail> {
    let tables = tables_before(&rt, rt.alloc(), 12)?;
    assert!(rt; !tables.is_empty());
    each_is_found(&rt, &tables, NAMES);
    Ok(())
}

#[test]
fn no_tables_have_no_names(rt: HostRuntime) {
    let tables = Tables::new(rt.alloc());
    assert!(rt; tables.is_empty());
    assert_eq!(rt; tables.find("t0"), None);
}

/// Three tables that can be shared.
fn shared(rt: &impl Abort, alloc: Global) -> Result<SharedTables, OutOfMemory> {
    let tables = tables_before(rt, alloc, 3)?;
    Ok(SharedTables::new(Arc::new(alloc, tables)?))
}

#[test]
fn tables_are_shared(rt: HostRuntime) -> Result<(), Fail> {
    let first = shared(&rt, rt.alloc())?;
    let second = first.share()?;
    assert_eq!(rt; first.tables().len(), 3);
    assert_eq!(rt; second.tables().find("t2"), Some(2));
    Ok(())
}
