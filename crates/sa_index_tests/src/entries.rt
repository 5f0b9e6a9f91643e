//! Entries of small tables, and how many different values they have.

use crate::built::{at, built, distinct, parts_of};
use crate::filled::filled;
use crate::line::cell;
use sa_index::Index;
use sa_table::Tables;
use sa_value::OutOfMemory;
use std::alloc::Global;
use std::process::Abort;
use std::test::Fail;

/// Each line of a table: name, definition, rows, the entries of its first key, and the different
/// values of no part, of the first part, of the first two, and on.
fn each_is_in_order(rt: &impl Abort, alloc: Global, table: &str) -> Result<(), OutOfMemory> {
    for line in table.split('\n') {
        let tables = filled(rt, alloc, cell(line, 1), cell(line, 2))?;
        let entries = entries(rt, alloc, &tables)?;
        assert_eq!(rt; entries.as_str(), cell(line, 3), "{line}");
        let counts = counts(rt, alloc, &tables)?;
        assert_eq!(rt; counts.as_str(), cell(line, 4), "{line}");
    }
    Ok(())
}

/// The row at each position.
fn entries(rt: &impl Abort, alloc: Global, tables: &Tables) -> Result<String, OutOfMemory> {
    let index = built(rt, alloc, tables, 0)?;
    let mut text = String::new(alloc);
    for position in 0..index.count() {
        push(alloc, &mut text, at(rt, &index, position))?;
    }
    Ok(text)
}

/// The different values of each number of parts.
fn counts(rt: &impl Abort, alloc: Global, tables: &Tables) -> Result<String, OutOfMemory> {
    let index = built(rt, alloc, tables, 0)?;
    let parts = parts_of(rt, tables, 0);
    let mut text = String::new(alloc);
    for count in 0..5 {
        if count as usize <= parts.len() {
            push(alloc, &mut text, distinct(rt, &index, parts, count))?;
        }
    }
    Ok(text)
}

/// Puts a number at the end, behind a blank where others stand before it.
fn push(alloc: Global, text: &mut String, number: u32) -> Result<(), OutOfMemory> {
    if !text.is_empty() {
        text.push(' ')?;
    }
    text.push_str(format!(in alloc; "{number}")?.as_str())?;
    Ok(())
}

/// No rows.
const EMPTY: &str = "\
a number | INT / KEY 0 | | | 0 0
a text | VARCHAR / KEY 0 | | | 0 0
a unique key | INT / UNIQUE 0 | | | 0 0
no parts | INT / KEY | | | 0
four parts | INT, INT, INT, INT / KEY 0 1 2 3 | | | 0 0 0 0 0";

#[test]
fn a_table_without_rows_has_no_entries(rt: HostRuntime) -> Result<(), Fail> {
    each_is_in_order(&rt, rt.alloc(), EMPTY)?;
    Ok(())
}

/// Keys over one number.
const NUMBERS: &str = "\
one row | INT / KEY 0 | 7 | 0 | 1 1
one NULL | INT / KEY 0 | NULL | 0 | 1 1
rising | INT / KEY 0 | 1; 2; 3 | 0 1 2 | 1 3
falling | INT / KEY 0 | 3; 2; 1 | 2 1 0 | 1 3
equal | INT / KEY 0 | 5; 5; 5 | 0 1 2 | 1 1
equal ones by their numbers | INT / KEY 0 | 2; 1; 2; 1; 2 | 1 3 0 2 4 | 1 2
signs | INT / KEY 0 | 0; -1; 1; -2 | 3 1 0 2 | 1 4
NULL comes first | INT / KEY 0 | 0; NULL; -1 | 1 2 0 | 1 3
NULL is one value | INT / KEY 0 | NULL; 4; NULL; 4; NULL | 0 2 4 1 3 | 1 2
only NULL | INT / KEY 0 | NULL; NULL; NULL | 0 1 2 | 1 1
the ends of INT | INT / KEY 0 | 2147483647; NULL; -2147483648; 0 | 1 2 3 0 | 1 4
a number of 128 bits | BIGINT / KEY 0 | BIG 6; 5; 7 | 1 0 2 | 1 3
the second column | INT, INT / KEY 1 | 1, 9; 2, 8; 3, 7 | 2 1 0 | 1 3";

#[test]
fn numbers_are_in_order(rt: HostRuntime) -> Result<(), Fail> {
    each_is_in_order(&rt, rt.alloc(), NUMBERS)?;
    Ok(())
}

#[test]
fn the_ends_of_bigint_are_in_order(rt: HostRuntime) -> Result<(), Fail> {
    let table = "least and greatest | BIGINT / KEY 0 | \
        9223372036854775807; -9223372036854775808; NULL; -1; 0 | 2 1 3 4 0 | 1 5";
    each_is_in_order(&rt, rt.alloc(), table)?;
    Ok(())
}

/// Unique keys, whose columns may be NULL.
const UNIQUE: &str = "\
without NULL | INT / UNIQUE 0 | 3; 1; 2 | 1 2 0 | 1 3
NULL twice | INT / UNIQUE 0 | 3; NULL; 1; NULL | 1 3 2 0 | 1 3
a text, NULL twice | VARCHAR / UNIQUE 0 | 'b; NULL; 'a; NULL | 1 3 2 0 | 1 3
NULL in the second part | INT, INT / UNIQUE 0 1 | 1, NULL; 1, 5; 1, NULL | 0 2 1 | 1 1 2
NULL in the first part | INT, INT / UNIQUE 0 1 | 2, 1; NULL, 1; NULL, 1 | 1 2 0 | 1 2 2";

#[test]
fn unique_keys_are_in_order(rt: HostRuntime) -> Result<(), Fail> {
    each_is_in_order(&rt, rt.alloc(), UNIQUE)?;
    Ok(())
}

/// Keys over several parts, and over none.
const PARTS: &str = "\
no parts | INT / KEY | 3; 1; 2 | 0 1 2 | 1
the page's example | INT, INT / KEY 0 1 | 2, 7; 1, NULL; 3, 7; 1, NULL; NULL, 9 | 4 1 3 0 2 | 1 4 4
its second column | INT, INT / KEY 1 | 2, 7; 1, NULL; 3, 7; 1, NULL; NULL, 9 | 1 3 0 2 4 | 1 3
the second decides | INT, INT / KEY 0 1 | 1, 3; 1, 1; 1, 2 | 1 2 0 | 1 1 3
the first decides | INT, INT / KEY 0 1 | 2, 1; 1, 9; 3, 0 | 1 0 2 | 1 3 3
parts turned | INT, INT / KEY 1 0 | 2, 1; 1, 9; 3, 0 | 2 0 1 | 1 3 3
equal pairs | INT, INT / KEY 0 1 | 1, 1; 1, 2; 1, 1; 1, 2 | 0 2 1 3 | 1 1 2
NULL first in the second | INT, INT / KEY 0 1 | 1, 0; 1, NULL; 1, -5 | 1 2 0 | 1 1 3
a number and a text | INT, VARCHAR / KEY 0 1 | 1, 'b; 1, 'a; 0, 'c | 2 1 0 | 1 2 3
a text and a number | INT, VARCHAR / KEY 1 0 | 1, 'b; 1, 'a; 0, 'b | 1 2 0 | 1 2 3";

#[test]
fn parts_are_in_order(rt: HostRuntime) -> Result<(), Fail> {
    each_is_in_order(&rt, rt.alloc(), PARTS)?;
    Ok(())
}

/// Keys over four parts.
const FOUR_PARTS: &str = "\
the last | INT, INT, INT, INT / KEY 0 1 2 3 | 1,1,1,2; 1,1,1,1; 1,1,1,NULL | 2 1 0 | 1 1 1 1 3
the third | INT, INT, INT, INT / KEY 0 1 2 3 | 1,0,1,0; 1,0,0,9 | 1 0 | 1 1 1 2 2
the second | INT, INT, INT, INT / KEY 0 1 2 3 | 1,1,0,0; 1,0,9,9; 1,0,1,0 | 2 1 0 | 1 1 2 3 3
the first | INT, INT, INT, INT / KEY 0 1 2 3 | 2,0,0,0; 1,1,1,1 | 1 0 | 1 2 2 2 2";

#[test]
fn four_parts_are_in_order(rt: HostRuntime) -> Result<(), Fail> {
    each_is_in_order(&rt, rt.alloc(), FOUR_PARTS)?;
    Ok(())
}

/// Keys over texts, which stand by their bytes.
const TEXTS: &str = "\
letters | VARCHAR / KEY 0 | 'b; 'a; 'c | 1 0 2 | 1 3
capitals come first | VARCHAR / KEY 0 | 'a; 'B; 'b; 'A | 3 1 0 2 | 1 4
the empty text and NULL | VARCHAR / KEY 0 | 'a; '; NULL; ' | 2 1 3 0 | 1 3
a beginning comes first | VARCHAR / KEY 0 | 'ab; 'a; 'abc; 'b | 1 0 2 3 | 1 4
two bytes come last | VARCHAR / KEY 0 | 'z; 'ä; 'a | 2 0 1 | 1 3
digits are no numbers | VARCHAR / KEY 0 | '9; '10; '1 | 2 1 0 | 1 3
a blank counts | VARCHAR / KEY 0 | 'a b; 'a; 'a | 1 2 0 | 1 2";

#[test]
fn texts_are_in_order(rt: HostRuntime) -> Result<(), Fail> {
    each_is_in_order(&rt, rt.alloc(), TEXTS)?;
    Ok(())
}
