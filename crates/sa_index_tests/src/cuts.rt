//! Where cuts lie between the entries of small tables.

use crate::built::{built, lower, parts_of};
use crate::filled::filled;
use crate::line::cell;
use crate::value::cut;
use sa_key::Side;
use sa_value::OutOfMemory;
use std::alloc::Global;
use std::process::Abort;
use std::test::Fail;

/// Each line of a table: name, the tuple of a cut, and how many entries lie below it and above it.
fn each_lies(
    rt: &impl Abort,
    alloc: Global,
    def: &str,
    rows: &str,
    table: &str,
) -> Result<(), OutOfMemory> {
    let tables = filled(rt, alloc, def, rows)?;
    let index = built(rt, alloc, &tables, 0)?;
    let parts = parts_of(rt, &tables, 0);
    for line in table.split('\n') {
        let below = lower(rt, &index, &tables, parts, &cut(cell(line, 1), Side::Below));
        let above = lower(rt, &index, &tables, parts, &cut(cell(line, 1), Side::Above));
        let counts = format!(in alloc; "{below} {above}")?;
        assert_eq!(rt; counts.as_str(), cell(line, 2), "{line}");
    }
    Ok(())
}

/// Cuts between no entries.
const EMPTY: &str = "\
the empty tuple | | 0 0
a number | 5 | 0 0
NULL | NULL | 0 0
a text | 'a | 0 0";

#[test]
fn cuts_lie_between_no_entries(rt: HostRuntime) -> Result<(), Fail> {
    each_lies(&rt, rt.alloc(), "INT / KEY 0", "", EMPTY)?;
    each_lies(&rt, rt.alloc(), "VARCHAR / KEY 0", "", EMPTY)?;
    Ok(())
}

/// Cuts between NULL, NULL, -3, 4, 4, 4, 9.
const NUMBERS: &str = "\
the empty tuple | | 0 7
NULL | NULL | 0 2
a number before all | -9223372036854775808 | 2 2
the first number | -3 | 2 3
a number between | 0 | 3 3
equal numbers | 4 | 3 6
equal numbers, wide | BIG 4 | 3 6
another between | 5 | 6 6
the last number | 9 | 6 7
a number behind all | 9223372036854775807 | 7 7
a wide number before all | BIG -9223372036854775809 | 2 2
a wide number behind all | BIG 9223372036854775808 | 7 7
a text | ' | 7 7";

#[test]
fn cuts_lie_between_numbers(rt: HostRuntime) -> Result<(), Fail> {
    each_lies(
        &rt,
        rt.alloc(),
        "INT / KEY 0",
        "4; NULL; 9; 4; -3; NULL; 4",
        NUMBERS,
    )?;
    Ok(())
}

/// Cuts between (NULL, 9), (1, NULL), (1, NULL), (2, 7), (3, 7).
const PAIRS: &str = "\
the empty tuple | | 0 5
NULL | NULL | 0 1
NULL and NULL | NULL, NULL | 0 0
NULL and a number | NULL, 9 | 0 1
NULL and a greater number | NULL, 10 | 1 1
a number | 1 | 1 3
a number and NULL | 1, NULL | 1 3
a number and another | 1, 0 | 3 3
the second part is equal | 2, 7 | 3 4
the second part is less | 2, 6 | 3 3
the second part is greater | 2, 8 | 4 4
the second part is a text | 2, 'a | 4 4
the last first part | 3 | 4 5
behind all | 3, 8 | 5 5
a greater first part | 4, NULL | 5 5";

#[test]
fn cuts_lie_between_pairs(rt: HostRuntime) -> Result<(), Fail> {
    let rows = "2, 7; 1, NULL; 3, 7; 1, NULL; NULL, 9";
    each_lies(&rt, rt.alloc(), "INT, INT / KEY 0 1", rows, PAIRS)?;
    Ok(())
}

/// Cuts between NULL, the empty text, a, a, ab, b, ä.
const TEXTS: &str = "\
the empty tuple | | 0 7
NULL | NULL | 0 1
a number | 9 | 1 1
the empty text | ' | 1 2
a capital | 'A | 2 2
equal texts | 'a | 2 4
between | 'aa | 4 4
a longer text | 'ab | 4 5
a text of two bytes | 'ä | 6 7
behind all | 'äa | 7 7";

#[test]
fn cuts_lie_between_texts(rt: HostRuntime) -> Result<(), Fail> {
    let rows = "'b; 'a; '; 'ä; 'a; NULL; 'ab";
    each_lies(&rt, rt.alloc(), "VARCHAR / KEY 0", rows, TEXTS)?;
    Ok(())
}

/// Cuts between (NULL, a), (1, NULL), (1, a), (1, b), (2, a).
const MIXED: &str = "\
the empty tuple | | 0 5
NULL | NULL | 0 1
a number | 1 | 1 4
a number and NULL | 1, NULL | 1 2
a number and a number | 1, 5 | 2 2
a number and a text | 1, 'a | 2 3
a number and a text between | 1, 'aa | 3 3
a text in front | 'a | 5 5
the last | 2, 'a | 4 5";

#[test]
fn cuts_lie_between_numbers_and_texts(rt: HostRuntime) -> Result<(), Fail> {
    let rows = "1, 'b; 2, 'a; 1, NULL; NULL, 'a; 1, 'a";
    each_lies(&rt, rt.alloc(), "INT, VARCHAR / KEY 0 1", rows, MIXED)?;
    Ok(())
}

/// Cuts between four entries with a unique key: NULL, NULL, 1, 2.
const UNIQUE: &str = "\
the empty tuple | | 0 4
NULL | NULL | 0 2
the first number | 1 | 2 3
the second number | 2 | 3 4";

#[test]
fn cuts_lie_between_unique_keys(rt: HostRuntime) -> Result<(), Fail> {
    each_lies(
        &rt,
        rt.alloc(),
        "INT / UNIQUE 0",
        "2; NULL; 1; NULL",
        UNIQUE,
    )?;
    Ok(())
}
