//! Rows: the first fault of each, and the cells that are kept.

use crate::filled::{add, count, empty, fill, shown};
use crate::line::{cell, is_counted, is_same};
use crate::row::row;
use sa_table::RowFault;
use sa_value::OutOfMemory;
use std::alloc::{AllocError, Global};
use std::process::Abort;
use std::test::Fail;

/// Each line of a table: name, definition, rows before, row, number of the row or fault.
fn each_adds(rt: &impl Abort, alloc: Global, table: &str) -> Result<(), OutOfMemory> {
    for line in table.split('\n') {
        let given = added(rt, alloc, line)?;
        is_same(rt, line, given.as_str(), cell(line, 4));
    }
    Ok(())
}

/// What the row of a line is answered. A row that is refused is not counted.
fn added(rt: &impl Abort, alloc: Global, line: &str) -> Result<String, OutOfMemory> {
    let mut tables = empty(rt, alloc, cell(line, 1))?;
    fill(rt, alloc, &mut tables, cell(line, 2))?;
    let row = row(alloc, cell(line, 3))?;
    let before = count(rt, &tables);
    let given = add(rt, &mut tables, row);
    is_counted(rt, line, given.is_ok(), before, count(rt, &tables));
    Ok(answer(alloc, given)?)
}

fn answer(alloc: Global, given: Result<u32, RowFault>) -> Result<String, AllocError> {
    match given {
        Ok(number) => format!(in alloc; "{number}"),
        Err(fault) => format!(in alloc; "{fault:?}"),
    }
}

/// How many values, and numbers at their limits.
const NUMBERS: &str = "\
no value | t: a INT, b INT | | | Arity
one value less | t: a INT, b INT | | 1 | Arity
as many values | t: a INT, b INT | | 1, 2 | 0
one value more | t: a INT, b INT | | 1, 2, 3 | Arity
32 values | t: 32*a INT | | 32*1 | 0
least INT | t: a INT | | -2147483648 | 0
one below | t: a INT | | -2147483649 | OutOfRange { column: 0 }
greatest INT | t: a INT | | 2147483647 | 0
one past | t: a INT | | 2147483648 | OutOfRange { column: 0 }
least BIGINT | t: a BIGINT | | -9223372036854775808 | 0
least BIGINT, wide | t: a BIGINT | | BIG -9223372036854775808 | 0
one below | t: a BIGINT | | BIG -9223372036854775809 | OutOfRange { column: 0 }
greatest BIGINT | t: a BIGINT | | 9223372036854775807 | 0
greatest BIGINT, wide | t: a BIGINT | | BIG 9223372036854775807 | 0
one past | t: a BIGINT | | BIG 9223372036854775808 | OutOfRange { column: 0 }
a wide number past INT | t: a INT | | BIG 2147483648 | OutOfRange { column: 0 }";

#[test]
fn numbers_are_answered(rt: HostRuntime) -> Result<(), Fail> {
    each_adds(&rt, rt.alloc(), NUMBERS)?;
    Ok(())
}

/// Texts at their limits.
const TEXTS: &str = "\
no character | t: a VARCHAR(0) | | '' | 0
one character more | t: a VARCHAR(0) | | 'x' | TooLong { column: 0 }
three characters of one byte | t: a VARCHAR(3) | | 'abc' | 0
three characters of two bytes | t: a VARCHAR(3) | | 'äöü' | 0
three characters of four bytes | t: a VARCHAR(3) | | '3*𝄞' | 0
four characters | t: a VARCHAR(3) | | 'abcd' | TooLong { column: 0 }
four characters of two bytes | t: a VARCHAR(3) | | 'äöüß' | TooLong { column: 0 }
255 bytes | t: a VARCHAR(255) | | '255*x' | 0
256 bytes | t: a VARCHAR(256) | | '256*x' | TooLong { column: 0 }
255 bytes in 85 characters | t: a VARCHAR(85) | | '85*€' | 0
256 bytes in 128 characters | t: a VARCHAR(255) | | '128*ä' | TooLong { column: 0 }
256 bytes in 64 characters | t: a VARCHAR(255) | | '64*𝄞' | TooLong { column: 0 }";

#[test]
fn texts_are_answered(rt: HostRuntime) -> Result<(), Fail> {
    each_adds(&rt, rt.alloc(), TEXTS)?;
    Ok(())
}

/// NULL, and values of another type.
const NULLS: &str = "\
NULL | t: a INT, b VARCHAR(3) | | NULL, NULL | 0
NULL for a number | t: a INT, b INT NOT NULL | | NULL, NULL | NullNotAllowed { column: 1 }
NULL for a text | t: a INT, b VARCHAR(3) NOT NULL | | NULL, NULL | NullNotAllowed { column: 1 }
NULL in a primary key | t: a INT, b INT / PRIMARY p 1 | | NULL, NULL | NullNotAllowed { column: 1 }
an empty text is not NULL | t: a VARCHAR(3) NOT NULL | | '' | 0
a text in INT | t: a INT | | '1' | TypeMismatch { column: 0 }
a text in BIGINT | t: a BIGINT | | '1' | TypeMismatch { column: 0 }
a number in VARCHAR | t: a INT, b VARCHAR(3) | | 1, 1 | TypeMismatch { column: 1 }
a wide number in VARCHAR | t: a VARCHAR(3) | | BIG 1 | TypeMismatch { column: 0 }";

#[test]
fn nulls_and_types_are_answered(rt: HostRuntime) -> Result<(), Fail> {
    each_adds(&rt, rt.alloc(), NULLS)?;
    Ok(())
}

/// Rows with two faults, each pair once, those of two columns both ways.
const FIRST_OF_TWO: &str = "\
arity, NULL | t: a INT NOT NULL | | NULL, 1 | Arity
arity, type | t: a INT | | 'x', 1 | Arity
arity, range | t: a INT | | 2147483648, 1 | Arity
arity, length | t: a VARCHAR(2) | | 'abc', 1 | Arity
arity, key | t: a INT / UNIQUE u 0 | 1 | 1, 1 | Arity
NULL, type | t: a INT NOT NULL, b INT NOT NULL | | NULL, 'x' | NullNotAllowed { column: 0 }
type, NULL | t: a INT NOT NULL, b INT NOT NULL | | 'x', NULL | TypeMismatch { column: 0 }
NULL, range | t: a INT NOT NULL, b INT NOT NULL | | NULL, 2147483648 | NullNotAllowed { column: 0 }
range, NULL | t: a INT NOT NULL, b INT NOT NULL | | 2147483648, NULL | OutOfRange { column: 0 }
NULL, length | t: a INT NOT NULL, b VARCHAR(2) | | NULL, 'xyz' | NullNotAllowed { column: 0 }
length, NULL | t: a VARCHAR(2) NOT NULL, b INT NOT NULL | | 'xyz', NULL | TooLong { column: 0 }
type, range | t: a INT NOT NULL, b INT NOT NULL | | 'x', 2147483648 | TypeMismatch { column: 0 }
range, type | t: a INT NOT NULL, b INT NOT NULL | | 2147483648, 'x' | OutOfRange { column: 0 }
type, length | t: a INT NOT NULL, b VARCHAR(2) NOT NULL | | 'x', 'xyz' | TypeMismatch { column: 0 }
length, type | t: a VARCHAR(2) NOT NULL, b INT NOT NULL | | 'xyz', 'x' | TooLong { column: 0 }
range, length | t: a INT, b VARCHAR(2) | | 2147483648, 'xyz' | OutOfRange { column: 0 }
length, range | t: a VARCHAR(2), b INT | | 'xyz', 2147483648 | TooLong { column: 0 }";

#[test]
fn the_first_fault_is_told(rt: HostRuntime) -> Result<(), Fail> {
    each_adds(&rt, rt.alloc(), FIRST_OF_TWO)?;
    Ok(())
}

/// Keys after whatever is wrong with a value.
const BEFORE_KEYS: &str = "\
NULL, key | t: a INT NOT NULL, b INT / UNIQUE u 1 | 1, 5 | NULL, 5 | NullNotAllowed { column: 0 }
type, key | t: a INT, b VARCHAR(2) / UNIQUE u 1 | 1, 'x' | 'w', 'x' | TypeMismatch { column: 0 }
range, key | t: a INT, b INT / UNIQUE u 1 | 1, 5 | 2147483648, 5 | OutOfRange { column: 0 }
length, key | t: a VARCHAR(2), b INT / UNIQUE u 1 | 'x', 5 | 'xyz', 5 | TooLong { column: 0 }
key alone | t: a INT, b VARCHAR(2) / UNIQUE u 1 | 1, 'x' | 2, 'x' | DuplicateKey { row: 0 }";

#[test]
fn keys_are_told_last(rt: HostRuntime) -> Result<(), Fail> {
    each_adds(&rt, rt.alloc(), BEFORE_KEYS)?;
    Ok(())
}

/// Rows in tables with a key over one number.
const UNIQUE_NUMBERS: &str = "\
a new number | t: a INT / UNIQUE u 0 | 1; 2 | 3 | 2
the first number again | t: a INT / UNIQUE u 0 | 1; 2 | 1 | DuplicateKey { row: 0 }
the second number again | t: a INT / UNIQUE u 0 | 1; 2 | 2 | DuplicateKey { row: 1 }
the same number, wide | t: a INT / UNIQUE u 0 | 1; 2 | BIG 2 | DuplicateKey { row: 1 }
a primary key | t: a INT / PRIMARY p 0 | 1; 2 | 2 | DuplicateKey { row: 1 }
a key that is not unique | t: a INT / KEY k 0 | 1; 2 | 2 | 2
NULL again | t: a INT / UNIQUE u 0 | NULL; 1 | NULL | 2
a number behind NULL | t: a INT / UNIQUE u 0 | NULL; 1 | 1 | DuplicateKey { row: 1 }
0 behind NULL | t: a INT / UNIQUE u 0 | NULL | 0 | 1";

#[test]
fn numbers_are_unique(rt: HostRuntime) -> Result<(), Fail> {
    each_adds(&rt, rt.alloc(), UNIQUE_NUMBERS)?;
    Ok(())
}

/// Rows in tables with two numbers and keys over them.
const UNIQUE_PAIRS: &str = "\
another second part | t: a INT, b INT / UNIQUE u 0 1 | 1, 1 | 1, 2 | 1
another first part | t: a INT, b INT / UNIQUE u 0 1 | 1, 1 | 2, 1 | 1
parts exchanged | t: a INT, b INT / UNIQUE u 0 1 | 1, 2 | 2, 1 | 1
the same pair | t: a INT, b INT / UNIQUE u 0 1 | 1, 1; 1, 2 | 1, 2 | DuplicateKey { row: 1 }
NULL in the second part | t: a INT, b INT / UNIQUE u 0 1 | 1, NULL | 1, NULL | 1
NULL in the first part | t: a INT, b INT / UNIQUE u 0 1 | NULL, 1 | NULL, 1 | 1
parts in another order | t: a INT, b INT / UNIQUE u 1 0 | 1, 2 | 1, 2 | DuplicateKey { row: 0 }
both keys | t: 2*a INT / UNIQUE u 0, UNIQUE v 1 | 1, 8; 2, 9 | 2, 8 | DuplicateKey { row: 1 }
the second key | t: 2*a INT / UNIQUE u 0, UNIQUE v 1 | 1, 8; 2, 9 | 3, 8 | DuplicateKey { row: 0 }";

#[test]
fn pairs_are_unique(rt: HostRuntime) -> Result<(), Fail> {
    each_adds(&rt, rt.alloc(), UNIQUE_PAIRS)?;
    Ok(())
}

/// Pairs that differ and have one digest.
const ONE_DIGEST: &str = "\
another pair | t: 2*a BIGINT / UNIQUE u 0 1 | 1, 0 | 0, -7046029254386353131 | 1
first | t: 2*a BIGINT / UNIQUE u 0 1 | 1,0; 0,-7046029254386353131 | 1,0 | DuplicateKey { row: 0 }";

#[test]
fn pairs_of_one_digest_are_unique(rt: HostRuntime) -> Result<(), Fail> {
    each_adds(&rt, rt.alloc(), ONE_DIGEST)?;
    Ok(())
}

/// Rows in tables with a key over texts.
const UNIQUE_TEXTS: &str = "\
another case | t: a VARCHAR(3) / UNIQUE u 0 | 'abc' | 'Abc' | 1
the same text | t: a VARCHAR(3) / UNIQUE u 0 | 'abc'; 'Abc' | 'Abc' | DuplicateKey { row: 1 }
the empty text again | t: a VARCHAR(3) / UNIQUE u 0 | NULL; '' | '' | DuplicateKey { row: 1 }
the empty text beside NULL | t: a VARCHAR(3) / UNIQUE u 0 | NULL | '' | 1
a blank at the end | t: a VARCHAR(3) / UNIQUE u 0 | 'a' | 'a ' | 1
one text cut in two ways | t: a VARCHAR(3), b VARCHAR(3) / UNIQUE u 0 1 | 'ab', 'c' | 'a', 'bc' | 1
the same | t: 2*a VARCHAR(3) / UNIQUE u 0 1 | 'ab', 'c' | 'ab', 'c' | DuplicateKey { row: 0 }";

#[test]
fn texts_are_unique(rt: HostRuntime) -> Result<(), Fail> {
    each_adds(&rt, rt.alloc(), UNIQUE_TEXTS)?;
    Ok(())
}

/// Each line of a table: name, definition, rows, cells.
fn each_keeps(rt: &impl Abort, alloc: Global, table: &str) -> Result<(), OutOfMemory> {
    for line in table.split('\n') {
        let kept = kept(rt, alloc, line)?;
        is_same(rt, line, kept.as_str(), cell(line, 3));
    }
    Ok(())
}

/// The cells of a table with the rows of a line.
fn kept(rt: &impl Abort, alloc: Global, line: &str) -> Result<String, OutOfMemory> {
    let mut tables = empty(rt, alloc, cell(line, 1))?;
    fill(rt, alloc, &mut tables, cell(line, 2))?;
    shown(rt, alloc, &tables)
}

/// Rows and their cells.
const CELLS: &str = "\
numbers | t: a INT | 3; -1; 2 | 3; -1; 2
NULL among numbers | t: a INT | 1; NULL; 2; 3; NULL; 4 | 1; NULL; 2; 3; NULL; 4
texts | t: a VARCHAR(3) / UNIQUE u 0 | 'a'; ''; 'äö' | 'a'; ''; 'äö'
NULL among texts | t: a VARCHAR(3) / UNIQUE u 0 | NULL; 'a'; NULL | NULL; 'a'; NULL
a wide number | t: a BIGINT | BIG 5; -6 | 5; -6
kinds | t: a INT, b VARCHAR(3), c BIGINT | 1, 'a', NULL; NULL, 'b', 2 | 1, 'a', NULL; NULL, 'b', 2";

#[test]
fn cells_are_kept(rt: HostRuntime) -> Result<(), Fail> {
    each_keeps(&rt, rt.alloc(), CELLS)?;
    Ok(())
}
