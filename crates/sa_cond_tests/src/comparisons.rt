//! Each operator of comparison.

use crate::line::{cell, is_same};
use crate::truths::truth_of;
use sa_value::OutOfMemory;
use std::alloc::Global;
use std::process::Abort;
use std::test::Fail;

/// Each operator, and its truth where the left side is less, equal and greater, where one side is
/// NULL and where both are.
const OPERATORS: &str = "\
=   | FALSE | TRUE  | FALSE | UNKNOWN | UNKNOWN
<=> | FALSE | TRUE  | FALSE | FALSE   | TRUE
<>  | TRUE  | FALSE | TRUE  | UNKNOWN | UNKNOWN
<   | TRUE  | FALSE | FALSE | UNKNOWN | UNKNOWN
<=  | TRUE  | TRUE  | FALSE | UNKNOWN | UNKNOWN
>   | FALSE | FALSE | TRUE  | UNKNOWN | UNKNOWN
>=  | FALSE | TRUE  | TRUE  | UNKNOWN | UNKNOWN";

const LESS: &str = "\
a         | b
a         | b + a
-a        | SUM(a)
t         | 'plum'
''        | t
'pea'     | 'pear'
a - b     | 0
b - 10    | -2";

const EQUAL: &str = "\
a         | 2
a         | 1 + 1
a + b     | b + a
SUM(a)    | SUM(b)
t         | 'pear'
n         | 7";

const GREATER: &str = "\
b         | a
b + a     | a
SUM(a)    | -a
SUM(a)    | 9223372036854775807
'plum'    | t
'pears'   | t
'a'       | 'B'
-2        | b - 10";

const ONE_NULL: &str = "\
a         | c
c         | a
a         | NULL
NULL      | a
a         | c + 1
c + 1     | a
a         | -(NULL)
-(NULL)   | a
a         | a * NULL
a * NULL  | a
SUM(a)    | c
c         | SUM(a)
t         | u
u         | t
t         | NULL
NULL      | t";

const TWO_NULLS: &str = "\
c         | c
c         | NULL
NULL      | c
NULL      | NULL
c         | c + 1
-(NULL)   | c
a * NULL  | c
u         | u
u         | NULL
NULL      | u";

/// The operator has this truth between the sides of each line.
fn each_compares(
    rt: &impl Abort,
    alloc: Global,
    op: &str,
    sides: &str,
    expected: &str,
) -> Result<(), OutOfMemory> {
    for line in sides.split('\n') {
        let sql = compared(alloc, op, cell(line, 0), cell(line, 1))?;
        is_same(rt, sql.as_str(), truth_of(alloc, sql.as_str()), expected);
    }
    Ok(())
}

fn compared(alloc: Global, op: &str, left: &str, right: &str) -> Result<String, OutOfMemory> {
    Ok(format!(in alloc; "{left} {op} {right}")?)
}

/// Each operator has the truth of its column between the sides of each line.
fn each_operator(
    rt: &impl Abort,
    alloc: Global,
    column: usize,
    sides: &str,
) -> Result<(), OutOfMemory> {
    for line in OPERATORS.split('\n') {
        each_compares(rt, alloc, cell(line, 0), sides, cell(line, column))?;
    }
    Ok(())
}

#[test]
fn values_are_compared(rt: HostRuntime) -> Result<(), Fail> {
    each_operator(&rt, rt.alloc(), 1, LESS)?;
    each_operator(&rt, rt.alloc(), 2, EQUAL)?;
    each_operator(&rt, rt.alloc(), 3, GREATER)?;
    Ok(())
}

#[test]
fn nulls_are_compared(rt: HostRuntime) -> Result<(), Fail> {
    each_operator(&rt, rt.alloc(), 4, ONE_NULL)?;
    each_operator(&rt, rt.alloc(), 5, TWO_NULLS)?;
    Ok(())
}
