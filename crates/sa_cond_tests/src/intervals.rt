//! The static intervals of expressions: INT runs from -2147483648 to 2147483647.

use crate::line::{cell, is_same};
use crate::truths::each_is;
use sa_sample::{ends, expression};
use sa_value::OutOfMemory;
use std::alloc::{AllocError, Global};
use std::process::Abort;
use std::test::Fail;

/// Each line of a table: name, expression, least and greatest number or none.
fn each_runs(rt: &impl Abort, alloc: Global, table: &str) -> Result<(), OutOfMemory> {
    for line in table.split('\n') {
        let found = interval_of(alloc, cell(line, 1))?;
        is_same(rt, line, found.as_str(), cell(line, 2));
    }
    Ok(())
}

/// The static interval of an expression as it is written.
fn interval_of(alloc: Global, sql: &str) -> Result<String, AllocError> {
    match expression(alloc, sql) {
        Some(expr) => written(alloc, ends(&expr)),
        None => format!(in alloc; "no expression"),
    }
}

fn written(alloc: Global, ends: Option<(i128, i128)>) -> Result<String, AllocError> {
    match ends {
        Some((least, greatest)) => format!(in alloc; "{least} to {greatest}"),
        None => format!(in alloc; "none"),
    }
}

const SMALL: &str = "\
an INT | a | -2147483648 to 2147483647
a literal | -5 | -5 to -5
NULL | NULL | 0 to 0
minus | -a | -2147483647 to 2147483648
plus | a + b | -4294967296 to 4294967294
difference | a - b | -4294967295 to 4294967295
product, a minus | -3 * a | -6442450941 to 6442450944
product with 0 | a * 0 | 0 to 0
product with NULL | a * NULL | 0 to 0
plus NULL | a + NULL | -2147483648 to 2147483647";

const LARGE: &str = "\
a BIGINT | n | -9223372036854775808 to 9223372036854775807
the whole range | n + 0 | -9223372036854775808 to 9223372036854775807
product of two | a * b | -4611686016279904256 to 4611686018427387904
up to the greatest | a * b + (a * b - 1) | -9223372032559808513 to 9223372036854775807
a literal | 9223372036854775807 | 9223372036854775807 to 9223372036854775807";

#[test]
fn intervals_are_given(rt: HostRuntime) -> Result<(), Fail> {
    each_runs(&rt, rt.alloc(), SMALL)?;
    each_runs(&rt, rt.alloc(), LARGE)?;
    Ok(())
}

const NONE: &str = "\
one past the range | n + 1 | none
one below the range | n - 1 | none
minus the least | -n | none
twice a product | a * b + a * b | none
product of three | a * b * c | none
a part that leaves it | (n + 1) * 0 | none
a literal past it | 9223372036854775808 | none
a text | t | none
arithmetic on a text | a + t | none
a sum | SUM(a) | none
arithmetic on a sum | SUM(a) - 1 | none";

#[test]
fn no_interval_is_given(rt: HostRuntime) -> Result<(), Fail> {
    each_runs(&rt, rt.alloc(), NONE)?;
    Ok(())
}

/// Whether a condition may be evaluated follows from its intervals.
const TESTED: &str = "\
product of two | a * b > 5 | TRUE
product of three | a * b * c > 5 | not well-typed
product of three, of literals | 2 * 3 * a > 11 | TRUE
a sum beside a number | SUM(a) > n | TRUE
arithmetic on a sum | SUM(a) - 1 > n | not well-typed
a text beside a number | t = 1 | not well-typed
a text beside NULL | t = NULL | UNKNOWN
in an AND | FALSE AND n + 1 = 1 | not well-typed";

#[test]
fn what_leaves_bigint_is_not_evaluated(rt: HostRuntime) {
    each_is(&rt, rt.alloc(), TESTED);
}
