//! The values of expressions.

use crate::line::{cell, is_same};
use sa_sample::{Sample, expression, value};
use sa_value::{OutOfMemory, ValueRef};
use std::alloc::{AllocError, Global};
use std::process::Abort;
use std::test::Fail;

/// Each line of a table: name, expression, value.
fn each_is_value(rt: &impl Abort, alloc: Global, table: &str) -> Result<(), OutOfMemory> {
    for line in table.split('\n') {
        let found = value_of(alloc, cell(line, 1))?;
        is_same(rt, line, found.as_str(), cell(line, 2));
    }
    Ok(())
}

/// The value of an expression as it is written.
fn value_of(alloc: Global, sql: &str) -> Result<String, AllocError> {
    match expression(alloc, sql) {
        Some(expr) => written(alloc, value(&expr, &Sample)),
        None => format!(in alloc; "no expression"),
    }
}

fn written(alloc: Global, value: Option<ValueRef<'_>>) -> Result<String, AllocError> {
    match value {
        Some(ValueRef::Null) => format!(in alloc; "NULL"),
        Some(ValueRef::Int(number)) => format!(in alloc; "{number}"),
        Some(ValueRef::Big(number)) => format!(in alloc; "{number}"),
        Some(ValueRef::Text(text)) => format!(in alloc; "'{text}'"),
        None => format!(in alloc; "not well-typed"),
    }
}

/// The last number is 2^70.
const LEAVES: &str = "\
a column | b | 3
NULL | c | NULL
a text | t | 'pear'
no text | u | NULL
a literal | -5 | -5
a literal NULL | NULL | NULL
a literal text | 'fig' | 'fig'
the least | -9223372036854775808 | -9223372036854775808
the greatest | 9223372036854775807 | 9223372036854775807
a sum | SUM(a) | 1180591620717411303424";

#[test]
fn leaves_have_values(rt: HostRuntime) -> Result<(), Fail> {
    each_is_value(&rt, rt.alloc(), LEAVES)?;
    Ok(())
}

const COMPUTED: &str = "\
minus | -a | -2
plus | a + b | 5
difference | a - b | -1
product | a * b | 6
a product near the greatest | 2147483647 * 2147483647 * 2 | 9223372028264841218
a product of three | a * b * 1 | 6
nested | (a - b) * 5 - -1 | -4
from the left | b - a - a | -1
brackets | b - (a - a) | 3
a product first | a + b * b | 11";

#[test]
fn arithmetic_is_computed(rt: HostRuntime) -> Result<(), Fail> {
    each_is_value(&rt, rt.alloc(), COMPUTED)?;
    Ok(())
}

const NULLS: &str = "\
minus | -c | NULL
plus on the left | c + 1 | NULL
plus on the right | 1 + c | NULL
difference on the left | c - 1 | NULL
difference on the right | 1 - c | NULL
product on the left | c * 0 | NULL
product on the right | 0 * c | NULL
two NULLs | c - c | NULL
the literal | a + NULL | NULL
inside | 2 * (b + c) | NULL";

#[test]
fn arithmetic_with_null_is_null(rt: HostRuntime) -> Result<(), Fail> {
    each_is_value(&rt, rt.alloc(), NULLS)?;
    Ok(())
}
