//! AND, OR and NOT.

use crate::line::{cell, is_same};
use crate::truths::{each_is, truth_of};
use sa_value::OutOfMemory;
use std::alloc::Global;
use std::process::Abort;
use std::test::Fail;

/// All cells of both tables: two conditions, the truth of their AND and that of their OR.
const TRUTHS: &str = "\
FALSE | FALSE | FALSE   | FALSE
FALSE | NULL  | FALSE   | UNKNOWN
FALSE | TRUE  | FALSE   | TRUE
NULL  | FALSE | FALSE   | UNKNOWN
NULL  | NULL  | UNKNOWN | UNKNOWN
NULL  | TRUE  | UNKNOWN | TRUE
TRUE  | FALSE | FALSE   | TRUE
TRUE  | NULL  | UNKNOWN | TRUE
TRUE  | TRUE  | TRUE    | TRUE";

/// The same with comparisons.
const COMPARISONS: &str = "\
a = 3 | b = 2 | FALSE   | FALSE
a = 3 | b = c | FALSE   | UNKNOWN
a = 3 | b = 3 | FALSE   | TRUE
a = c | b = 2 | FALSE   | UNKNOWN
a = c | b = c | UNKNOWN | UNKNOWN
a = c | b = 3 | UNKNOWN | TRUE
a = 2 | b = 2 | FALSE   | TRUE
a = 2 | b = c | UNKNOWN | TRUE
a = 2 | b = 3 | TRUE    | TRUE";

/// Each line of a table: two conditions, the truth of their AND and that of their OR.
fn each_joins(rt: &impl Abort, alloc: Global, table: &str) -> Result<(), OutOfMemory> {
    for line in table.split('\n') {
        let and = joined(alloc, line, "AND")?;
        is_same(rt, line, truth_of(alloc, and.as_str()), cell(line, 2));
        let or = joined(alloc, line, "OR")?;
        is_same(rt, line, truth_of(alloc, or.as_str()), cell(line, 3));
    }
    Ok(())
}

/// The two conditions of a line with a word between them.
fn joined(alloc: Global, line: &str, word: &str) -> Result<String, OutOfMemory> {
    let left = cell(line, 0);
    let right = cell(line, 1);
    Ok(format!(in alloc; "{left} {word} {right}")?)
}

#[test]
fn truths_are_joined(rt: HostRuntime) -> Result<(), Fail> {
    each_joins(&rt, rt.alloc(), TRUTHS)?;
    each_joins(&rt, rt.alloc(), COMPARISONS)?;
    Ok(())
}

const MANY: &str = "\
three, the last FALSE | a = 2 AND b = 3 AND n = 8 | FALSE
UNKNOWN before FALSE | a = c AND a = 3 AND b = 3 | FALSE
three that hold | a = 2 AND b = 3 AND n = 7 | TRUE
UNKNOWN before TRUE | a = c OR a = 2 OR b = 2 | TRUE
three that don't | a = 3 OR b = 2 OR n = 8 | FALSE
AND binds more | a = 2 OR a = 3 AND a = 3 | TRUE
brackets | (a = 2 OR a = 3) AND a = 3 | FALSE";

#[test]
fn many_are_joined(rt: HostRuntime) {
    each_is(&rt, rt.alloc(), MANY);
}

const DENIED: &str = "\
TRUE | NOT TRUE | FALSE
FALSE | NOT FALSE | TRUE
UNKNOWN | NOT NULL | UNKNOWN
what holds | NOT a = 2 | FALSE
what doesn't | NOT a = 3 | TRUE
NULL in brackets | NOT (a = NULL) | UNKNOWN
a column that is NULL | NOT a = c | UNKNOWN
two NOTs | NOT NOT a = 2 | TRUE
two NOTs over NULL | NOT NOT a = c | UNKNOWN
over AND | NOT (a = 2 AND b = c) | UNKNOWN
over an AND that is FALSE | NOT (a = 3 AND b = c) | TRUE
over OR | NOT (a = 2 OR b = c) | FALSE";

#[test]
fn truths_are_denied(rt: HostRuntime) {
    each_is(&rt, rt.alloc(), DENIED);
}

const DENIED_NULL_SAFE: &str = "\
unequal | NOT a <=> b | TRUE
equal | NOT a <=> 2 | FALSE
both NULL | NOT c <=> NULL | FALSE
one NULL | NOT a <=> NULL | TRUE
texts | NOT t <=> u | TRUE";

#[test]
fn null_safe_equalities_are_denied(rt: HostRuntime) {
    each_is(&rt, rt.alloc(), DENIED_NULL_SAFE);
}
