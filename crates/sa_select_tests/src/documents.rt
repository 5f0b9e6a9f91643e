//! The conditions of plans in documents.

use crate::showing::{each_analyzes, each_explains};
use std::test::Fail;

/// Without WHERE, and where the filter is TRUE for all rows, a plan has no condition.
const WITHOUT: &str = "\
SELECT id FROM n | n |
SELECT id FROM n WHERE TRUE | n |
SELECT id FROM n WHERE 1 = 1 | n |
SELECT id FROM n WHERE NOT FALSE | n |
SELECT id FROM n WHERE 'a' = 'a' AND NULL IS NULL | n |
SELECT x.id FROM n AS x WHERE i = 7 OR TRUE | x |";

#[test]
fn what_is_true_is_no_condition(rt: HostRuntime) -> Result<(), Fail> {
    each_explains(&rt, rt.alloc(), WITHOUT)
}

/// The conjuncts of the simplified filter stand apart by AND.
const CONJUNCTS: &str = "\
SELECT id FROM n WHERE i >= 2 | n | (n.i >= 2)
SELECT id FROM n WHERE i > 1 AND b < 2 | n | (n.i > 1) AND (n.b < 2)
SELECT id FROM n WHERE 1 = 1 AND i > 1 | n | (n.i > 1)
SELECT id FROM n WHERE 0 > i | n | (n.i < 0)
SELECT id FROM n WHERE NOT i = 7 | n | (n.i <> 7)
SELECT id FROM n WHERE i BETWEEN 1 AND 2 | n | (n.i >= 1) AND (n.i <= 2)
SELECT id FROM n WHERE i NOT BETWEEN 1 AND 2 | n | ((n.i < 1) OR (n.i > 2))
SELECT id FROM n WHERE i IN (7, 0) | n | ((n.i = 7) OR (n.i = 0))
SELECT id FROM n WHERE i NOT IN (7, 0) | n | (n.i <> 7) AND (n.i <> 0)
SELECT id FROM n WHERE i = b AND b = 3 | n | (n.i = n.b) AND (n.b = 3) AND (n.i = 3)
SELECT id FROM n WHERE i + 1 = 3 + 5 | n | ((n.i + 1) = 8)
SELECT id FROM n WHERE -i = 1 | n | ((-n.i) = 1)";

#[test]
fn conjuncts_are_shown(rt: HostRuntime) -> Result<(), Fail> {
    each_explains(&rt, rt.alloc(), CONJUNCTS)
}

/// What is never TRUE, tests of NULL, and aliases.
const OTHERS: &str = "\
SELECT id FROM n WHERE FALSE | n | FALSE
SELECT id FROM n WHERE 1 = 2 AND i = 7 | n | FALSE
SELECT id FROM n WHERE NULL | n | NULL
SELECT id FROM n WHERE NOT (i = NULL) | n | NULL
SELECT id FROM n WHERE i = 7 AND NULL | n | (n.i = 7) AND NULL
SELECT id FROM n WHERE i <=> NULL | n | (n.i IS NULL)
SELECT id FROM n WHERE NOT (i <=> NULL) | n | (n.i IS NOT NULL)
SELECT id FROM n WHERE NOT (i <=> 7) | n | (NOT (n.i <=> 7))
SELECT id FROM n AS x WHERE i = 0 | x | (x.i = 0)
SELECT id FROM n AS `a b` WHERE i = 0 | a b | (`a b`.i = 0)";

#[test]
fn other_conditions_are_shown(rt: HostRuntime) -> Result<(), Fail> {
    each_explains(&rt, rt.alloc(), OTHERS)
}

/// Texts as JSON has them.
const TEXTS: &str = r#"SELECT id FROM n WHERE s = 'a''b' | n | (n.s = 'a''b')
SELECT id FROM n WHERE s = 'x\\y' | n | (n.s = 'x\\\\y')
SELECT id FROM n WHERE s = 'two\nlines' | n | (n.s = 'two\nlines')
SELECT id FROM n WHERE s = '😀' | n | (n.s = '😀')
SELECT id FROM n WHERE s = 'say "a"' | n | (n.s = 'say \"a\"')
SELECT id FROM n WHERE s = '\0\b\t\r\Z' | n | (n.s = '\u0000\b\t\r\u001a')"#;

#[test]
fn texts_are_shown(rt: HostRuntime) -> Result<(), Fail> {
    each_explains(&rt, rt.alloc(), TEXTS)
}

/// Behind the condition stand the rows read, those that passed and those given out, and the share of those
/// that passed.
const COUNTED: &str = r#"SELECT id FROM n | n | | 2 | 2 | 1 | 100.00
SELECT id FROM n WHERE 1 = 1 | n | | 2 | 2 | 1 | 100.00
SELECT id FROM n WHERE i >= 2 | n | (n.i >= 2) | 3 | 1 | 0 | 33.33
SELECT id FROM n WHERE i > 1 AND b < 2 | n | (n.i > 1) AND (n.b < 2) | 3 | 0 | 0 | 0.00
SELECT id FROM n WHERE s = '' | n | (n.s = '') | 2 | 1 | 1 | 50.00
SELECT id FROM n WHERE s <> 'say "a"' | n | (n.s <> 'say \"a\"') | 2 | 1 | 1 | 50.00"#;

#[test]
fn counters_are_shown(rt: HostRuntime) -> Result<(), Fail> {
    each_analyzes(&rt, rt.alloc(), COUNTED)
}
