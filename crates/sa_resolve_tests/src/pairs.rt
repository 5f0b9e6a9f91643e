//! Pairs of faults: the earlier one is told, and of two at one place the first in the list of
//! kinds.

use crate::checks::{has_answer, is_faulty};
use crate::fixtures::repeated;
use std::test::Fail;

#[test]
fn tells_the_earlier_fault(rt: HostRuntime) -> Result<(), Fail> {
    let rows = [
        (
            "a column before its table",
            "SELECT ^nope FROM x",
            "UnknownColumn",
        ),
        (
            "a table before WHERE",
            "SELECT 1 FROM ^x WHERE nope = 1",
            "UnknownTable",
        ),
        (
            "ON before WHERE",
            "SELECT 1 FROM t JOIN v ON ^a WHERE nope = 1",
            "TypeMismatch",
        ),
        (
            "WHERE before ORDER BY",
            "SELECT 1 FROM t WHERE ^'x' ORDER BY nope",
            "TypeMismatch",
        ),
        (
            "GROUP BY before HAVING",
            "SELECT 1 FROM t GROUP BY ^a + 1 HAVING 1",
            "GroupRule",
        ),
    ];
    for (name, text, kind) in rows {
        is_faulty(&rt, name, text, kind)?;
    }
    Ok(())
}

#[test]
fn tells_the_earlier_part(rt: HostRuntime) -> Result<(), Fail> {
    let rows = [
        (
            "HAVING before ORDER BY",
            "SELECT a FROM t ^HAVING a = 1 ORDER BY x",
            "GroupRule",
        ),
        (
            "a part before its operator",
            "SELECT ^nope + s FROM u",
            "UnknownColumn",
        ),
        (
            "an operator before its part",
            "SELECT s ^+ nope FROM u",
            "TypeMismatch",
        ),
        (
            "a column that isn't grouped first",
            "SELECT ^a, SUM(s) FROM u",
            "GroupRule",
        ),
        (
            "the outer of two inner aggregates",
            "SELECT MIN(^MAX(SUM(a))) + 1 FROM t",
            "GroupRule",
        ),
        (
            "the select list before an alias",
            "SELECT 1 + ^s2 FROM t, t",
            "UnknownColumn",
        ),
    ];
    for (name, text, kind) in rows {
        is_faulty(&rt, name, text, kind)?;
    }
    Ok(())
}

#[test]
fn tells_the_first_kind_at_one_place(rt: HostRuntime) -> Result<(), Fail> {
    let rows = [
        (
            "an unknown table and a second alias",
            "SELECT 1 FROM t AS nope, ^nope",
            "UnknownTable",
        ),
        (
            "an unknown table and a ninth",
            "SELECT 1 FROM t x1, t x2, t x3, t x4, t x5, t x6, t x7, t x8, ^nope",
            "UnknownTable",
        ),
        (
            "a second alias and a ninth table",
            "SELECT 1 FROM t, t x2, t x3, t x4, t x5, t x6, t x7, t x8, ^t",
            "DuplicateAlias",
        ),
        (
            "an unknown column and no column",
            "SELECT 1 FROM t GROUP BY ^b",
            "UnknownColumn",
        ),
    ];
    for (name, text, kind) in rows {
        is_faulty(&rt, name, text, kind)?;
    }
    Ok(())
}

#[test]
fn tells_the_first_kind_at_one_name(rt: HostRuntime) -> Result<(), Fail> {
    let rows = [
        (
            "an ambiguous column and no column",
            "SELECT 1 FROM t AS x, t AS y GROUP BY ^a",
            "Ambiguous",
        ),
        (
            "a sum in arithmetic and in an aggregate",
            "SELECT MAX(^SUM(a)) + 1 FROM t",
            "ExprRange",
        ),
        (
            "a condition and no item of DISTINCT",
            "SELECT DISTINCT a FROM t ORDER BY ^TRUE",
            "TypeMismatch",
        ),
        (
            "an unknown column and a ninth item",
            "SELECT 1 FROM w ORDER BY w1, w2, w3, w4, w5, w6, w7, w8, ^nope",
            "UnknownColumn",
        ),
    ];
    for (name, text, kind) in rows {
        is_faulty(&rt, name, text, kind)?;
    }
    Ok(())
}

#[test]
fn tells_the_first_kind_of_a_condition(rt: HostRuntime) -> Result<(), Fail> {
    let rows = [
        (
            "an unknown column and no condition",
            "SELECT 1 FROM t WHERE ^nope",
            "UnknownColumn",
        ),
        (
            "an ambiguous column and no condition",
            "SELECT 1 FROM t AS x, t AS y WHERE ^a",
            "Ambiguous",
        ),
        (
            "no condition and a sum out of the range",
            "SELECT 1 FROM u WHERE l ^+ 1",
            "TypeMismatch",
        ),
        (
            "no condition and a number out of the range",
            "SELECT 1 FROM t WHERE ^9223372036854775808",
            "TypeMismatch",
        ),
        (
            "no condition and an aggregate in WHERE",
            "SELECT 1 FROM t WHERE ^SUM(a)",
            "TypeMismatch",
        ),
    ];
    for (name, text, kind) in rows {
        is_faulty(&rt, name, text, kind)?;
    }
    Ok(())
}

#[test]
fn tells_the_first_kind_of_a_ninth_item(rt: HostRuntime) -> Result<(), Fail> {
    let rows = [
        (
            "an unknown column",
            "SELECT 1 FROM t GROUP BY a, a, a, a, a, a, a, a, ^nope",
            "UnknownColumn",
        ),
        (
            "an ambiguous column",
            "SELECT 1 FROM t AS x, t AS y ORDER BY 1, 1, 1, 1, 1, 1, 1, 1, ^a",
            "Ambiguous",
        ),
        (
            "a condition",
            "SELECT 1 FROM t ORDER BY 1, 1, 1, 1, 1, 1, 1, 1, ^TRUE",
            "TypeMismatch",
        ),
        (
            "a sum in arithmetic",
            "SELECT 1 FROM t ORDER BY 1, 1, 1, 1, 1, 1, 1, 1, ^SUM(a) + 1",
            "ExprRange",
        ),
        (
            "no column",
            "SELECT 1 FROM t GROUP BY a, a, a, a, a, a, a, a, ^-a",
            "GroupRule",
        ),
        (
            "no item of DISTINCT",
            "SELECT DISTINCT a FROM t ORDER BY a, a, a, a, a, a, a, a, ^-a",
            "GroupRule",
        ),
    ];
    for (name, text, kind) in rows {
        is_faulty(&rt, name, text, kind)?;
    }
    Ok(())
}

#[test]
fn tells_other_kinds_before_the_limits(rt: HostRuntime) -> Result<(), Fail> {
    let start = "SELECT 1 FROM t WHERE a IN (1";
    let text = repeated(rt.alloc(), start, ", 1", 1023, ") AND 1")?;
    has_answer(
        &rt,
        "a number as a condition",
        text.as_str(),
        "TypeMismatch at 3104",
    )?;
    let text = repeated(rt.alloc(), start, ", 1", 1023, ", 99999999999999999999)")?;
    has_answer(
        &rt,
        "a number past 64 bits",
        text.as_str(),
        "ExprRange at 3100",
    )?;
    let text = repeated(rt.alloc(), "SELECT a", ", a", 63, ", nope FROM t")?;
    has_answer(
        &rt,
        "an unknown 65th item",
        text.as_str(),
        "UnknownColumn at 199",
    )
}
