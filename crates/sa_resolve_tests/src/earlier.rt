//! Two faults at two places: the earlier one is told, of whatever kinds they are.

use crate::checks::is_faulty;
use crate::fixtures::repeated;
use std::alloc::Global;
use std::process::Abort;
use std::test::Fail;

/// A fault of each kind that can stand behind tables: what stands before its place, what stands
/// there, and its kind.
const FAULTS: [(&str, &str, &str); 9] = [
    (", ", "x", "UnknownTable"),
    (" WHERE ", "nope = 1", "UnknownColumn"),
    (" WHERE ", "a = 1", "Ambiguous"),
    (", t ", "x1", "DuplicateAlias"),
    (" WHERE ", "1", "TypeMismatch"),
    (" WHERE 1 = ", "9223372036854775808", "ExprRange"),
    (" ", "HAVING 1 = 1", "GroupRule"),
    (
        ", t x3, t x4, t x5, t x6, t x7, t x8, ",
        "t x9",
        "TooManyTables",
    ),
    (" ORDER BY 1, 1, 1, 1, 1, 1, 1, 1, ", "1", "TooManyItems"),
];

/// The fault at the mark is told, whatever stands behind it.
fn comes_first<R: Abort + Alloc<A = Global>>(rt: &R, first: &str, kind: &str) -> Result<(), Fail> {
    for (before, behind, other) in FAULTS {
        let text = format!(in rt.alloc(); "{first}{before}{behind}")?;
        is_faulty(rt, other, text.as_str(), kind)?;
    }
    Ok(())
}

#[test]
fn tells_each_fault_alone(rt: HostRuntime) -> Result<(), Fail> {
    for (before, behind, kind) in FAULTS {
        let text = format!(in rt.alloc(); "SELECT 1 FROM t x1, u{before}^{behind}")?;
        is_faulty(&rt, kind, text.as_str(), kind)?;
    }
    Ok(())
}

#[test]
fn tells_the_earlier_of_two(rt: HostRuntime) -> Result<(), Fail> {
    let rows = [
        ("SELECT ^nope.* FROM t x1, u", "UnknownTable"),
        ("SELECT ^nope FROM t x1, u", "UnknownColumn"),
        ("SELECT ^a FROM t x1, u", "Ambiguous"),
        ("SELECT 1 FROM t x1, u, t ^x1", "DuplicateAlias"),
        ("SELECT ^TRUE FROM t x1, u", "TypeMismatch"),
        ("SELECT ^9223372036854775808 FROM t x1, u", "ExprRange"),
        ("SELECT ^b, COUNT(*) FROM t x1, u", "GroupRule"),
        (
            "SELECT 1 FROM t x1, u, t y3, t y4, t y5, t y6, t y7, t y8, ^t y9",
            "TooManyTables",
        ),
    ];
    for (first, kind) in rows {
        comes_first(&rt, first, kind)?;
    }
    Ok(())
}

#[test]
fn tells_the_65th_item_before_others(rt: HostRuntime) -> Result<(), Fail> {
    let first = repeated(rt.alloc(), "SELECT 1", ", 1", 63, ", ^1 FROM t x1, u")?;
    comes_first(&rt, first.as_str(), "TooManyItems")
}

#[test]
fn tells_the_1025th_constant_before_others(rt: HostRuntime) -> Result<(), Fail> {
    let start = "SELECT 1 FROM t x1 JOIN u ON b IN (1";
    let first = repeated(rt.alloc(), start, ", 1", 1023, ", ^1)")?;
    comes_first(&rt, first.as_str(), "TooManyConstants")
}
