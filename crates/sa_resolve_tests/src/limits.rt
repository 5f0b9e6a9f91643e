//! The limits, each with the most that it allows and one more.

use crate::checks::{has_answer, is_faulty, is_right};
use crate::fixtures::repeated;
use std::test::Fail;

#[test]
fn takes_8_tables(rt: HostRuntime) -> Result<(), Fail> {
    is_right(
        &rt,
        "8 tables",
        "SELECT x1.a FROM t x1, t x2, t x3, t x4, t x5, t x6, t x7, t x8",
    )?;
    is_faulty(
        &rt,
        "9 tables",
        "SELECT x1.a FROM t x1, t x2, t x3, t x4, t x5, t x6, t x7, t x8, ^t x9",
        "TooManyTables",
    )?;
    has_answer(
        &rt,
        "9 tables, by a number",
        "SELECT x1.a FROM t x1, t x2, t x3, t x4, t x5, t x6, t x7, t x8, t x9",
        "TooManyTables at 65",
    )?;
    is_faulty(
        &rt,
        "10 tables",
        "SELECT x1.a FROM t x1, t x2, t x3, t x4, t x5, t x6, t x7, t x8, ^t x9, t x10",
        "TooManyTables",
    )
}

#[test]
fn takes_64_items(rt: HostRuntime) -> Result<(), Fail> {
    let text = repeated(rt.alloc(), "SELECT a", ", a", 63, " FROM t")?;
    is_right(&rt, "64 items", text.as_str())?;
    let text = repeated(rt.alloc(), "SELECT a", ", a", 64, " FROM t")?;
    has_answer(&rt, "65 items", text.as_str(), "TooManyItems at 199")?;
    let rows = [
        (
            "a star and one more",
            "SELECT *, ^1 FROM w x1, w x2, w x3, w x4",
        ),
        (
            "a star behind one",
            "SELECT 1, ^* FROM w x1, w x2, w x3, w x4",
        ),
        (
            "a star and another",
            "SELECT *, ^x1.*, x2.* FROM w x1, w x2, w x3, w x4",
        ),
        (
            "a star alone",
            "SELECT ^* FROM w x1, w x2, w x3, w x4, w x5",
        ),
    ];
    for (name, text) in rows {
        is_faulty(&rt, name, text, "TooManyItems")?;
    }
    is_right(&rt, "a star of 64", "SELECT * FROM w x1, w x2, w x3, w x4")
}

#[test]
fn takes_8_items_of_group_by_and_order_by(rt: HostRuntime) -> Result<(), Fail> {
    let rows = [
        (
            "GROUP BY",
            "SELECT 1 FROM w GROUP BY w1, w2, w3, w4, w5, w6, w7, w8",
        ),
        (
            "ORDER BY",
            "SELECT 1 FROM w ORDER BY w1, w2, w3, w4, w5, w6, w7, w8",
        ),
    ];
    for (name, text) in rows {
        is_right(&rt, name, text)?;
    }
    let rows = [
        (
            "9 of GROUP BY",
            "SELECT 1 FROM w GROUP BY w1, w2, w3, w4, w5, w6, w7, w8, ^w9",
        ),
        (
            "9 of ORDER BY",
            "SELECT 1 FROM w ORDER BY w1, w2, w3, w4, w5, w6, w7, w8, ^w9 DESC",
        ),
        (
            "10 of ORDER BY",
            "SELECT 1 FROM w ORDER BY w1, w2, w3, w4, w5, w6, w7, w8, ^(w9), w10",
        ),
    ];
    for (name, text) in rows {
        is_faulty(&rt, name, text, "TooManyItems")?;
    }
    Ok(())
}

#[test]
fn takes_1024_constants(rt: HostRuntime) -> Result<(), Fail> {
    let start = "SELECT 1 FROM t WHERE a IN (1";
    let text = repeated(rt.alloc(), start, ", 1", 1023, ")")?;
    is_right(&rt, "1,024 numbers", text.as_str())?;
    let text = repeated(rt.alloc(), start, ", 1", 1023, ") AND TRUE AND a = d")?;
    has_answer(&rt, "no constants", text.as_str(), "UnknownColumn at 3117")?;
    Ok(())
}

#[test]
fn tells_the_1025th_constant(rt: HostRuntime) -> Result<(), Fail> {
    let start = "SELECT 1 FROM t WHERE a IN (1";
    let text = repeated(rt.alloc(), start, ", 1", 1024, ")")?;
    has_answer(
        &rt,
        "1,025 numbers",
        text.as_str(),
        "TooManyConstants at 3100",
    )?;
    let text = repeated(
        rt.alloc(),
        "SELECT 1 FROM t WHERE a IN (NULL",
        ", NULL",
        1024,
        ")",
    )?;
    has_answer(
        &rt,
        "1,025 NULLs",
        text.as_str(),
        "TooManyConstants at 6172",
    )?;
    let text = repeated(
        rt.alloc(),
        "SELECT 1 FROM u WHERE s IN ('x'",
        ", 'x'",
        1024,
        ")",
    )?;
    has_answer(
        &rt,
        "1,025 texts",
        text.as_str(),
        "TooManyConstants at 5148",
    )?;
    Ok(())
}

#[test]
fn counts_the_constants_of_on_and_where(rt: HostRuntime) -> Result<(), Fail> {
    let on = repeated(
        rt.alloc(),
        "SELECT 1 FROM t JOIN v ON a IN (1",
        ", 1",
        999,
        ") WHERE d IN (2",
    )?;
    let text = repeated(rt.alloc(), on.as_str(), ", 2", 23, ")")?;
    is_right(&rt, "1,024 in both", text.as_str())?;
    let text = repeated(rt.alloc(), on.as_str(), ", 2", 24, ")")?;
    has_answer(
        &rt,
        "1,025 in both",
        text.as_str(),
        "TooManyConstants at 3116",
    )?;
    let start = "SELECT COUNT(*) FROM t HAVING COUNT(*) IN (1";
    let text = repeated(rt.alloc(), start, ", 1", 1024, ")")?;
    is_right(&rt, "1,025 in HAVING", text.as_str())
}
