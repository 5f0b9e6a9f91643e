//! Conditions and values, numbers and texts, and static intervals.

use crate::checks::{is_faulty, is_right};
use std::test::Fail;

#[test]
fn takes_conditions_and_values(rt: HostRuntime) -> Result<(), Fail> {
    let rows = [
        ("a comparison", "SELECT 1 FROM t WHERE a = 1"),
        ("NULL as a condition", "SELECT 1 FROM t WHERE NULL"),
        ("NULL in AND", "SELECT 1 FROM t WHERE a = 1 AND NULL"),
        ("NOT NULL", "SELECT 1 FROM t WHERE NOT NULL"),
        ("TRUE", "SELECT 1 FROM t WHERE TRUE"),
        ("NULL as a value", "SELECT NULL FROM t"),
        (
            "IS NULL",
            "SELECT 1 FROM t WHERE a IS NULL AND NULL IS NULL",
        ),
    ];
    for (name, text) in rows {
        is_right(&rt, name, text)?;
    }
    Ok(())
}

#[test]
fn takes_values_beside_null_and_texts(rt: HostRuntime) -> Result<(), Fail> {
    let rows = [
        ("a number beside NULL", "SELECT 1 FROM t WHERE a = NULL"),
        ("a text beside NULL", "SELECT 1 FROM u WHERE s = NULL"),
        ("a list with NULL", "SELECT 1 FROM t WHERE a IN (1, NULL)"),
        (
            "BETWEEN with NULL",
            "SELECT 1 FROM t WHERE a BETWEEN NULL AND 2",
        ),
        (
            "texts",
            "SELECT 1 FROM u WHERE s = 'x' AND s BETWEEN 'a' AND 'b'",
        ),
        (
            "aggregates of texts",
            "SELECT MIN(s), MAX(s), COUNT(s) FROM u",
        ),
        (
            "a count of texts beside a number",
            "SELECT 1 FROM u HAVING COUNT(s) = 1",
        ),
        ("a sum beside a number", "SELECT 1 FROM u HAVING SUM(a) > 1"),
        (
            "arithmetic with NULL",
            "SELECT a + NULL, -NULL, MIN(NULL) + 1 FROM t GROUP BY a",
        ),
    ];
    for (name, text) in rows {
        is_right(&rt, name, text)?;
    }
    Ok(())
}

#[test]
fn tells_values_and_conditions_that_are_exchanged(rt: HostRuntime) -> Result<(), Fail> {
    let rows = [
        ("a column in WHERE", "SELECT 1 FROM t WHERE ^a"),
        ("a number in WHERE", "SELECT 1 FROM t WHERE ^1"),
        ("a text in ON", "SELECT 1 FROM t JOIN v ON ^'x'"),
        ("a column in AND", "SELECT 1 FROM t WHERE a = 1 AND ^a"),
        ("a column in OR", "SELECT 1 FROM t WHERE ^a OR a = 1"),
        ("a column behind NOT", "SELECT 1 FROM t WHERE NOT ^a"),
        ("arithmetic in WHERE", "SELECT 1 FROM t WHERE a ^+ 1"),
        ("a number in HAVING", "SELECT COUNT(*) FROM t HAVING ^1"),
        (
            "an alias in HAVING",
            "SELECT COUNT(*) AS x FROM t HAVING ^x",
        ),
    ];
    for (name, text) in rows {
        is_faulty(&rt, name, text, "TypeMismatch")?;
    }
    Ok(())
}

#[test]
fn tells_conditions_that_stand_for_values(rt: HostRuntime) -> Result<(), Fail> {
    let rows = [
        ("a condition as an item", "SELECT a ^= 1 FROM t"),
        ("TRUE as an item", "SELECT ^TRUE FROM t"),
        ("a condition in a sum", "SELECT (a ^= 1) + 1 FROM t"),
        ("a condition in a comparison", "SELECT (a ^= 1) = 1 FROM t"),
        ("a condition in an aggregate", "SELECT SUM((a ^= 1)) FROM t"),
        (
            "a condition before IS NULL",
            "SELECT 1 FROM t WHERE (a ^= 1) IS NULL",
        ),
        (
            "a condition in a list",
            "SELECT 1 FROM t WHERE a IN (1, (a ^= 1))",
        ),
        ("a condition in ORDER BY", "SELECT 1 FROM t ORDER BY a ^= 1"),
        (
            "a condition before a list",
            "SELECT 1 FROM t WHERE (a ^= 1) IN (1)",
        ),
        (
            "a condition as an end of BETWEEN",
            "SELECT 1 FROM t WHERE a BETWEEN 1 AND (a ^= 1)",
        ),
        ("minus a condition", "SELECT -(a ^= 1) FROM t"),
    ];
    for (name, text) in rows {
        is_faulty(&rt, name, text, "TypeMismatch")?;
    }
    Ok(())
}

#[test]
fn tells_texts_where_numbers_stand(rt: HostRuntime) -> Result<(), Fail> {
    let rows = [
        ("a text and a number", "SELECT 1 FROM u WHERE s ^= 1"),
        ("a number and a text", "SELECT 1 FROM t WHERE a ^= 'x'"),
        (
            "the end of BETWEEN",
            "SELECT 1 FROM t WHERE a ^BETWEEN 1 AND 'x'",
        ),
        (
            "the beginning of BETWEEN",
            "SELECT 1 FROM t WHERE a ^BETWEEN 'x' AND 1",
        ),
        ("a member of a list", "SELECT 1 FROM t WHERE a ^IN (1, 'x')"),
        (
            "the value before a list",
            "SELECT 1 FROM u WHERE s ^IN ('x', 1)",
        ),
        (
            "a member of a list that is denied",
            "SELECT 1 FROM t WHERE a ^NOT IN (1, 'x')",
        ),
        (
            "the end of a BETWEEN that is denied",
            "SELECT 1 FROM t WHERE a ^NOT BETWEEN 1 AND 'x'",
        ),
        ("a sum of texts", "SELECT ^SUM(s) FROM u"),
        ("minus", "SELECT ^-s FROM u"),
        ("the left of a sum", "SELECT s ^+ 1 FROM u"),
        ("the right of a difference", "SELECT 1 ^- s FROM u"),
        ("a product", "SELECT s ^* s FROM u"),
        ("the greatest text", "SELECT 1 FROM u HAVING MAX(s) ^= 1"),
        ("a count", "SELECT 1 FROM u HAVING COUNT(s) ^= 'x'"),
        ("a sum and a text", "SELECT 1 FROM u HAVING SUM(a) ^= 'x'"),
        ("an alias of a text", "SELECT s AS x FROM u ORDER BY x ^+ 1"),
    ];
    for (name, text) in rows {
        is_faulty(&rt, name, text, "TypeMismatch")?;
    }
    Ok(())
}

#[test]
fn takes_arithmetic_within_the_range(rt: HostRuntime) -> Result<(), Fail> {
    let rows = [
        ("a product of two", "SELECT 1 FROM u WHERE a * b < 0"),
        ("the greatest literal", "SELECT 9223372036854775807 FROM t"),
        ("the least literal", "SELECT -9223372036854775808 FROM t"),
        ("a BIGINT times 1", "SELECT l * 1, l - 0, l + 0 FROM u"),
        ("the least product", "SELECT a * 4294967296 FROM t"),
        ("the greatest count", "SELECT COUNT(*) * 8388607 FROM t"),
        (
            "the least and greatest BIGINT",
            "SELECT MIN(l), MAX(l), SUM(l) FROM u",
        ),
        ("a sum of sums", "SELECT SUM(a + b) FROM u"),
        ("a BIGINT and NULL", "SELECT l + NULL, NULL - NULL FROM u"),
        ("a sum in ORDER BY", "SELECT 1 FROM u ORDER BY SUM(l)"),
    ];
    for (name, text) in rows {
        is_right(&rt, name, text)?;
    }
    Ok(())
}

#[test]
fn tells_arithmetic_that_leaves_the_range(rt: HostRuntime) -> Result<(), Fail> {
    let rows = [
        ("a product of three", "SELECT 1 FROM u WHERE a * b ^* c < 0"),
        ("as close as it can be", "SELECT a FROM u WHERE a*b^*c < 0"),
        ("a BIGINT and 1", "SELECT l ^+ 1 FROM u"),
        ("the innermost", "SELECT (l ^+ 1) + 1 FROM u"),
        ("minus a BIGINT", "SELECT ^-l FROM u"),
        ("zero minus a BIGINT", "SELECT 0 ^- l FROM u"),
        (
            "a literal past the greatest",
            "SELECT ^9223372036854775808 FROM t",
        ),
        (
            "a literal past the least",
            "SELECT ^-9223372036854775809 FROM t",
        ),
        (
            "a literal in a comparison",
            "SELECT 1 FROM t WHERE a = ^9223372036854775808",
        ),
        (
            "one past the least product",
            "SELECT a ^* 4294967297 FROM t",
        ),
        (
            "one past the greatest count",
            "SELECT COUNT(*) ^* 8388608 FROM t",
        ),
        ("the least BIGINT of a group", "SELECT MIN(l) ^+ 1 FROM u"),
        ("the greatest of a group", "SELECT 1 ^+ MAX(l) FROM u"),
        ("NULL minus a BIGINT", "SELECT NULL ^- l FROM u"),
    ];
    for (name, text) in rows {
        is_faulty(&rt, name, text, "ExprRange")?;
    }
    Ok(())
}

#[test]
fn tells_sums_in_arithmetic(rt: HostRuntime) -> Result<(), Fail> {
    let rows = [
        ("a sum and a number", "SELECT ^SUM(a) + 1 FROM t"),
        ("a number and a sum", "SELECT 1 * ^SUM(a) FROM t"),
        ("minus a sum", "SELECT -^SUM(a) FROM t"),
        ("two sums", "SELECT ^SUM(a) - SUM(a) FROM t"),
        ("the greatest sum", "SELECT MAX(^SUM(a)) + 1 FROM t"),
        (
            "an alias of a sum",
            "SELECT SUM(a) AS x FROM t ORDER BY ^x + 1",
        ),
    ];
    for (name, text) in rows {
        is_faulty(&rt, name, text, "ExprRange")?;
    }
    Ok(())
}
