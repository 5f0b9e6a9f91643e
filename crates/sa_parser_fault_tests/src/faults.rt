//! The first fault of a statement, at its place.

use crate::checks::{is_faulty_setup, is_read};
use sa_parser_fixtures::marked;
use std::alloc::Global;
use std::process::Abort;
use std::test::Fail;

/// The fault of this kind stands at the mark of the text, which is a session's statement.
fn is_faulty<R: Abort + Alloc<A = Global>>(
    rt: &R,
    name: &str,
    text: &str,
    kind: &str,
) -> Result<(), Fail> {
    let (text, place) = marked(rt.alloc(), text)?;
    let wanted = format!(in rt.alloc(); "{kind} at {place}")?;
    is_read(rt, name, text.as_str(), wanted.as_str())
}

#[test]
fn names_words_of_other_statements(rt: HostRuntime) -> Result<(), Fail> {
    let rows = [
        ("ALTER", "^ALTER TABLE t"),
        ("BEGIN", "^BEGIN"),
        ("COMMIT", "^COMMIT"),
        ("CREATE", "^CREATE TABLE t (a INT)"),
        ("DELETE", "^DELETE FROM t"),
        ("DROP", "^DROP TABLE t"),
        ("INSERT", "^INSERT INTO t VALUES (1)"),
        ("UPDATE", "^UPDATE t SET a = 1"),
        ("WITH", "^WITH x AS (SELECT a FROM t) SELECT a FROM x"),
        ("KILL HARD", "KILL ^HARD 1"),
        ("KILL SOFT", "KILL ^SOFT 1"),
        ("KILL USER", "KILL ^USER 'x'"),
        ("KILL QUERY ID", "KILL QUERY ^ID 5"),
        (
            "another format",
            "EXPLAIN FORMAT = ^TRADITIONAL SELECT a FROM t",
        ),
    ];
    for (name, text) in rows {
        is_faulty(&rt, name, text, "NotSupported")?;
    }
    Ok(())
}

#[test]
fn names_words_of_other_queries(rt: HostRuntime) -> Result<(), Fail> {
    let rows = [
        ("EXCEPT", "SELECT a FROM t ^EXCEPT SELECT b FROM u"),
        ("INTERSECT", "SELECT a FROM t ^INTERSECT SELECT b FROM u"),
        ("UNION", "SELECT a FROM t ^UNION SELECT b FROM u"),
        ("FOR UPDATE", "SELECT a FROM t ^FOR UPDATE"),
        ("LOCK", "SELECT a FROM t WHERE a ^LOCK IN SHARE MODE"),
        ("INTO", "SELECT a ^INTO x FROM t"),
        ("WINDOW", "SELECT a FROM t ^WINDOW w AS (ORDER BY a)"),
        ("FULL JOIN", "SELECT a FROM t ^FULL JOIN u"),
        ("LEFT JOIN", "SELECT a FROM t ^LEFT JOIN u ON 1"),
        ("RIGHT JOIN", "SELECT a FROM t ^RIGHT JOIN u ON 1"),
        ("NATURAL JOIN", "SELECT a FROM t ^NATURAL JOIN u"),
        ("STRAIGHT_JOIN", "SELECT a FROM t ^STRAIGHT_JOIN u"),
        ("USING", "SELECT a FROM t JOIN u ^USING (a)"),
        ("COLLATE", "SELECT a FROM t ORDER BY a ^COLLATE x"),
    ];
    for (name, text) in rows {
        is_faulty(&rt, name, text, "NotSupported")?;
    }
    Ok(())
}

#[test]
fn names_words_of_other_expressions(rt: HostRuntime) -> Result<(), Fail> {
    let rows = [
        ("CASE", "SELECT ^CASE a WHEN 1 THEN 2 END FROM t"),
        ("DIV", "SELECT a ^DIV 2 FROM t"),
        ("MOD", "SELECT a ^MOD 2 FROM t"),
        ("EXISTS", "SELECT a FROM t WHERE ^EXISTS (SELECT b FROM u)"),
        (
            "a query in brackets",
            "SELECT a FROM t WHERE a IN (^SELECT b FROM u)",
        ),
        ("LIKE", "SELECT a FROM t WHERE a ^LIKE 'x'"),
        ("NOT LIKE", "SELECT a FROM t WHERE a NOT ^LIKE 'x'"),
        ("REGEXP", "SELECT a FROM t WHERE a ^REGEXP 'x'"),
        ("RLIKE", "SELECT a FROM t WHERE a ^RLIKE 'x'"),
        ("XOR", "SELECT a FROM t WHERE a ^XOR b"),
        ("OVER", "SELECT SUM(a) ^OVER (ORDER BY a) FROM t"),
        ("two bars", "SELECT a ^|| b FROM t"),
        ("a slash", "SELECT a ^/ 2 FROM t"),
        ("a percent sign", "SELECT a ^% 2 FROM t"),
    ];
    for (name, text) in rows {
        is_faulty(&rt, name, text, "NotSupported")?;
    }
    Ok(())
}

#[test]
fn names_what_else_is_not_supported(rt: HostRuntime) -> Result<(), Fail> {
    let rows = [
        ("a function", "SELECT f^(a) FROM t"),
        ("a function in backquotes", "SELECT `f`^(a) FROM t"),
        ("a function behind a table", "SELECT t.count^(a) FROM t"),
        ("a function of FROM", "SELECT a FROM f^(1)"),
        ("a bracket behind an alias", "SELECT a FROM t u^(b)"),
        ("a function of WHERE", "SELECT a FROM t WHERE f^(a)"),
        ("another switch", "SET optimizer_trace = ^'on'"),
        (
            "a switch in other letters",
            "SET optimizer_trace = ^'Enabled=on'",
        ),
    ];
    for (name, text) in rows {
        is_faulty(&rt, name, text, "NotSupported")?;
    }
    Ok(())
}

#[test]
fn names_faults_of_queries(rt: HostRuntime) -> Result<(), Fail> {
    let rows = [
        ("a second comparison", "SELECT a FROM t WHERE a = 1 ^= 2"),
        ("NOT before a name", "SELECT a FROM t WHERE a NOT ^b"),
        ("IS before a number", "SELECT a FROM t WHERE a IS ^1"),
        ("DISTINCT in COUNT", "SELECT COUNT(^DISTINCT a) FROM t"),
        ("a star in SUM", "SELECT SUM(^*) FROM t"),
        ("two aliases", "SELECT a b ^c FROM t"),
        ("two commas", "SELECT a, ^, b FROM t"),
        ("no select list", "SELECT ^FROM t"),
        ("no table", "SELECT a FROM ^WHERE a"),
        ("GROUP without BY", "SELECT a FROM t GROUP ^a"),
        ("a second offset", "SELECT a FROM t LIMIT 1, 2 ^OFFSET 3"),
        (
            "a limit of 2 to the 64th",
            "SELECT a FROM t LIMIT ^18446744073709551616",
        ),
        ("a negative limit", "SELECT a FROM t LIMIT ^-1"),
        ("ON without JOIN", "SELECT a FROM t ^ON 1"),
    ];
    for (name, text) in rows {
        is_faulty(&rt, name, text, "Syntax")?;
    }
    Ok(())
}

#[test]
fn names_faults_of_statements(rt: HostRuntime) -> Result<(), Fail> {
    let rows = [
        ("nothing", "^"),
        ("a bracket first", "^(SELECT a FROM t)"),
        ("an unknown word", "^foo"),
        ("a bracket in place of a number", "KILL QUERY ^(1)"),
        ("a minus in place of a number", "KILL ^-1"),
        ("CONNECTION in SHOW", "SHOW EXPLAIN FOR ^CONNECTION 1"),
        ("SHOW TABLES", "SHOW ^TABLES"),
        (
            "another table of the schema",
            "SELECT * FROM information_schema.^x",
        ),
        (
            "EXPLAIN of the trace",
            "EXPLAIN SELECT * FROM information_schema^.optimizer_trace",
        ),
        ("a dot behind a number", "SELECT 1^.5 FROM t"),
        ("too many steps to wait for", "WAIT FOR 1 AT ^1099511627777"),
        ("no step", "SET max_row_steps = ^0"),
        ("too many steps", "SET max_row_steps = ^1099511627777"),
        ("another setting", "SET ^autocommit = 1"),
        (
            "a number in place of the switch",
            "SET optimizer_trace = ^1",
        ),
        ("two numbers", "KILL 1 ^2"),
    ];
    for (name, text) in rows {
        is_faulty(&rt, name, text, "Syntax")?;
    }
    Ok(())
}

#[test]
fn names_the_end_where_tokens_are_missing(rt: HostRuntime) -> Result<(), Fail> {
    let rows = [
        ("no select list", "SELECT^"),
        ("no FROM", "SELECT a^"),
        ("no table, before a comment", "SELECT a FROM^  # a comment"),
        ("an open bracket", "SELECT a FROM t WHERE (a = 1^"),
        ("no operand", "SELECT a FROM t WHERE a =^"),
        ("no number", "KILL^"),
        ("no switch", "SET optimizer_trace =^"),
    ];
    for (name, text) in rows {
        is_faulty(&rt, name, text, "Syntax")?;
    }
    Ok(())
}

#[test]
fn names_faults_of_set_up(rt: HostRuntime) -> Result<(), Fail> {
    let rows = [
        ("AUTO_INCREMENT", "CREATE TABLE t (a INT ^AUTO_INCREMENT)"),
        ("UNSIGNED", "CREATE TABLE t (a INT ^UNSIGNED)"),
        (
            "CHARACTER SET",
            "CREATE TABLE t (a VARCHAR(9) ^CHARACTER SET utf8)",
        ),
        ("CHARSET", "CREATE TABLE t (a INT) ^CHARSET = utf8"),
        (
            "DEFAULT CHARSET",
            "CREATE TABLE t (a INT) ^DEFAULT CHARSET = utf8",
        ),
        ("COMMENT", "CREATE TABLE t (a INT ^COMMENT 'x')"),
        ("CONSTRAINT", "CREATE TABLE t (a INT ^CONSTRAINT c)"),
        ("FOREIGN in a column", "CREATE TABLE t (a INT ^FOREIGN KEY)"),
        ("another kind", "CREATE TABLE t (a ^TEXT)"),
        (
            "a column named FOREIGN of kind KEY",
            "CREATE TABLE t (FOREIGN ^KEY (a))",
        ),
        ("a bracket in place of a kind", "CREATE TABLE t (a ^(1))"),
        ("a query", "^SELECT a FROM t"),
        ("rows of a query", "INSERT INTO t ^SELECT a FROM u"),
    ];
    for (name, text) in rows {
        is_faulty_setup(&rt, name, text, "NotSupported")?;
    }
    Ok(())
}

#[test]
fn names_syntax_faults_of_set_up(rt: HostRuntime) -> Result<(), Fail> {
    let rows = [
        (
            "a text of 16384 characters",
            "CREATE TABLE t (a VARCHAR(^16384))",
        ),
        ("a text without a size", "CREATE TABLE t (a VARCHAR^)"),
        ("another default", "CREATE TABLE t (a INT DEFAULT ^1)"),
        ("no part", "CREATE TABLE t (^)"),
        ("a comma before nothing", "CREATE TABLE t (a INT,^)"),
        ("a part behind the bracket", "CREATE TABLE t (a INT)^, b"),
        ("CREATE DATABASE", "CREATE ^DATABASE d"),
        ("a row without brackets", "INSERT INTO t VALUES ^1"),
        ("no value", "INSERT INTO t VALUES (^)"),
        ("a minus of a text", "INSERT INTO t VALUES (- ^'a')"),
        ("a sum", "INSERT INTO t VALUES (1 ^+ 2)"),
        (
            "a comma behind the last row",
            "INSERT INTO t (a) VALUES (1),^",
        ),
    ];
    for (name, text) in rows {
        is_faulty_setup(&rt, name, text, "Syntax")?;
    }
    Ok(())
}
