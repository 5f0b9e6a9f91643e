//! The queries that statements stand for.

use crate::checks::has_answer;
use std::test::Fail;

#[test]
fn selects(rt: HostRuntime) -> Result<(), Fail> {
    let rows = [
        (
            "columns",
            "SELECT a, t.a FROM t",
            "from 0 t | filter and | select a=0.0 a=0.0",
        ),
        (
            "a star",
            "SELECT * FROM t, v AS x",
            "from 0 t 2 x | filter and | select a=0.0 d=1.0 e=1.1 s2=1.2",
        ),
        (
            "a star of a table",
            "SELECT x.*, t.a FROM t, v AS x",
            "from 0 t 2 x | filter and | select d=1.0 e=1.1 s2=1.2 a=0.0",
        ),
        (
            "names of items",
            "SELECT a+1, a x, 'y', -5, - a, NULL FROM t",
            "from 0 t | filter and | select (a + 1)=(0.0 + 1) x=0.0 'y'='y' -5=-5 (-a)=(-0.0) \
             NULL=NULL",
        ),
        (
            "limits",
            "SELECT DISTINCT a FROM t LIMIT 5 OFFSET 2",
            "from 0 t | filter and | distinct a=0.0 | limit 5 | offset 2",
        ),
    ];
    for (name, text, wanted) in rows {
        has_answer(&rt, name, text, wanted)?;
    }
    Ok(())
}

#[test]
fn filters(rt: HostRuntime) -> Result<(), Fail> {
    let rows = [
        (
            "ON before WHERE",
            "SELECT a FROM t JOIN v ON a = d AND e < 2 WHERE NOT a = 1",
            "from 0 t 2 v | filter and (and (0.0 Eq 1.0) (1.1 Lt 2)) (not (0.0 Eq 1)) \
             | select a=0.0",
        ),
        (
            "a name that is ambiguous later",
            "SELECT t.a FROM t JOIN u ON b = 1 JOIN u AS x ON x.b = 2",
            "from 0 t 1 u 1 x | filter and (1.1 Eq 1) (2.1 Eq 2) | select a=0.0",
        ),
        (
            "tests of NULL",
            "SELECT a FROM t WHERE a IS NULL OR a IS NOT NULL OR NULL",
            "from 0 t | filter and (or (0.0 null) (0.0 not null) (Unknown)) | select a=0.0",
        ),
        (
            "BETWEEN and its NOT",
            "SELECT a FROM t WHERE a BETWEEN 1 AND 2 AND a NOT BETWEEN 3 AND 4",
            "from 0 t | filter and (and (0.0 between 1 and 2) (not (0.0 between 3 and 4))) \
             | select a=0.0",
        ),
        (
            "IN and its NOT",
            "SELECT a FROM t WHERE a IN (1, 2) OR a NOT IN (3)",
            "from 0 t | filter and (or (0.0 in 1 2) (not (0.0 in 3))) | select a=0.0",
        ),
        (
            "truths",
            "SELECT a FROM t WHERE TRUE AND FALSE",
            "from 0 t | filter and (and (True) (False)) | select a=0.0",
        ),
    ];
    for (name, text, wanted) in rows {
        has_answer(&rt, name, text, wanted)?;
    }
    Ok(())
}

#[test]
fn groups(rt: HostRuntime) -> Result<(), Fail> {
    let rows = [
        (
            "slots in order of their mention",
            "SELECT a, SUM(b + 1), COUNT(*), SUM(u.b + 1) FROM u GROUP BY a \
             HAVING COUNT(*) > 1 AND a = 2 ORDER BY MAX(c) DESC, a",
            "from 1 u | filter and | select a=$0 SUM((b + 1))=$1 COUNT(*)=$2 SUM((u.b + 1))=$1 \
             | group 0.0 | aggregates Sum (0.1 + 1) CountRows Max 0.2 \
             | having and ($2 Gt 1) ($0 Eq 2) | order -$3 +$0",
        ),
        (
            "aggregates alone",
            "SELECT COUNT(a) AS n FROM t HAVING n > 1",
            "from 0 t | filter and | select n=$0 | aggregates Count 0.0 | having $0 Gt 1",
        ),
        (
            "an aggregate over an alias",
            "SELECT b AS x FROM u GROUP BY b HAVING SUM(x) > 1",
            "from 1 u | filter and | select x=$0 | group 0.1 | aggregates Sum 0.1 | having $1 Gt 1",
        ),
    ];
    for (name, text, wanted) in rows {
        has_answer(&rt, name, text, wanted)?;
    }
    Ok(())
}

#[test]
fn groups_by_names_and_positions(rt: HostRuntime) -> Result<(), Fail> {
    let rows = [
        (
            "by an alias",
            "SELECT b AS x FROM u GROUP BY x",
            "from 1 u | filter and | select x=$0 | group 0.1",
        ),
        (
            "by a position",
            "SELECT *, 7 FROM v GROUP BY 1, 3, 2",
            "from 2 v | filter and | select d=$0 e=$2 s2=$1 7=7 | group 0.0 0.2 0.1",
        ),
        (
            "by a column twice",
            "SELECT a FROM t GROUP BY a, a",
            "from 0 t | filter and | select a=$0 | group 0.0 0.0",
        ),
        (
            "an alias in HAVING that hides a column",
            "SELECT b AS c FROM u GROUP BY b, c HAVING c = 1 AND u.c = 2",
            "from 1 u | filter and | select c=$0 | group 0.1 0.2 \
             | having and ($0 Eq 1) ($1 Eq 2)",
        ),
        (
            "by a NULL that has a name",
            "SELECT NULL AS x FROM t GROUP BY a HAVING x",
            "from 0 t | filter and | select x=NULL | group 0.0 | having Unknown",
        ),
    ];
    for (name, text, wanted) in rows {
        has_answer(&rt, name, text, wanted)?;
    }
    Ok(())
}

#[test]
fn orders(rt: HostRuntime) -> Result<(), Fail> {
    let rows = [
        (
            "by an alias that hides a column",
            "SELECT b AS c FROM u ORDER BY c",
            "from 1 u | filter and | select c=0.1 | order +0.1",
        ),
        (
            "by a column that an alias hides",
            "SELECT b AS c FROM u ORDER BY u.c",
            "from 1 u | filter and | select c=0.1 | order +0.2",
        ),
        (
            "by positions",
            "SELECT a, b + 1 FROM u ORDER BY 2 DESC, 1",
            "from 1 u | filter and | select a=0.0 (b + 1)=(0.1 + 1) | order -(0.1 + 1) +0.0",
        ),
        (
            "by an alias within an expression",
            "SELECT a + 1 AS x FROM t ORDER BY -x",
            "from 0 t | filter and | select x=(0.0 + 1) | order +(-(0.0 + 1))",
        ),
    ];
    for (name, text, wanted) in rows {
        has_answer(&rt, name, text, wanted)?;
    }
    Ok(())
}
