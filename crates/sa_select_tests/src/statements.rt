//! Whole SELECTs: which columns and rows they give.

use crate::giving::each_gives;
use std::test::Fail;

const COLUMNS: &str = r#"SELECT id FROM n | SELECT id FROM n | "id" | 1; 2; 3; 4; 5; 6; 7
SELECT ALL id FROM n WHERE id = 5 | SELECT id FROM n WHERE (id = 5) | "id" | 5
SELECT i, b FROM n WHERE id = 1 | SELECT i, b FROM n WHERE (id = 1) | "i","b" | null,null
SELECT i, b FROM n WHERE id = 2 | SELECT i, b FROM n WHERE (id = 2) | "i","b" | -2147483648,-9223372036854775808
SELECT i, b FROM n WHERE id = 3 | SELECT i, b FROM n WHERE (id = 3) | "i","b" | 2147483647,9223372036854775807
SELECT * FROM n WHERE id = 7 | SELECT * FROM n WHERE (id = 7) | "id","i","b","s" | 7,-1,1,"A"
SELECT n.* FROM n WHERE id = 7 | SELECT n.* FROM n WHERE (id = 7) | "id","i","b","s" | 7,-1,1,"A"
SELECT n.*, id FROM n WHERE id = 7 | SELECT n.*, id FROM n WHERE (id = 7) | "id","i","b","s","id" | 7,-1,1,"A",7
SELECT x.id FROM n AS x WHERE x.i = 0 | SELECT x.id FROM n AS x WHERE (x.i = 0) | "id" | 4
SELECT id, id FROM n WHERE id = 5 | SELECT id, id FROM n WHERE (id = 5) | "id","id" | 5,5
SELECT i AS id, id AS i FROM n WHERE id = 5 | SELECT i AS id, id AS i FROM n WHERE (id = 5) | "id","i" | 7,5
SELECT `id` FROM `n` WHERE `id` = 5 | SELECT id FROM n WHERE (id = 5) | "id" | 5
select id x from n where id=5 | SELECT id AS x FROM n WHERE (id = 5) | "x" | 5"#;

#[test]
fn columns_are_given(rt: HostRuntime) -> Result<(), Fail> {
    each_gives(&rt, rt.alloc(), COLUMNS)
}

const VALUES: &str =
    r#"SELECT i + 1 FROM n WHERE id = 5 | SELECT (i + 1) FROM n WHERE (id = 5) | "(i + 1)" | 8
SELECT i - 1, i * 2, -i FROM n WHERE id = 5 | SELECT (i - 1), (i * 2), (-i) FROM n WHERE (id = 5) | "(i - 1)","(i * 2)","(-i)" | 6,14,-7
SELECT i + 1 AS next FROM n WHERE id = 7 | SELECT (i + 1) AS next FROM n WHERE (id = 7) | "next" | 0
SELECT i * i FROM n WHERE id = 2 | SELECT (i * i) FROM n WHERE (id = 2) | "(i * i)" | 4611686018427387904
SELECT i + NULL FROM n WHERE id = 5 | SELECT (i + NULL) FROM n WHERE (id = 5) | "(i + NULL)" | null
SELECT i + 1 FROM n WHERE id = 1 | SELECT (i + 1) FROM n WHERE (id = 1) | "(i + 1)" | null
SELECT 1, 'a', NULL FROM n WHERE id = 5 | SELECT 1, 'a', NULL FROM n WHERE (id = 5) | "1","'a'","NULL" | 1,"a",null
SELECT -9223372036854775808 FROM n WHERE id = 5 | SELECT -9223372036854775808 FROM n WHERE (id = 5) | "-9223372036854775808" | -9223372036854775808
SELECT 9223372036854775807 FROM n WHERE id = 5 | SELECT 9223372036854775807 FROM n WHERE (id = 5) | "9223372036854775807" | 9223372036854775807"#;

#[test]
fn values_are_given(rt: HostRuntime) -> Result<(), Fail> {
    each_gives(&rt, rt.alloc(), VALUES)
}
