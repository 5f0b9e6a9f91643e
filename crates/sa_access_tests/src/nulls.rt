//! NULL among the values of a key.

use crate::answers::each_is_chosen;
use std::test::Fail;

/// NULL is a value like any other for an estimate.
const ESTIMATES: &str = "\
three values | s x; t a b / KEY a | 1; NULL,1 NULL,2 1,3 2,4 \
| SELECT b FROM s JOIN t ON t.a = s.x | 1 | 0 | ref 0 1 32 2
NULL alone | s x; t a b / KEY a | 1; NULL,1 NULL,2 NULL,3 \
| SELECT b FROM s JOIN t ON t.a = s.x | 1 | 0 | ALL - - 35 3
rounded up | s x; t a b / KEY a | 1; 1,1 1,2 1,3 2,4 2,5 \
| SELECT b FROM s JOIN t ON t.a = s.x | 1 | 0 | ref 0 1 38 3
IS NULL | t a b / KEY a | NULL,1 1,2 2,3 | SELECT b FROM t WHERE a IS NULL | 0 | | range 0 1 26 1
a number isn't NULL | t a b / KEY a | NULL,1 NULL,2 1,3 | SELECT b FROM t WHERE a < 5 | 0 | | range 0 1 26 1
equal to NULL | t a b / KEY a | NULL,1 1,2 2,3 | SELECT b FROM t WHERE a = NULL | 0 | | ALL - - 35 3";

#[test]
fn null_is_counted(rt: HostRuntime) -> Result<(), Fail> {
    each_is_chosen(&rt, rt.alloc(), ESTIMATES)
}

/// A unique key may have NULL in several rows.
const UNIQUE: &str = "\
a column that may be NULL | t a b / UNIQUE a | 1,1 2,2 3,3 | SELECT b FROM t WHERE a = 2 | 0 | | ref 0 1 26 1
NOT NULL | t a! b / UNIQUE a | 1,1 2,2 3,3 | SELECT b FROM t WHERE a = 2 | 0 | | const 0 1 26 1
primary | t a b / PRIMARY a | 1,1 2,2 3,3 | SELECT b FROM t WHERE a = 2 | 0 | | const 0 1 26 1
the second column | t a! b c / UNIQUE a b | 1,1,1 1,2,2 2,1,3 \
| SELECT c FROM t WHERE a = 1 AND b = 1 | 0 | | ref 0 2 26 1
NOT NULL and not unique | t a! b / KEY a | 1,1 2,2 3,3 | SELECT b FROM t WHERE a = 2 | 0 | | ref 0 1 26 1
after a table | s x; t a b / UNIQUE a | 1; 1,1 2,2 3,3 \
| SELECT b FROM s JOIN t ON t.a = s.x | 1 | 0 | ref 0 1 26 1
after a table, NOT NULL | s x; t a! b / UNIQUE a | 1; 1,1 2,2 3,3 \
| SELECT b FROM s JOIN t ON t.a = s.x | 1 | 0 | eq_ref 0 1 26 1";

#[test]
fn unique_keys_may_have_null(rt: HostRuntime) -> Result<(), Fail> {
    each_is_chosen(&rt, rt.alloc(), UNIQUE)
}
