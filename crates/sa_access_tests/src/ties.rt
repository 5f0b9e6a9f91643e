//! Accesses that cost the same, and tables without rows.

use crate::answers::each_is_chosen;
use std::test::Fail;

/// What decides where costs are equal.
const TIES: &str = "\
the estimate | t a b / KEY a | 1,1 2,2 3,3 4,4 5,5 6,6 7,7 8,8 9,9 10,0 NULL,1 NULL,2 \
| SELECT b FROM t WHERE a < 100 | 0 | | range 0 1 80 10
the estimate before the key | t a b / KEY a b, KEY b | 1,1 2,1 3,2 | SELECT a FROM t WHERE b = 1 | 0 | | ref 1 1 32 2
the key | t a b / KEY a, KEY a | 1,1 2,2 3,3 | SELECT b FROM t WHERE a = 2 | 0 | | ref 0 1 26 1
the key before the kind | t a! b / KEY b, UNIQUE a | 1,1 2,5 3,6 \
| SELECT a, b FROM t WHERE b < 2 AND a = 1 | 0 | | range 0 1 26 1
the other key | t a! b / UNIQUE a, KEY b | 1,1 2,5 3,6 \
| SELECT a, b FROM t WHERE b < 2 AND a = 1 | 0 | | const 0 1 26 1
const before range | t a! b / UNIQUE a | 1,1 2,5 3,6 | SELECT b FROM t WHERE a = 1 | 0 | | const 0 1 26 1
eq_ref before range | s x; t a! b / UNIQUE a | 1; 1,1 2,5 3,6 \
| SELECT b FROM s JOIN t ON t.a = s.x AND t.a < 2 | 1 | 0 | eq_ref 0 1 26 1
ref before range | t a b / KEY a | 1,1 2,5 3,6 | SELECT b FROM t WHERE a = 1 | 0 | | ref 0 1 26 1
keys that cover | t a b / KEY b a, KEY a b | 1,1 2,5 3,6 | SELECT a, b FROM t | 0 | | index 0 - 32 3";

#[test]
fn ties_are_decided(rt: HostRuntime) -> Result<(), Fail> {
    each_is_chosen(&rt, rt.alloc(), TIES)
}

/// No rows.
const EMPTY: &str = "\
no key | t a b | | SELECT b FROM t WHERE a = 1 | 0 | | ALL - - 20 0
ref before range and ALL | t a b / KEY a | | SELECT b FROM t WHERE a = 1 | 0 | | ref 0 1 20 0
ALL before the second key | t a b c / KEY c, KEY a | | SELECT b FROM t WHERE a = 1 | 0 | | ALL - - 20 0
const costs a row | t a! b / UNIQUE a | | SELECT b FROM t WHERE a = 1 | 0 | | range 0 1 20 0
range before index and ALL | t a / KEY a | | SELECT a FROM t WHERE a < 5 | 0 | | range 0 1 20 0
index before ALL | t a / KEY a | | SELECT a FROM t | 0 | | index 0 - 20 0";

#[test]
fn tables_may_be_empty(rt: HostRuntime) -> Result<(), Fail> {
    each_is_chosen(&rt, rt.alloc(), EMPTY)
}
