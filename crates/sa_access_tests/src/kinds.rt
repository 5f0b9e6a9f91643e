//! Each access as the least once.

use crate::answers::each_is_chosen;
use std::test::Fail;

/// The pairs of 1 to 4.
const PAIRS: &str = "\
all rows | t a b | 1,1 1,2 1,3 1,4 2,1 2,2 2,3 2,4 3,1 3,2 3,3 3,4 4,1 4,2 4,3 4,4 \
| SELECT a FROM t WHERE (a = 1 AND b = 2) OR (a = 3 AND b = 4) | 0 | | ALL - - 100 16
all of the key | t a b / KEY a b | 1,1 1,2 1,3 1,4 2,1 2,2 2,3 2,4 3,1 3,2 3,3 3,4 4,1 4,2 4,3 4,4 \
| SELECT a FROM t | 0 | | index 0 - 84 16
two ranges | t a b / KEY a b | 1,1 1,2 1,3 1,4 2,1 2,2 2,3 2,4 3,1 3,2 3,3 3,4 4,1 4,2 4,3 4,4 \
| SELECT a FROM t WHERE (a = 1 AND b = 2) OR (a = 3 AND b = 4) | 0 | | range 0 2 52 2";

#[test]
fn ranges_cost_less_than_the_key_and_the_table(rt: HostRuntime) -> Result<(), Fail> {
    each_is_chosen(&rt, rt.alloc(), PAIRS)
}

/// A key that finds one row.
const SINGLE: &str = "\
all | u id! v / UNIQUE id | 1,10 2,20 | SELECT v FROM u | 0 | | ALL - - 30 2
const | u id! v / UNIQUE id | 1,10 2,20 | SELECT v FROM u WHERE id = 1 | 0 | | const 0 1 26 1
turned round | u id! v / UNIQUE id | 1,10 2,20 | SELECT v FROM u WHERE 1 = id | 0 | | const 0 1 26 1
a range | u id! v / UNIQUE id | 1,10 2,20 | SELECT v FROM u WHERE id < 2 | 0 | | range 0 1 26 1
two parts | t a! b! c / UNIQUE a b | 1,1,5 1,2,6 2,1,7 \
| SELECT c FROM t WHERE b = 2 AND a = 1 | 0 | | const 0 2 26 1
one row is read whole | u id! v / UNIQUE id | 1,10 | SELECT v FROM u WHERE id = 1 | 0 | | ALL - - 25 1";

#[test]
fn one_row_is_found(rt: HostRuntime) -> Result<(), Fail> {
    each_is_chosen(&rt, rt.alloc(), SINGLE)
}

/// Equalities of a key that isn't unique.
const SOUGHT: &str = "\
ref | t a b / KEY a | 1,1 1,2 2,1 2,2 3,1 3,2 | SELECT b FROM t WHERE a = 1 | 0 | | ref 0 1 32 2
a text | t s$ n / KEY s | 'a,1 'b,2 'c,3 | SELECT n FROM t WHERE s = 'b' | 0 | | ref 0 1 26 1
texts from one on | t s$ n / KEY s | 'a,1 'b,2 'c,3 | SELECT n FROM t WHERE s >= 'b' | 0 | | range 0 1 32 2
no part behind one without an equality | t a b c d / KEY a b c | 1,1,1,1 1,1,2,2 2,1,1,3 2,1,2,4 \
| SELECT d FROM t WHERE a = 1 AND c = 1 | 0 | | ref 0 1 32 2";

#[test]
fn equalities_seek_parts(rt: HostRuntime) -> Result<(), Fail> {
    each_is_chosen(&rt, rt.alloc(), SOUGHT)
}

/// Ten rows.
const RANGES: &str = "\
two values | t a b / KEY a | 1,1 2,2 3,3 4,4 5,5 6,6 7,7 8,8 9,9 10,0 \
| SELECT b FROM t WHERE a IN (1, 3) | 0 | | range 0 2 52 2
between | t a b / KEY a | 1,1 2,2 3,3 4,4 5,5 6,6 7,7 8,8 9,9 10,0 \
| SELECT b FROM t WHERE a BETWEEN 2 AND 4 | 0 | | range 0 1 38 3
all but one | t a b / KEY a | 1,1 2,2 3,3 4,4 5,5 6,6 7,7 8,8 9,9 10,0 \
| SELECT b FROM t WHERE a <> 5 | 0 | | ALL - - 70 10
nothing | t a b / KEY a | 1,1 2,2 3,3 4,4 5,5 6,6 7,7 8,8 9,9 10,0 \
| SELECT b FROM t WHERE a > 2 AND a < 1 | 0 | | range 0 0 0 0";

#[test]
fn ranges_are_counted(rt: HostRuntime) -> Result<(), Fail> {
    each_is_chosen(&rt, rt.alloc(), RANGES)
}
