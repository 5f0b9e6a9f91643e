//! Indexes that hold all that is named, and such that don't.

use crate::answers::each_is_chosen;
use std::test::Fail;

/// Three rows, of which the key holds two columns.
const HELD: &str = "\
the first part | t a b c / KEY a b | 1,1,1 2,2,2 3,3,3 | SELECT a FROM t | 0 | | index 0 - 32 3
both | t a b c / KEY a b | 1,1,1 2,2,2 3,3,3 | SELECT a + b FROM t | 0 | | index 0 - 32 3
no column | t a b c / KEY a b | 1,1,1 2,2,2 3,3,3 | SELECT 1 FROM t | 0 | | index 0 - 32 3
in WHERE | t a b c / KEY a b | 1,1,1 2,2,2 3,3,3 | SELECT a FROM t WHERE b = 1 | 0 | | index 0 - 32 3
in ORDER BY | t a b c / KEY a b | 1,1,1 2,2,2 3,3,3 | SELECT a FROM t ORDER BY b DESC | 0 | | index 0 - 32 3
of another table | t a b c / KEY a b; s x | 1,1,1 2,2,2 3,3,3; 1 | SELECT a, x FROM t, s | 0 | | index 0 - 32 3";

#[test]
fn the_key_holds_what_is_named(rt: HostRuntime) -> Result<(), Fail> {
    each_is_chosen(&rt, rt.alloc(), HELD)
}

/// The same, with a column that it doesn't hold.
const MISSED: &str = "\
selected | t a b c / KEY a b | 1,1,1 2,2,2 3,3,3 | SELECT c FROM t | 0 | | ALL - - 35 3
in a sum | t a b c / KEY a b | 1,1,1 2,2,2 3,3,3 | SELECT a + c FROM t | 0 | | ALL - - 35 3
in WHERE | t a b c / KEY a b | 1,1,1 2,2,2 3,3,3 | SELECT a FROM t WHERE c = 1 | 0 | | ALL - - 35 3
in ORDER BY | t a b c / KEY a b | 1,1,1 2,2,2 3,3,3 | SELECT a FROM t ORDER BY c | 0 | | ALL - - 35 3
in ORDER BY, falling | t a b c / KEY a b | 1,1,1 2,2,2 3,3,3 | SELECT a FROM t ORDER BY a, c DESC | 0 | | ALL - - 35 3
the other key holds it | t a b c / KEY a b, KEY c a | 1,1,1 2,2,2 3,3,3 | SELECT c FROM t | 0 | | index 1 - 32 3";

#[test]
fn the_key_misses_a_column(rt: HostRuntime) -> Result<(), Fail> {
    each_is_chosen(&rt, rt.alloc(), MISSED)
}
