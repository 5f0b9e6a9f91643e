//! What is wrong with a SELECT is told before what isn't built.

use crate::refusing::each_is_refused;
use std::test::Fail;

const ALONE: &str = "\
SELECT ^ID FROM n | UnknownColumn
SELECT 1 FROM ^N | UnknownTable
SELECT ^id FROM N | UnknownColumn
SELECT ^x.id FROM n | UnknownColumn
SELECT ^n.id FROM n AS x | UnknownColumn
SELECT id FROM n WHERE s ^= 1 | TypeMismatch
SELECT id FROM n WHERE ^i | TypeMismatch
SELECT b ^+ 1 FROM n | ExprRange
SELECT ^-b FROM n | ExprRange
SELECT id AS x FROM n WHERE ^x = 1 | UnknownColumn";

#[test]
fn a_fault_is_told(rt: HostRuntime) -> Result<(), Fail> {
    each_is_refused(&rt, rt.alloc(), ALONE)
}

const BEFORE_UNBUILT: &str = "\
SELECT DISTINCT ^z FROM n | UnknownColumn
EXPLAIN SELECT ^z FROM n | UnknownColumn
ANALYZE SELECT 1 FROM ^m | UnknownTable
ANALYZE SELECT ^id FROM m | UnknownColumn
SELECT COUNT(*), ^id FROM n | GroupRule
SELECT id FROM n ORDER BY ^z | UnknownColumn
SELECT 1 FROM n GROUP BY ^z | UnknownColumn
SELECT ^z FROM n LIMIT 1 | UnknownColumn
SELECT n.id FROM n, ^n | DuplicateAlias
SELECT ^id FROM n, n | Ambiguous
SELECT ^id FROM n AS x, n AS y | Ambiguous
SELECT id FROM n ^HAVING id > 0 | GroupRule
SELECT ^SUM(s) FROM n | TypeMismatch
SELECT DISTINCT id FROM n ORDER BY ^i | GroupRule";

#[test]
fn a_fault_is_told_first(rt: HostRuntime) -> Result<(), Fail> {
    each_is_refused(&rt, rt.alloc(), BEFORE_UNBUILT)
}
