//! What isn't built is refused at the least of its places.

use crate::refusing::each_is_refused;
use std::test::Fail;

const ALONE: &str = "\
^EXPLAIN SELECT id FROM n | NotSupported
^EXPLAIN FORMAT = JSON SELECT id FROM n | NotSupported
^ANALYZE SELECT id FROM n | NotSupported
^ANALYZE FORMAT = JSON SELECT id FROM n | NotSupported
/* a */ ^EXPLAIN SELECT id FROM n | NotSupported
^SET optimizer_trace = 'enabled=on' | NotSupported
^SET SESSION optimizer_trace = 'enabled=off' | NotSupported
^SELECT * FROM information_schema.optimizer_trace | NotSupported
SELECT x.id FROM n AS x, ^n AS y | NotSupported
SELECT x.id FROM n AS x JOIN ^n AS y ON x.id = y.id | NotSupported
SELECT x.id FROM n x CROSS JOIN ^n y | NotSupported
SELECT x.id FROM n x, ^n y, n z | NotSupported
SELECT ^DISTINCT id FROM n | NotSupported
SELECT id FROM n ^GROUP BY id | NotSupported
SELECT 1 FROM n ^HAVING COUNT(*) > 0 | NotSupported
SELECT id FROM n ^ORDER BY id | NotSupported
SELECT id FROM n ^ORDER BY 1 DESC | NotSupported
SELECT id FROM n ^LIMIT 1 | NotSupported
SELECT id FROM n ^LIMIT 0 | NotSupported
SELECT id FROM n ^LIMIT 2, 1 | NotSupported
SELECT id FROM n ^LIMIT 1 OFFSET 0 | NotSupported
SELECT id AS `LIMIT` FROM n ^LIMIT 1 | NotSupported
SELECT ^COUNT(*) FROM n | NotSupported
SELECT ^COUNT(id) FROM n | NotSupported
SELECT ^SUM(id) FROM n | NotSupported
SELECT 1 + ^MAX(id) FROM n | NotSupported
SELECT -^MIN(id) FROM n | NotSupported";

#[test]
fn each_place_is_told(rt: HostRuntime) -> Result<(), Fail> {
    each_is_refused(&rt, rt.alloc(), ALONE)
}

const BEFORE_ALL: &str = "\
^EXPLAIN SELECT x.id FROM n AS x, n AS y | NotSupported
^EXPLAIN SELECT DISTINCT id FROM n | NotSupported
^EXPLAIN SELECT id FROM n GROUP BY id | NotSupported
^EXPLAIN SELECT 1 FROM n HAVING COUNT(*) > 0 | NotSupported
^EXPLAIN SELECT id FROM n ORDER BY id | NotSupported
^EXPLAIN SELECT id FROM n LIMIT 1 | NotSupported
^EXPLAIN SELECT COUNT(*) FROM n | NotSupported
^ANALYZE SELECT x.id FROM n AS x, n AS y | NotSupported
^ANALYZE SELECT DISTINCT id FROM n | NotSupported
^ANALYZE SELECT id FROM n GROUP BY id | NotSupported
^ANALYZE SELECT 1 FROM n HAVING COUNT(*) > 0 | NotSupported
^ANALYZE SELECT id FROM n ORDER BY id | NotSupported
^ANALYZE SELECT id FROM n LIMIT 1 | NotSupported
^ANALYZE SELECT COUNT(*) FROM n | NotSupported
SELECT ^DISTINCT x.id FROM n AS x, n AS y | NotSupported
SELECT ^DISTINCT id FROM n GROUP BY id | NotSupported
SELECT ^DISTINCT 1 FROM n HAVING COUNT(*) > 0 | NotSupported
SELECT ^DISTINCT id FROM n ORDER BY id | NotSupported
SELECT ^DISTINCT id FROM n LIMIT 1 | NotSupported
SELECT ^DISTINCT COUNT(*) FROM n | NotSupported";

#[test]
fn what_stands_first_is_told(rt: HostRuntime) -> Result<(), Fail> {
    each_is_refused(&rt, rt.alloc(), BEFORE_ALL)
}

const TWO: &str = "\
SELECT ^COUNT(*) FROM n AS x, n AS y | NotSupported
SELECT 1 FROM n AS x, ^n AS y HAVING COUNT(*) > 0 | NotSupported
SELECT x.id FROM n AS x, ^n AS y GROUP BY x.id | NotSupported
SELECT x.id FROM n AS x, ^n AS y ORDER BY x.id | NotSupported
SELECT x.id FROM n AS x, ^n AS y LIMIT 1 | NotSupported
SELECT id, ^COUNT(*) FROM n GROUP BY id | NotSupported
SELECT id FROM n ^GROUP BY id HAVING id > 0 | NotSupported
SELECT id FROM n ^GROUP BY id HAVING MAX(i) > 0 | NotSupported
SELECT id FROM n ^GROUP BY id ORDER BY id | NotSupported
SELECT id FROM n ^GROUP BY id LIMIT 1 | NotSupported
SELECT ^MAX(id) FROM n HAVING COUNT(*) > 0 | NotSupported
SELECT 1 FROM n ^HAVING COUNT(*) > 0 ORDER BY 1 | NotSupported
SELECT 1 FROM n ^HAVING COUNT(*) > 0 LIMIT 1 | NotSupported
SELECT ^COUNT(*) FROM n ORDER BY 1 | NotSupported
SELECT 1 FROM n ^ORDER BY COUNT(*) | NotSupported
SELECT id FROM n ^ORDER BY id LIMIT 1 | NotSupported
SELECT ^COUNT(*) FROM n LIMIT 1 | NotSupported
SELECT ^COUNT(*), MAX(id) FROM n | NotSupported
SELECT ^MAX(x.id) FROM n AS x, n AS y GROUP BY x.i | NotSupported";

#[test]
fn of_two_the_least_is_told(rt: HostRuntime) -> Result<(), Fail> {
    each_is_refused(&rt, rt.alloc(), TWO)
}
