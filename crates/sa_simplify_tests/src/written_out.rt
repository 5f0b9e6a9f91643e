//! The first step: BETWEEN and IN are written out.

use crate::simplified::each_becomes;

const LINES: &str = "\
BETWEEN | a BETWEEN 1 AND 5 | a >= 1 AND a <= 5
columns | a BETWEEN b AND c | a >= b AND a <= c
BETWEEN texts | t BETWEEN 'fig' AND u | t >= 'fig' AND t <= u
IN | a IN (1, 2, b) | a = 1 OR a = 2 OR a = b
IN of one | a IN (1) | a = 1
IN of texts | t IN ('fig', u) | t = 'fig' OR t = u
NOT BETWEEN | a NOT BETWEEN 1 AND 5 | a < 1 OR a > 5
NOT IN | a NOT IN (1, 2, b) | a <> 1 AND a <> 2 AND a <> b
NOT IN of one | a NOT IN (1) | a <> 1";

#[test]
fn ranges_and_lists_are_written_out(rt: HostRuntime) {
    each_becomes(&rt, rt.alloc(), LINES);
}
