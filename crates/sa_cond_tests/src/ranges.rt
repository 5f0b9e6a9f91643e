//! BETWEEN and NOT BETWEEN.

use crate::truths::each_is;

const BETWEEN: &str = "\
inside | a BETWEEN 1 AND 3 | TRUE
both ends | a BETWEEN 2 AND 2 | TRUE
the lower end | a BETWEEN 2 AND 3 | TRUE
the upper end | a BETWEEN 1 AND 2 | TRUE
below | a BETWEEN 3 AND 4 | FALSE
above | a BETWEEN 0 AND 1 | FALSE
ends exchanged | a BETWEEN 3 AND 1 | FALSE
no lower end | a BETWEEN NULL AND 3 | UNKNOWN
no lower end, above | a BETWEEN NULL AND 1 | FALSE
no upper end | a BETWEEN 1 AND NULL | UNKNOWN
no upper end, below | a BETWEEN 3 AND NULL | FALSE
no ends | a BETWEEN NULL AND NULL | UNKNOWN
NULL | c BETWEEN 1 AND 3 | UNKNOWN
columns | a BETWEEN a AND b | TRUE
texts | t BETWEEN 'a' AND 'z' | TRUE
no text | u BETWEEN 'a' AND 'z' | UNKNOWN";

#[test]
fn what_is_between_is_told(rt: HostRuntime) {
    each_is(&rt, rt.alloc(), BETWEEN);
}

const OUTSIDE: &str = "\
inside | a NOT BETWEEN 1 AND 3 | FALSE
outside | a NOT BETWEEN 3 AND 4 | TRUE
no lower end | a NOT BETWEEN NULL AND 3 | UNKNOWN
no lower end, above | a NOT BETWEEN NULL AND 1 | TRUE
no upper end | a NOT BETWEEN 1 AND NULL | UNKNOWN
no upper end, below | a NOT BETWEEN 3 AND NULL | TRUE
no ends | a NOT BETWEEN NULL AND NULL | UNKNOWN
NULL | c NOT BETWEEN 1 AND 3 | UNKNOWN";

#[test]
fn what_is_outside_is_told(rt: HostRuntime) {
    each_is(&rt, rt.alloc(), OUTSIDE);
}
