//! IN and NOT IN.

use crate::truths::each_is;

const MEMBERS: &str = "\
a member | a IN (1, 2) | TRUE
none | a IN (1, 3) | FALSE
a member behind NULL | a IN (NULL, 2) | TRUE
a member before NULL | a IN (2, NULL) | TRUE
none, and NULL | a IN (1, NULL) | UNKNOWN
none, and a column that is NULL | a IN (c, 1) | UNKNOWN
NULL alone | a IN (NULL) | UNKNOWN
NULL in a list | c IN (1, 2) | UNKNOWN
NULL in a list with NULL | c IN (1, NULL) | UNKNOWN
columns | a IN (b, a) | TRUE
arithmetic | a IN (b - 1) | TRUE
texts | t IN ('fig', 'pear') | TRUE
no text | u IN ('fig', 'pear') | UNKNOWN
a sum | SUM(a) IN (1, n) | FALSE";

#[test]
fn members_are_told(rt: HostRuntime) {
    each_is(&rt, rt.alloc(), MEMBERS);
}

const STRANGERS: &str = "\
none | a NOT IN (1, 3) | TRUE
a member | a NOT IN (1, 2) | FALSE
none, and NULL | a NOT IN (1, NULL) | UNKNOWN
a member before NULL | a NOT IN (2, NULL) | FALSE
NULL | c NOT IN (1, 2) | UNKNOWN
texts | t NOT IN ('fig', NULL) | UNKNOWN
NOT before it | NOT a IN (1, 3) | TRUE";

#[test]
fn strangers_are_told(rt: HostRuntime) {
    each_is(&rt, rt.alloc(), STRANGERS);
}
