//! IS NULL, IS NOT NULL and `<=>` with NULL.

use crate::truths::each_is;

const NULLS: &str = "\
a number | a IS NULL | FALSE
NULL | c IS NULL | TRUE
the literal | NULL IS NULL | TRUE
a text | t IS NULL | FALSE
an empty text | '' IS NULL | FALSE
no text | u IS NULL | TRUE
a sum | SUM(a) IS NULL | FALSE
arithmetic | a + b IS NULL | FALSE
arithmetic with NULL | a + c IS NULL | TRUE
null-safe | a <=> NULL | FALSE
null-safe, NULL | c <=> NULL | TRUE
null-safe, no text | NULL <=> u | TRUE";

#[test]
fn nulls_are_told(rt: HostRuntime) {
    each_is(&rt, rt.alloc(), NULLS);
}

const VALUES: &str = "\
a literal | 1 IS NOT NULL | TRUE
a number | a IS NOT NULL | TRUE
NULL | c IS NOT NULL | FALSE
the literal | NULL IS NOT NULL | FALSE
a sum | SUM(a) IS NOT NULL | TRUE
a text | t IS NOT NULL | TRUE
no text | u IS NOT NULL | FALSE
arithmetic with NULL | c * 0 IS NOT NULL | FALSE";

#[test]
fn values_are_told(rt: HostRuntime) {
    each_is(&rt, rt.alloc(), VALUES);
}
