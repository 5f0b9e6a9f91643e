//! The third step: arithmetic over literals is computed, and arithmetic with NULL is NULL.

use crate::simplified::{each_becomes, each_stays};

const LITERALS: &str = "\
sum | a < 1 + 2 | a < 3
difference | a < 1 - 2 | a < -1
product | a < 3 * -2 | a < -6
nested | a < (1 - 4) * (2 + 3) | a < -15
a minus | a < -(2 + 3) | a < -5
beside a column | a + (1 - 4) < b | a + -3 < b
under NOT null-safe | NOT a <=> 1 + 2 | NOT a <=> 3
IS NULL | a + (1 + 2) IS NULL | a + 3 IS NULL
in BETWEEN | a BETWEEN 1 + 1 AND 2 * 2 | a >= 2 AND a <= 4";

const KEPT: &str = "\
not over a column | 1 + a + 2 < b
no rule of 0 | a * 0 = b
no rule of 1 | a * 1 = b + 0";

#[test]
fn literals_are_computed(rt: HostRuntime) {
    each_becomes(&rt, rt.alloc(), LITERALS);
    each_stays(&rt, rt.alloc(), KEPT);
}

const NULLS: &str = "\
plus on the right | a + NULL IS NULL | TRUE
plus on the left | NULL + a IS NULL | TRUE
difference on the right | a - NULL IS NULL | TRUE
difference on the left | NULL - a IS NULL | TRUE
product on the right | a * NULL IS NULL | TRUE
product on the left | NULL * a IS NULL | TRUE
a minus | -(NULL) IS NOT NULL | FALSE
a literal and NULL | 1 + NULL IS NULL | TRUE
deep inside | (a - (b + NULL)) * 2 < 3 | NULL
in a list | a IN (1 + 1, b - NULL) | a = 2 OR NULL";

#[test]
fn arithmetic_with_null_is_null(rt: HostRuntime) {
    each_becomes(&rt, rt.alloc(), NULLS);
}
