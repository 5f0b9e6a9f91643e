//! All steps together, on conditions of two columns.

use crate::simplified::{each_becomes, each_stays};

const HANDED_ON: &str = "\
turned round | a = b AND 3 = b | a = b AND b = 3 AND a = 3
written out | a = b AND b IN (3) | a = b AND b = 3 AND a = 3
pushed inward | NOT (a <> b OR b <> 3) | a = b AND b = 3 AND a = 3
computed | a = b AND b = 1 + 2 AND a = 4 - 1 | a = b AND b = 3 AND a = 3
flattened | (a = b AND (b = 3 AND a < 9)) AND TRUE | a = b AND b = 3 AND a < 9 AND a = 3";

const DECIDED: &str = "\
FALSE in AND | a = b AND b = 3 AND 1 = 2 | FALSE
TRUE in OR | a = b OR b = 3 OR 1 = 1 | TRUE
AND within OR | (a = 1 AND FALSE) OR b = 2 | b = 2
OR within AND | (a < 1 OR 2 < b) AND (1 < 2 OR a = b) | a < 1 OR b > 2
a list of columns | 5 IN (a, b, 5) | TRUE
product | a * (2 - 2) = b | a * 0 = b
difference | 2 + 3 >= a - b | a - b <= 5";

const RANGES: &str = "\
inside | a BETWEEN b AND 5 AND b = 2 | a >= b AND a <= 5 AND b = 2
outside | a NOT BETWEEN 2 AND 5 AND 3 = b AND a = b | (a < 2 OR a > 5) AND b = 3 AND a = b AND a = 3
one number | a IN (b) AND b BETWEEN 4 AND 4 | a = b AND b >= 4 AND b <= 4
NOT | NOT (a IN (1, 2) AND b NOT BETWEEN 3 AND 4) | (a <> 1 AND a <> 2) OR (b >= 3 AND b <= 4)";

const NULLS: &str = "\
arithmetic | a + NULL > b AND a = b | NULL AND a = b
equality | a = NULL OR b = 1 | NULL OR b = 1
NOT IN | a NOT IN (1, NULL) OR b < 0 | (a <> 1 AND NULL) OR b < 0
NOT | NOT (a = 1 OR NULL) AND b > 2 | a <> 1 AND NULL AND b > 2
null-safe | NOT (a IS NULL OR b <=> NULL) | a IS NOT NULL AND b IS NOT NULL
BETWEEN | b = a AND NOT (b BETWEEN NULL AND 3) | b = a AND (NULL OR b > 3)";

#[test]
fn conditions_are_simplified(rt: HostRuntime) {
    each_becomes(&rt, rt.alloc(), HANDED_ON);
    each_becomes(&rt, rt.alloc(), DECIDED);
    each_becomes(&rt, rt.alloc(), RANGES);
    each_becomes(&rt, rt.alloc(), NULLS);
    each_stays(&rt, rt.alloc(), "NOT null-safe | (NOT a <=> b) AND a = 1");
}
