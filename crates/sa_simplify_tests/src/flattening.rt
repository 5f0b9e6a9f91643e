//! The sixth step: ANDs within ANDs and ORs within ORs give their members away.

use crate::simplified::{each_becomes, each_stays};

const NESTED: &str = "\
AND | a < 1 AND (b < 2 AND (c < 3 AND n < 4)) | a < 1 AND b < 2 AND c < 3 AND n < 4
AND between others | a < 1 AND (b < 2 AND c < 3) AND n < 4 | a < 1 AND b < 2 AND c < 3 AND n < 4
OR | (a < 1 OR b < 2) OR (c < 3 OR n < 4) | a < 1 OR b < 2 OR c < 3 OR n < 4
AND out of an OR | a < 1 AND (FALSE OR (b < 2 AND c < 3)) | a < 1 AND b < 2 AND c < 3
OR out of an AND | a < 1 OR (TRUE AND (b < 2 OR c < 3)) | a < 1 OR b < 2 OR c < 3
BETWEEN | a BETWEEN 1 AND 2 AND b < 3 | a >= 1 AND a <= 2 AND b < 3
IN | a IN (1, 2) OR b < 3 | a = 1 OR a = 2 OR b < 3";

const KEPT: &str = "\
OR in AND | a < 1 AND (b < 2 OR c < 3)
AND in OR | (a < 1 AND b < 2) OR c < 3
UNKNOWN in AND | a < 1 AND NULL
UNKNOWN in OR | NULL OR a < 1
one member again | a < 1 AND a < 1";

#[test]
fn nested_members_are_given_away(rt: HostRuntime) {
    each_becomes(&rt, rt.alloc(), NESTED);
    each_stays(&rt, rt.alloc(), KEPT);
}

const DROPPED: &str = "\
TRUE in AND | a < 1 AND TRUE AND b < 2 | a < 1 AND b < 2
FALSE in OR | FALSE OR a < 1 OR b < 2 | a < 1 OR b < 2
FALSE in AND | a < 1 AND (b < 2 AND FALSE) | FALSE
TRUE in OR | a < 1 OR (b < 2 OR TRUE) | TRUE
no member of AND | TRUE AND (TRUE AND 1 = 1) | TRUE
no member of OR | FALSE OR 1 = 2 | FALSE
one member of AND | TRUE AND a < 1 | a < 1
one member of OR | a < 1 OR FALSE | a < 1
one OR | TRUE AND (a < 1 OR b < 2) | a < 1 OR b < 2
UNKNOWN and FALSE | NULL AND FALSE | FALSE
UNKNOWN or TRUE | NULL OR TRUE | TRUE
UNKNOWN alone | NULL AND TRUE | NULL
two UNKNOWNs | NULL AND NULL | NULL AND NULL";

#[test]
fn known_members_are_dropped(rt: HostRuntime) {
    each_becomes(&rt, rt.alloc(), DROPPED);
}
