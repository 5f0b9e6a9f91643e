//! The second step: NOT goes inward.

use crate::simplified::{each_becomes, each_stays};

const DENIED: &str = "\
equal | NOT a = b | a <> b
unequal | NOT a <> b | a = b
less | NOT a < b | a >= b
at most | NOT a <= b | a > b
greater | NOT a > b | a <= b
at least | NOT a >= b | a < b
IS NULL | NOT a IS NULL | a IS NOT NULL
IS NOT NULL | NOT a IS NOT NULL | a IS NULL
AND | NOT (a = 1 AND b < a) | a <> 1 OR b >= a
OR | NOT (a <> 1 OR b > a) | a = 1 AND b <= a
two NOTs | NOT NOT a < b | a < b
three NOTs | NOT NOT NOT a < b | a >= b
two over null-safe | NOT NOT a <=> b | a <=> b";

const DEEP: &str = "\
through OR | NOT (a = 1 OR NOT (b = 2 AND c <=> a)) | a <> 1 AND b = 2 AND c <=> a
through AND | NOT (a = 1 AND (b = 2 OR c <=> a)) | a <> 1 OR (b <> 2 AND NOT c <=> a)
members alone | a = 1 AND NOT (b = 2 OR c = 3) | a = 1 AND b <> 2 AND c <> 3";

const KEPT: &str = "\
null-safe | NOT a <=> b
null-safe in AND | (NOT a <=> b) AND a < 1";

#[test]
fn not_goes_inward(rt: HostRuntime) {
    each_becomes(&rt, rt.alloc(), DENIED);
    each_becomes(&rt, rt.alloc(), DEEP);
    each_stays(&rt, rt.alloc(), KEPT);
}
