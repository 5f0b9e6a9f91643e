//! The fifth step: what literals decide is decided.

use crate::simplified::each_becomes;

const LITERALS: &str = "\
true | 1 < 2 | TRUE
false | 1 = 2 | FALSE
texts | 'fig' < 'pear' | TRUE
computed | 1 + 1 <> 2 | FALSE
a literal that is NULL | NULL IS NULL | TRUE
a number that isn't | 1 IS NULL | FALSE
a text that isn't | '' IS NOT NULL | TRUE
NOT TRUE | NOT TRUE | FALSE
NOT FALSE | NOT FALSE | TRUE
NOT UNKNOWN | NOT NULL | NULL
NOT of what is decided | NOT 1 <=> 2 | TRUE";

#[test]
fn literals_are_decided(rt: HostRuntime) {
    each_becomes(&rt, rt.alloc(), LITERALS);
}

const NULLS: &str = "\
literal and NULL | 1 = NULL | NULL
two NULLs | NULL = NULL | NULL
null-safe NULLs | NULL <=> NULL | TRUE
null-safe, one NULL | 1 <=> NULL | FALSE
NULL on the right | a >= NULL | NULL
NULL on the left | NULL <> a | NULL
under NOT | NOT a = NULL | NULL
in BETWEEN | a BETWEEN NULL AND 3 | NULL AND a <= 3
null-safe | a + b <=> NULL | a + b IS NULL
null-safe on the left | NULL <=> a | a IS NULL
not null-safe | NOT a <=> NULL | a IS NOT NULL
two NOTs | NOT NOT a <=> NULL | a IS NULL";

#[test]
fn comparisons_with_null_are_decided(rt: HostRuntime) {
    each_becomes(&rt, rt.alloc(), NULLS);
}
