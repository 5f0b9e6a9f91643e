//! The fourth step: a literal stands on the right.

use crate::simplified::{each_becomes, each_stays};

const OPERATORS: &str = "\
= | 1 = a | a = 1
<=> | 1 <=> a | a <=> 1
<> | 1 <> a | a <> 1
< | 1 < a | a > 1
<= | 1 <= a | a >= 1
> | 1 > a | a < 1
>= | 1 >= a | a <= 1";

const COMPARISONS: &str = "\
an expression | 1 < a + b | a + b > 1
a text | 'fig' >= t | t <= 'fig'
under NOT | NOT 1 < a | a <= 1
under NOT null-safe | NOT 1 <=> a | NOT a <=> 1
computed | 2 * 3 > a | a < 6
a sum | 1 < SUM(a) | SUM(a) > 1";

const KEPT: &str = "\
no literal | b < a
on the right already | a < 1";

#[test]
fn literals_go_to_the_right(rt: HostRuntime) {
    each_becomes(&rt, rt.alloc(), OPERATORS);
    each_becomes(&rt, rt.alloc(), COMPARISONS);
    each_stays(&rt, rt.alloc(), KEPT);
}
