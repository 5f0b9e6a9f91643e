//! Keys of texts.

use crate::left::each_leaves;

const TEXTS: &str = "\
equal | t | t = 'pear' | 1: ['pear..'pear]
unequal | t | t <> 'pear' | 1: (NULL..'pear); ('pear..]
less, or another | t | t < 'b' OR t = 'c' | 1: (NULL..'b); ['c..'c]
a list | t | t IN ('b', 'a', 'ab') | 1: ['a..'a]; ['ab..'ab]; ['b..'b]
between | t | t BETWEEN 'a' AND 'b' | 1: ['a..'b]
from the empty text on | t | t >= '' | 1: ['..]
before the empty text | t | t < '' | 1: (NULL..')
upper case comes first | t | t IN ('a', 'B', 'b', 'A') | 1: ['A..'A]; ['B..'B]; ['a..'a]; ['b..'b]
NULL | t | t IS NULL | 1: [..NULL]
another text | u | t = 'a' AND u = 'b' | 1: ['b..'b]";

const WITH_OTHERS: &str = "\
two texts | t, u | t = 'a' AND u > 'b' | 2: ('a, 'b..'a]
an equality is handed on | t, u | t = u AND u = 'x' | 2: ['x, 'x..'x, 'x]
a number and a text | c, t | c = 1 AND t > 'a' | 2: (1, 'a..1]
a text and a number | t, c | c = 1 AND t <= 'a' | 2: (NULL..'a); ['a, 1..'a, 1]
three | c, t, u | c = 1 AND t = 'a' AND u < 'b' | 3: (1, 'a, NULL..1, 'a, 'b)";

#[test]
fn texts_leave_ranges(rt: HostRuntime) {
    each_leaves(&rt, rt.alloc(), TEXTS);
    each_leaves(&rt, rt.alloc(), WITH_OTHERS);
}
