//! Keys of two and more parts, and of none.

use crate::left::each_leaves;

const POINTS: &str = "\
two points | a, b | (a = 1 AND b = 2) OR (a = 3 AND b = 4) | 2: [1, 2..1, 2]; [3, 4..3, 4]
the parts exchanged | b, a | (a = 1 AND b = 2) OR (a = 3 AND b = 4) | 2: [2, 1..2, 1]; [4, 3..4, 3]
each with each | a, b | a IN (2, 1) AND b IN (4, 3) \
| 2: [1, 3..1, 3]; [1, 4..1, 4]; [2, 3..2, 3]; [2, 4..2, 4]
one first part | a, b | a = 1 AND b IN (2, 3) | 2: [1, 2..1, 2]; [1, 3..1, 3]
one second part | a, b | a IN (1, 2) AND b = 3 | 2: [1, 3..1, 3]; [2, 3..2, 3]
an equality is handed on | a, b | a = b AND a = 3 | 2: [3, 3..3, 3]
both are NULL | a, b | a IS NULL AND b IS NULL | 2: [..NULL, NULL]
the first is NULL | a, b | a IS NULL AND b = 2 | 2: [NULL, 2..NULL, 2]
the second is NULL | a, b | a = 1 AND b IS NULL | 2: [1..1, NULL]";

const ONE_OF_TWO: &str = "\
the first part alone | a, b | a = 1 | 2: [1..1]
an end of the first part alone | a, b | a > 1 | 2: (1..]
the second part alone | a, b | b = 1 | 2: [NULL, 1..NULL, 1]; (NULL..]
neither | a, b | n = 1 | 2: [..]
the two of them | a, b | a = b | 2: [..]
either | a, b | a = 1 OR b = 2 | 2: [NULL, 2..NULL, 2]; (NULL..]
FALSE | a, b | FALSE | 2: none
TRUE | a, b | TRUE | 2: [..]";

const BEHIND_A_POINT: &str = "\
greater | a, b | a = 1 AND b > 2 | 2: (1, 2..1]
greater or equal | a, b | a = 1 AND b >= 2 | 2: [1, 2..1]
less | a, b | a = 1 AND b < 2 | 2: (1, NULL..1, 2)
less or equal | a, b | a = 1 AND b <= 2 | 2: (1, NULL..1, 2]
unequal | a, b | a = 1 AND b <> 2 | 2: (1, NULL..1, 2); (1, 2..1]
not NULL | a, b | a = 1 AND b IS NOT NULL | 2: (1, NULL..1]
NULL or less | a, b | a = 1 AND (b IS NULL OR b < 2) | 2: [1..1, 2)
nothing | a, b | a = 1 AND b < 2 AND b > 3 | 2: none
two points, one end each | a, b | (a = 1 AND b > 2) OR (a = 2 AND b < 3) \
| 2: (1, 2..1]; (2, NULL..2, 3)";

/// A gap of the first part, behind which the second part has no say.
const BEHIND_A_GAP: &str = "\
greater | a, b | a > 1 AND b = 2 | 2: (1..]
greater or equal | a, b | a >= 1 AND b = 2 | 2: [1, 2..1, 2]; (1..]
they touch | a, b | a >= 1 AND b >= 2 | 2: [1, 2..]
less or equal | a, b | a <= 1 AND b < 2 | 2: (NULL..1); (1, NULL..1, 2)
they touch at NULL | a, b | a <= 1 AND (b IS NULL OR b < 2) | 2: (NULL..1, 2)
a point with the second part | a, b | (a = 1 AND b = 2) OR a > 3 | 2: [1, 2..1, 2]; (3..]
a point in a gap | a, b | a > 1 AND (a <> 3 OR b = 2) | 2: (1..3); [3, 2..3, 2]; (3..]
a point that another atom cuts out | a, b | b = 2 AND (a <= 5 OR a > 5) \
| 2: (NULL..5); [5, 2..5, 2]; (5..]
NULL and what is behind | a, b | b = 2 AND (a IS NULL OR a > 3) | 2: [NULL, 2..NULL, 2]; (3..]";

#[test]
fn two_parts_leave_ranges(rt: HostRuntime) {
    each_leaves(&rt, rt.alloc(), POINTS);
    each_leaves(&rt, rt.alloc(), ONE_OF_TWO);
    each_leaves(&rt, rt.alloc(), BEHIND_A_POINT);
    each_leaves(&rt, rt.alloc(), BEHIND_A_GAP);
}

const MORE: &str = "\
three points | a, b, n | a = 1 AND b = 2 AND n = 3 | 3: [1, 2, 3..1, 2, 3]
in another order | n, b, a | a = 1 AND b = 2 AND n = 3 | 3: [3, 2, 1..3, 2, 1]
the end of the third | a, b, n | a = 1 AND b = 2 AND n > 3 | 3: (1, 2, 3..1, 2]
the end of the second | a, b, n | a = 1 AND b > 2 AND n = 3 | 3: (1, 2..1]
the end of the first | a, b, n | a > 1 AND b = 2 AND n = 3 | 3: (1..]
the third is NULL | a, b, n | a = 1 AND b = 2 AND n IS NULL | 3: [1, 2..1, 2, NULL]
all three are NULL | a, b, n | a IS NULL AND b IS NULL AND n IS NULL | 3: [..NULL, NULL, NULL]
without the second | a, b, n | a = 1 AND n = 3 | 3: [1, NULL, 3..1, NULL, 3]; (1, NULL..1]
without the third | a, b, n | a = 1 AND b = 2 | 3: [1, 2..1, 2]
they touch twice | a, b, n | a >= 1 AND b >= 2 AND n >= 3 | 3: [1, 2, 3..]
four, the last of no condition | a, b, n, d | a = 1 AND b = 2 AND n = 3 | 4: [1, 2, 3..1, 2, 3]
four, the third of none | a, b, d, n | a = 1 AND b = 2 AND n = 3 \
| 4: [1, 2, NULL, 3..1, 2, NULL, 3]; (1, 2, NULL..1, 2]
four, the first of no condition | d, a, b, n | a = 1 AND b = 2 AND n = 3 \
| 4: [NULL, 1, 2, 3..NULL, 1, 2, 3]; (NULL..]
no part | none | a = 1 | 0: [..]
no part and FALSE | none | FALSE | 0: [..]";

#[test]
fn more_parts_leave_ranges(rt: HostRuntime) {
    each_leaves(&rt, rt.alloc(), MORE);
}
