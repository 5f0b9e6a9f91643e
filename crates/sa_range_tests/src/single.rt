//! Keys of one number.

use crate::left::{each_leaves, leaves_of};
use crate::line::cell;
use sa_sample::condition;
use std::alloc::Global;
use std::process::Abort;

const COMPARISONS: &str = "\
equal | a | a = 5 | 1: [5..5]
equal or both NULL | a | a <=> 5 | 1: [5..5]
unequal | a | a <> 5 | 1: (NULL..5); (5..]
less | a | a < 5 | 1: (NULL..5)
less or equal | a | a <= 5 | 1: (NULL..5]
greater | a | a > 5 | 1: (5..]
greater or equal | a | a >= 5 | 1: [5..]
negative | a | a < -5 | 1: (NULL..-5)
the literal on the left | a | 5 < a | 1: (5..]
a list | a | a IN (3, 1, 2) | 1: [1..1]; [2..2]; [3..3]
a list with one number twice | a | a IN (2, 1, 2) | 1: [1..1]; [2..2]
not in a list | a | a NOT IN (1, 3) | 1: (NULL..1); (1..3); (3..]
between | a | a BETWEEN 2 AND 5 | 1: [2..5]
between exchanged ends | a | a BETWEEN 5 AND 2 | 1: none
not between | a | a NOT BETWEEN 2 AND 5 | 1: (NULL..2); (5..]";

const NULLS: &str = "\
IS NULL | a | a IS NULL | 1: [..NULL]
IS NOT NULL | a | a IS NOT NULL | 1: (NULL..]
both are NULL | a | a <=> NULL | 1: [..NULL]
denied | a | NOT a <=> NULL | 1: (NULL..]
equal to NULL is UNKNOWN | a | a = NULL | 1: [..]
NULL in a list | a | a IN (1, NULL) | 1: [..]
NULL in a list that is denied | a | a NOT IN (1, NULL) | 1: (NULL..1); (1..]
NULL or a number | a | a IS NULL OR a = 3 | 1: [..NULL]; [3..3]
NULL or what is less | a | a IS NULL OR a < 3 | 1: [..3)
NULL or not | a | a IS NULL OR a IS NOT NULL | 1: [..]
NULL and a number | a | a IS NULL AND a = 3 | 1: none
NULL and not | a | a IS NULL AND a IS NOT NULL | 1: none
not NULL and less | a | a IS NOT NULL AND a <= 3 | 1: (NULL..3]";

#[test]
fn comparisons_leave_ranges(rt: HostRuntime) {
    each_leaves(&rt, rt.alloc(), COMPARISONS);
    each_leaves(&rt, rt.alloc(), NULLS);
}

const JOINED: &str = "\
nothing in common | a | a < 1 AND a > 2 | 1: none
between neighbours | a | a > 1 AND a < 2 | 1: (1..2)
one of two sides | a | a <= 1 OR a > 2 | 1: (NULL..1]; (2..]
they touch | a | a < 3 OR a = 3 OR a > 3 | 1: (NULL..]
a point is missing | a | a < 3 OR a > 3 | 1: (NULL..3); (3..]
they overlap | a | (a > 1 AND a < 5) OR (a >= 3 AND a <= 7) | 1: (1..7]
one in the other | a | a > 1 AND (a = 0 OR a = 2 OR a = 3) | 1: [2..2]; [3..3]
NOT over OR | a | NOT (a = 1 OR a > 3) | 1: (NULL..1); (1..3]
NOT over AND | a | NOT (a > 1 AND a < 3) | 1: (NULL..1]; [3..]
less than the least of two | a | a < 5 AND a < 3 | 1: (NULL..3)
all but two | a | a <> 1 AND a <> 3 | 1: (NULL..1); (1..3); (3..]
unequal to one of two | a | a <> 1 OR a <> 3 | 1: (NULL..]";

/// Conditions in which something else counts as TRUE.
const OTHERS: &str = "\
NOT over <=> | a | NOT a <=> 5 | 1: [..]
NOT over <=> and an atom | a | NOT a <=> 5 AND a >= 3 | 1: [3..]
NOT over <=> or an atom | a | NOT a <=> 5 OR a = 3 | 1: [..]
FALSE | a | FALSE | 1: none
two literals | a | 1 = 2 | 1: none
TRUE | a | TRUE | 1: [..]
UNKNOWN | a | NULL | 1: [..]
FALSE or an atom | a | FALSE OR a = 5 | 1: [5..5]
UNKNOWN and an atom | a | NULL AND a = 5 | 1: [5..5]
UNKNOWN or an atom | a | NULL OR a = 5 | 1: [..]
another column | a | b = 3 | 1: [..]
and another column | a | a = 1 AND b = 2 | 1: [1..1]
or another column | a | a = 1 OR b = 2 | 1: [..]
each with another column | a | (a = 1 AND b = 2) OR (a = 3 AND b = 4) | 1: [1..1]; [3..3]
NULL of another column | a | a = 1 AND b IS NULL | 1: [1..1]
another column in the middle | a | a > 1 AND (a < 5 OR b = 2) AND a < 9 | 1: (1..9)
two columns | a | a = b | 1: [..]
two columns and an atom | a | a < b AND a > 3 | 1: (3..]
an equality is handed on | a | a = b AND b = 3 | 1: [3..3]
arithmetic | a | a + 1 = 3 | 1: [..]
arithmetic and an atom | a | a + 1 = 3 AND a < 5 | 1: (NULL..5)
arithmetic of literals | a | a = 1 + 2 | 1: [3..3]
another table | a | a = 1 AND c = 2 | 1: [1..1]
the other table | c | a = 1 AND c = 2 | 1: [2..2]
or another table | c | a = 1 OR c = 2 | 1: [..]
the same number of another table | c | a = 1 | 1: [..]";

#[test]
fn joined_conditions_leave_ranges(rt: HostRuntime) {
    each_leaves(&rt, rt.alloc(), JOINED);
    each_leaves(&rt, rt.alloc(), OTHERS);
}

/// Conditions that aren't simplified.
const AS_THEY_STAND: &str = "\
a list | a | a IN (1, 2) | 1: [..]
between | a | a BETWEEN 1 AND 2 | 1: [..]
NOT over an equality | a | NOT a = 1 | 1: [..]
the literal on the left | a | 5 < a | 1: [..]
equal to NULL | a | a = NULL | 1: none
both are NULL | a | a <=> NULL | 1: [..NULL]
AND within AND | a | a > 1 AND (a < 5 AND a <> 3) | 1: (1..3); (3..5)
a list and an atom | a | a IN (1, 2) AND a > 0 | 1: (0..]
FALSE in OR | a | (FALSE OR a = 1) AND TRUE | 1: [1..1]";

#[test]
fn conditions_are_read_as_they_stand(rt: HostRuntime) {
    for line in AS_THEY_STAND.split('\n') {
        leaves_as_it_stands(&rt, rt.alloc(), line);
    }
}

/// The condition of a line leaves of its key what the line says, without being simplified.
fn leaves_as_it_stands(rt: &impl Abort, alloc: Global, line: &str) {
    match condition(alloc, cell(line, 2)) {
        None => assert!(rt; false, "{line}: no condition"),
        Some(filter) => leaves_of(rt, alloc, line, cell(line, 1), &filter, cell(line, 3)),
    }
}
