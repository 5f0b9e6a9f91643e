//! The seventh step: equalities with literals are handed on over equalities of columns.

use crate::simplified::{each_becomes, each_hands_on, each_stays};
use std::test::Fail;

const HANDED_ON: &str = "\
to the left | a = b AND b = 3 | a = 3
to the right | a = b AND a = 3 | b = 3
the literal first | b = 3 AND a = b | a = 3
a ring | a = b AND b = a AND a = 1 | b = 1
texts | t = u AND u = 'fig' | t = 'fig'
beside others | a < 9 AND a = b AND c < 1 AND b = 3 | a = 3";

/// In their order: for the first equality of columns, and then the first with a literal.
const IN_ORDER: &str = "\
two literals | a = b AND a = 1 AND b = 2 | b = 1 AND a = 2
a chain | a = b AND b = c AND c = 3 | b = 3 AND a = 3
the chain the other way | b = c AND a = b AND c = 3 | b = 3 AND a = 3
from the middle | a = b AND b = c AND b = 3 | a = 3 AND c = 3
from the front | a = b AND b = c AND a = 3 | b = 3 AND c = 3
both ends | a = b AND b = c AND c = 3 AND a = 4 | b = 4 AND b = 3 AND a = 3 AND c = 4
two pairs | a = b AND c = n AND n = 1 AND b = 2 | a = 2 AND c = 1";

const KEPT: &str = "\
it is there | a = b AND b = 3 AND a = 3
one column alone | a = a AND a = 3
no equality of columns | a <=> b AND b = 3
no equality with a literal | a = b AND b <=> 3
less | a = b AND b < 3
within OR | a = b AND (b = 3 OR b = 4)
within an AND of an OR | (a = b AND b = 3) OR c = 1
an expression | a = b + 0 AND b = 3
a sum | a = SUM(b) AND a = 3
no AND | a = b
OR | a = b OR b = 3";

#[test]
fn equalities_are_handed_on(rt: HostRuntime) -> Result<(), Fail> {
    each_hands_on(&rt, rt.alloc(), HANDED_ON)?;
    each_hands_on(&rt, rt.alloc(), IN_ORDER)?;
    Ok(())
}

#[test]
fn nothing_else_is_handed_on(rt: HostRuntime) {
    each_stays(&rt, rt.alloc(), KEPT);
    each_becomes(
        &rt,
        rt.alloc(),
        "NULL | a = b AND b = NULL | a = b AND NULL",
    );
}
