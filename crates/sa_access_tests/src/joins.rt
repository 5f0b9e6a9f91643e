//! Tables that are read after another.

use crate::answers::each_is_chosen;
use std::test::Fail;

/// Customers and their orders: customers first cost 35 + 3 * 32 = 131 in all, orders first
/// 40 + 4 * 26 = 144.
const SHOP: &str = "\
orders of a customer | customers id! name$ / PRIMARY id; orders id! cust amount / PRIMARY id, KEY cust \
| 1,'Ann 2,'Bob 3,'Cy; 10,1,5 11,1,7 12,2,4 13,NULL,9 \
| SELECT name, amount FROM customers AS c JOIN orders AS o ON o.cust = c.id | 1 | 0 | ref 1 1 32 2
the customer of an order | customers id! name$ / PRIMARY id; orders id! cust amount / PRIMARY id, KEY cust \
| 1,'Ann 2,'Bob 3,'Cy; 10,1,5 11,1,7 12,2,4 13,NULL,9 \
| SELECT name, amount FROM customers AS c JOIN orders AS o ON o.cust = c.id | 0 | 1 | eq_ref 0 1 26 1
customers first | customers id! name$ / PRIMARY id; orders id! cust amount / PRIMARY id, KEY cust \
| 1,'Ann 2,'Bob 3,'Cy; 10,1,5 11,1,7 12,2,4 13,NULL,9 \
| SELECT name, amount FROM customers AS c JOIN orders AS o ON o.cust = c.id | 0 | | ALL - - 35 3
orders first | customers id! name$ / PRIMARY id; orders id! cust amount / PRIMARY id, KEY cust \
| 1,'Ann 2,'Bob 3,'Cy; 10,1,5 11,1,7 12,2,4 13,NULL,9 \
| SELECT name, amount FROM customers AS c JOIN orders AS o ON o.cust = c.id | 1 | | ALL - - 40 4";

#[test]
fn an_earlier_table_is_sought_by(rt: HostRuntime) -> Result<(), Fail> {
    each_is_chosen(&rt, rt.alloc(), SHOP)
}

/// Customers and their orders, where one customer is asked for.
const ONE: &str = "\
the customer | customers id! name$ / PRIMARY id; orders id! cust amount / PRIMARY id, KEY cust \
| 1,'Ann 2,'Bob 3,'Cy; 10,1,5 11,1,7 12,2,4 13,NULL,9 \
| SELECT name, amount FROM customers AS c JOIN orders AS o ON o.cust = c.id WHERE c.id = 1 \
| 0 | | const 0 1 26 1
the first equality counts | customers id! name$ / PRIMARY id; orders id! cust amount / PRIMARY id, KEY cust \
| 1,'Ann 2,'Bob 3,'Cy; 10,1,5 11,1,7 12,2,4 13,NULL,9 \
| SELECT name, amount FROM customers AS c JOIN orders AS o ON o.cust = c.id WHERE c.id = 1 \
| 0 | 1 | eq_ref 0 1 26 1
two orders | customers id! name$ / PRIMARY id; orders id! cust amount / PRIMARY id, KEY cust \
| 1,'Ann 2,'Bob 3,'Cy; 10,1,5 11,1,7 12,2,4 13,NULL,9 \
| SELECT name, amount FROM customers AS c JOIN orders AS o ON o.cust = c.id WHERE c.id = 1 \
| 1 | | ref 1 1 32 2
one order | customers id! name$ / PRIMARY id; orders id! cust amount / PRIMARY id, KEY cust \
| 1,'Ann 2,'Bob 3,'Cy; 10,1,5 11,1,7 12,2,4 13,NULL,9 \
| SELECT name, amount FROM customers AS c JOIN orders AS o ON o.cust = c.id WHERE c.id = 2 \
| 1 | | range 1 1 26 1";

#[test]
fn equalities_are_handed_on(rt: HostRuntime) -> Result<(), Fail> {
    each_is_chosen(&rt, rt.alloc(), ONE)
}

/// A key of two parts.
const PARTS: &str = "\
a column and a literal | s x; t a! b! / UNIQUE a b | 1; 1,5 2,5 3,6 \
| SELECT x FROM s JOIN t ON t.a = s.x AND t.b = 5 | 1 | 0 | eq_ref 0 2 26 1
the first part | s x; t a! b! / UNIQUE a b | 1; 1,5 2,5 3,6 \
| SELECT x FROM s JOIN t ON t.a = s.x | 1 | 0 | ref 0 1 26 1
turned round | s x; t a! b! / UNIQUE a b | 1; 1,5 2,5 3,6 \
| SELECT x FROM s JOIN t ON s.x = t.a | 1 | 0 | ref 0 1 26 1
the second part | s x; t a! b! / UNIQUE a b | 1; 1,5 2,5 3,6 \
| SELECT x FROM s JOIN t ON t.b = s.x | 1 | 0 | index 0 - 32 3
a later table | s x; t a! b! / UNIQUE a b | 1; 1,5 2,5 3,6 \
| SELECT x FROM s JOIN t ON t.a = s.x | 1 | | index 0 - 32 3
NULL-safe | s x; t a! b! / UNIQUE a b | 1; 1,5 2,5 3,6 \
| SELECT x FROM s JOIN t ON t.a <=> s.x | 1 | 0 | index 0 - 32 3";

#[test]
fn parts_are_sought_from_the_first_on(rt: HostRuntime) -> Result<(), Fail> {
    each_is_chosen(&rt, rt.alloc(), PARTS)
}
