//! Which of two causes of a record is told.

use crate::loading::each_loads;
use std::test::Fail;

/// Arity before whatever is wrong with a field.
const ARITY: &str = r"arity, UTF-8 | INT | <255>,1 | 1: Arity |
arity, number | INT | x,1 | 1: Arity |
arity, NULL | INT NOT NULL | \N,1 | 1: Arity |
arity, range | INT | 2147483648,1 | 1: Arity |
arity, length | VARCHAR(2) | xyz,1 | 1: Arity |
arity, key | INT / 0 | 5¶5,1 | 2: Arity | 5";

#[test]
fn arity_is_told_first(rt: HostRuntime) -> Result<(), Fail> {
    each_loads(&rt, rt.alloc(), ARITY)?;
    Ok(())
}

/// Two causes in one field.
const ONE_FIELD: &str = r"UTF-8, number | INT | x<255> | 1: NotUtf8 |
UTF-8, length | VARCHAR(2) | <255><255><255> | 1: NotUtf8 |";

#[test]
fn the_first_cause_of_a_field_is_told(rt: HostRuntime) -> Result<(), Fail> {
    each_loads(&rt, rt.alloc(), ONE_FIELD)?;
    Ok(())
}

/// Two causes in two fields, each pair both ways.
const TWO_FIELDS: &str = r"UTF-8, number | INT, INT | <255>,x | 1: NotUtf8 |
UTF-8, NULL | INT, INT NOT NULL | <255>,\N | 1: NotUtf8 |
UTF-8, range | INT, INT | <255>,2147483648 | 1: NotUtf8 |
UTF-8, length | INT, VARCHAR(2) | <255>,xyz | 1: NotUtf8 |
number, UTF-8 | INT, INT | x,<255> | 1: NotNumber |
number, NULL | INT, INT NOT NULL | x,\N | 1: NotNumber |
number, range | INT, INT | x,2147483648 | 1: NotNumber |
number, length | INT, VARCHAR(2) | x,xyz | 1: NotNumber |
NULL, UTF-8 | INT NOT NULL, INT | \N,<255> | 1: NullNotAllowed { column: 0 } |
NULL, number | INT NOT NULL, INT | \N,x | 1: NullNotAllowed { column: 0 } |
NULL, range | INT NOT NULL, INT | \N,2147483648 | 1: NullNotAllowed { column: 0 } |
NULL, length | INT NOT NULL, VARCHAR(2) | \N,xyz | 1: NullNotAllowed { column: 0 } |
range, UTF-8 | INT, INT | 2147483648,<255> | 1: OutOfRange { column: 0 } |
range, number | INT, INT | 2147483648,x | 1: OutOfRange { column: 0 } |
range, NULL | INT, INT NOT NULL | 2147483648,\N | 1: OutOfRange { column: 0 } |
range, length | INT, VARCHAR(2) | 2147483648,xyz | 1: OutOfRange { column: 0 } |
length, UTF-8 | VARCHAR(2), INT | xyz,<255> | 1: TooLong { column: 0 } |
length, number | VARCHAR(2), INT | xyz,x | 1: TooLong { column: 0 } |
length, NULL | VARCHAR(2), INT NOT NULL | xyz,\N | 1: TooLong { column: 0 } |
length, range | VARCHAR(2), INT | xyz,2147483648 | 1: TooLong { column: 0 } |";

#[test]
fn the_first_field_is_told(rt: HostRuntime) -> Result<(), Fail> {
    each_loads(&rt, rt.alloc(), TWO_FIELDS)?;
    Ok(())
}

/// Keys after whatever is wrong with a field.
const KEYS: &str = r"UTF-8, key | INT, INT / 1 | 1,5¶<255>,5 | 2: NotUtf8 | 1, 5
number, key | INT, INT / 1 | 1,5¶x,5 | 2: NotNumber | 1, 5
NULL, key | INT NOT NULL, INT / 1 | 1,5¶\N,5 | 2: NullNotAllowed { column: 0 } | 1, 5
range, key | INT, INT / 1 | 1,5¶2147483648,5 | 2: OutOfRange { column: 0 } | 1, 5
length, key | VARCHAR(2), INT / 1 | a,5¶xyz,5 | 2: TooLong { column: 0 } | 'a', 5
key alone | INT, INT / 1 | 1,5¶2,5 | 2: DuplicateKey { row: 0 } | 1, 5";

#[test]
fn keys_are_told_last(rt: HostRuntime) -> Result<(), Fail> {
    each_loads(&rt, rt.alloc(), KEYS)?;
    Ok(())
}
