//! Fields: what they stand for in a column.

use crate::loading::each_loads;
use std::test::Fail;

/// Fields that are no numbers.
const NO_NUMBERS: &str = r#"a plus | INT | +1 | 1: NotNumber |
a minus alone | INT | - | 1: NotNumber |
two minus | INT | --1 | 1: NotNumber |
a minus behind | BIGINT | 1- | 1: NotNumber |
a blank before | INT | <32>1 | 1: NotNumber |
a blank behind | INT | 1<32> | 1: NotNumber |
a fraction | INT | 1.0 | 1: NotNumber |
an exponent | INT | 1e3 | 1: NotNumber |
hexadecimal | INT | 0x1 | 1: NotNumber |
digits of another script | INT | ١ | 1: NotNumber |
an empty field | INT | "" | 1: NotNumber |
two empty fields | INT, INT | , | 1: NotNumber |
the word NULL | INT | NULL | 1: NotNumber |"#;

#[test]
fn what_is_no_number_is_refused(rt: HostRuntime) -> Result<(), Fail> {
    each_loads(&rt, rt.alloc(), NO_NUMBERS)?;
    Ok(())
}

/// Numbers, and the limits of their columns.
const NUMBERS: &str = r"minus 0 | INT | -0 | 1 | 0
zeros first | INT | 007 | 1 | 7
zeros behind a minus | INT | -007 | 1 | -7
40 zeros | INT | 00000000000000000000000000000000000000001 | 1 | 1
greatest INT | INT | 2147483647 | 1 | 2147483647
one past | INT | 2147483648 | 1: OutOfRange { column: 0 } |
least INT | INT | -2147483648 | 1 | -2147483648
one below | INT | -2147483649 | 1: OutOfRange { column: 0 } |
greatest BIGINT | BIGINT | 9223372036854775807 | 1 | 9223372036854775807
one past | BIGINT | 9223372036854775808 | 1: OutOfRange { column: 0 } |
least BIGINT | BIGINT | -9223372036854775808 | 1 | -9223372036854775808
one below | BIGINT | -9223372036854775809 | 1: OutOfRange { column: 0 } |
2 to the 64th | BIGINT | 18446744073709551616 | 1: OutOfRange { column: 0 } |
below its negative | BIGINT | -18446744073709551617 | 1: OutOfRange { column: 0 } |";

#[test]
fn numbers_are_loaded(rt: HostRuntime) -> Result<(), Fail> {
    each_loads(&rt, rt.alloc(), NUMBERS)?;
    Ok(())
}

/// NULL, and what looks like it.
const NULLS: &str = r#"bare | INT | \N | 1 | NULL
in quotes | INT | "\N" | 1 | NULL
for a text | VARCHAR(9) | \N | 1 | NULL
for a text, in quotes | VARCHAR(9) | "\N" | 1 | NULL
among others | INT, INT, INT | 1,\N,3 | 1 | 1, NULL, 3
a small letter | VARCHAR(9) | \n | 1 | '\n'
a blank before | VARCHAR(9) | <32>\N | 1 | ' \N'
the word NULL | VARCHAR(9) | NULL | 1 | 'NULL'
two backslashes | VARCHAR(9) | \\N | 1 | '\\N'
a number NOT NULL | INT NOT NULL | \N | 1: NullNotAllowed { column: 0 } |
a text NOT NULL | VARCHAR(9) NOT NULL | "\N" | 1: NullNotAllowed { column: 0 } |
empty texts | VARCHAR(9) NOT NULL, VARCHAR(9) | , | 1 | '', ''"#;

#[test]
fn nulls_are_loaded(rt: HostRuntime) -> Result<(), Fail> {
    each_loads(&rt, rt.alloc(), NULLS)?;
    Ok(())
}

/// Texts, and the limits of their columns.
const TEXTS: &str = r#"three characters of two bytes | VARCHAR(3) | äöü | 1 | 'äöü'
four characters | VARCHAR(3) | abcd | 1: TooLong { column: 0 } |
four characters of two bytes | VARCHAR(3) | äöüß | 1: TooLong { column: 0 } |
a byte that is no UTF-8 | VARCHAR(9) | a<255>b | 1: NotUtf8 |
a character cut off | VARCHAR(9) | a<195> | 1: NotUtf8 |
a character cut off in quotes | VARCHAR(9) | "<195>" | 1: NotUtf8 |
a surrogate | VARCHAR(9) | <237><160><128> | 1: NotUtf8 |
two bytes for 0 | VARCHAR(9) | <192><128> | 1: NotUtf8 |
past the last character | VARCHAR(9) | <244><144><128><128> | 1: NotUtf8 |
no UTF-8 in a number | INT | 1<255> | 1: NotUtf8 |
in the second record | VARCHAR(9) | a¶<255> | 2: NotUtf8 | 'a'"#;

#[test]
fn texts_are_loaded(rt: HostRuntime) -> Result<(), Fail> {
    each_loads(&rt, rt.alloc(), TEXTS)?;
    Ok(())
}
