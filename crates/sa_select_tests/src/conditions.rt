//! Conditions over numbers and NULLs, and what AND, OR and NOT make of them.

use crate::finding::each_finds;
use std::test::Fail;

const COMPARED: &str = "\
i = 7 | (i = 7) | 5; 6
i <> 7 | (i <> 7) | 2; 3; 4; 7
i != 7 | (i <> 7) | 2; 3; 4; 7
NOT i = 7 | (NOT (i = 7)) | 2; 3; 4; 7
i < 0 | (i < 0) | 2; 7
i <= 0 | (i <= 0) | 2; 4; 7
i > 0 | (i > 0) | 3; 5; 6
i >= 0 | (i >= 0) | 3; 4; 5; 6
0 > i | (0 > i) | 2; 7
i < b | (i < b) | 3; 6; 7
i = b | (i = b) | 4
i IN (7, 0) | (i IN (7, 0)) | 4; 5; 6
i NOT IN (7, 0) | (i NOT IN (7, 0)) | 2; 3; 7
i BETWEEN 0 AND 7 | (i BETWEEN 0 AND 7) | 4; 5; 6
i NOT BETWEEN 0 AND 7 | (i NOT BETWEEN 0 AND 7) | 2; 3; 7
i + 1 = 8 | ((i + 1) = 8) | 5; 6
i - 1 < 0 | ((i - 1) < 0) | 2; 4; 7
i * 2 = 14 | ((i * 2) = 14) | 5; 6
-i = 1 | ((-i) = 1) | 7
i * i = 1 | ((i * i) = 1) | 7
i * 0 = 0 | ((i * 0) = 0) | 2; 3; 4; 5; 6; 7";

#[test]
fn numbers_are_compared(rt: HostRuntime) -> Result<(), Fail> {
    each_finds(&rt, rt.alloc(), COMPARED)
}

const AT_LIMITS: &str = "\
i = -2147483648 | (i = -2147483648) | 2
i = 2147483647 | (i = 2147483647) | 3
i < 2147483648 | (i < 2147483648) | 2; 3; 4; 5; 6; 7
i > -2147483649 | (i > -2147483649) | 2; 3; 4; 5; 6; 7
b = -9223372036854775808 | (b = -9223372036854775808) | 2
b = 9223372036854775807 | (b = 9223372036854775807) | 3
b < 9223372036854775807 | (b < 9223372036854775807) | 2; 4; 5; 6; 7
b > -9223372036854775808 | (b > -9223372036854775808) | 3; 4; 5; 6; 7";

#[test]
fn numbers_at_their_limits_are_compared(rt: HostRuntime) -> Result<(), Fail> {
    each_finds(&rt, rt.alloc(), AT_LIMITS)
}

const WITH_NULL: &str = "\
i IS NULL | (i IS NULL) | 1
i IS NOT NULL | (i IS NOT NULL) | 2; 3; 4; 5; 6; 7
NOT (i IS NULL) | (NOT (i IS NULL)) | 2; 3; 4; 5; 6; 7
i <=> NULL | (i <=> NULL) | 1
NOT (i <=> NULL) | (NOT (i <=> NULL)) | 2; 3; 4; 5; 6; 7
i <=> 7 | (i <=> 7) | 5; 6
NOT (i <=> 7) | (NOT (i <=> 7)) | 1; 2; 3; 4; 7
i = NULL | (i = NULL) |
NOT (i = NULL) | (NOT (i = NULL)) |
i IN (7, NULL) | (i IN (7, NULL)) | 5; 6
i NOT IN (7, NULL) | (i NOT IN (7, NULL)) |
i BETWEEN NULL AND 7 | (i BETWEEN NULL AND 7) |
i NOT BETWEEN NULL AND 7 | (i NOT BETWEEN NULL AND 7) | 3
i + NULL = 7 | ((i + NULL) = 7) |
NULL <=> NULL | (NULL <=> NULL) | 1; 2; 3; 4; 5; 6; 7
NULL IS NULL | (NULL IS NULL) | 1; 2; 3; 4; 5; 6; 7
NULL | NULL |
NOT NULL | (NOT NULL) |
i = 7 AND NULL | ((i = 7) AND NULL) |
i = 7 OR NULL | ((i = 7) OR NULL) | 5; 6";

#[test]
fn null_is_neither_true_nor_false(rt: HostRuntime) -> Result<(), Fail> {
    each_finds(&rt, rt.alloc(), WITH_NULL)
}

const JOINED: &str = "\
TRUE | TRUE | 1; 2; 3; 4; 5; 6; 7
FALSE | FALSE |
NOT FALSE | (NOT FALSE) | 1; 2; 3; 4; 5; 6; 7
1 = 1 | (1 = 1) | 1; 2; 3; 4; 5; 6; 7
1 = 2 | (1 = 2) |
i = 7 AND b = 8 | ((i = 7) AND (b = 8)) | 6
i = 7 && b = 8 | ((i = 7) AND (b = 8)) | 6
i = 7 OR b = 1 | ((i = 7) OR (b = 1)) | 5; 6; 7
NOT (i = 7 AND b = 8) | (NOT ((i = 7) AND (b = 8))) | 2; 3; 4; 5; 7
NOT (i = 7 OR b = 1) | (NOT ((i = 7) OR (b = 1))) | 2; 3; 4
NOT NOT i = 7 | (NOT (NOT (i = 7))) | 5; 6
i = 7 AND i = 8 | ((i = 7) AND (i = 8)) |
i = b AND i = 0 | ((i = b) AND (i = 0)) | 4
i BETWEEN 0 AND 7 AND b BETWEEN -7 AND 0 | ((i BETWEEN 0 AND 7) AND (b BETWEEN -7 AND 0)) | 4; 5
id < 3 OR id > 5 | ((id < 3) OR (id > 5)) | 1; 2; 6; 7";

#[test]
fn truths_are_joined(rt: HostRuntime) -> Result<(), Fail> {
    each_finds(&rt, rt.alloc(), JOINED)
}
