//! Conditions over texts, and texts as JSON has them.

use crate::finding::each_finds;
use crate::giving::each_gives;
use std::test::Fail;

/// Texts are compared by their bytes.
const COMPARED: &str = r#"s = '' | (s = '') | 2
s = 'a''b' | (s = 'a''b') | 3
s = 'x\\y' | (s = 'x\\\\y') | 4
s = 'two\nlines' | (s = 'two\nlines') | 5
s = '😀' | (s = '😀') | 6
s = 'A' | (s = 'A') | 7
s = "A" | (s = 'A') | 7
s = 'a' | (s = 'a') |
s <> 'say "a"' | (s <> 'say \"a\"') | 2; 3; 4; 5; 6; 7
s < 'a' | (s < 'a') | 2; 7
s > 'two' | (s > 'two') | 4; 5; 6
s IS NULL | (s IS NULL) | 1
s IS NOT NULL | (s IS NOT NULL) | 2; 3; 4; 5; 6; 7
s IN ('A', '') | (s IN ('A', '')) | 2; 7
s NOT IN ('A', '') | (s NOT IN ('A', '')) | 3; 4; 5; 6
s BETWEEN 'A' AND 'b' | (s BETWEEN 'A' AND 'b') | 3; 7
s <=> 'A' | (s <=> 'A') | 7
NOT (s <=> 'A') | (NOT (s <=> 'A')) | 1; 2; 3; 4; 5; 6
'a' = 'a' | ('a' = 'a') | 1; 2; 3; 4; 5; 6; 7
i IS NULL OR s = '' | ((i IS NULL) OR (s = '')) | 1; 2
(i = 7 OR i = 0) AND NOT s = '😀' | (((i = 7) OR (i = 0)) AND (NOT (s = '😀'))) | 4; 5"#;

#[test]
fn texts_are_compared(rt: HostRuntime) -> Result<(), Fail> {
    each_finds(&rt, rt.alloc(), COMPARED)
}

/// Texts of the table, and literals, whose column has their canonical text for its name.
const GIVEN: &str = r#"SELECT s FROM n WHERE id = 1 | SELECT s FROM n WHERE (id = 1) | "s" | null
SELECT s FROM n WHERE id = 2 | SELECT s FROM n WHERE (id = 2) | "s" | ""
SELECT s FROM n WHERE id = 3 | SELECT s FROM n WHERE (id = 3) | "s" | "a'b"
SELECT s FROM n WHERE id = 4 | SELECT s FROM n WHERE (id = 4) | "s" | "x\\y"
SELECT s FROM n WHERE id = 5 | SELECT s FROM n WHERE (id = 5) | "s" | "two\nlines"
SELECT s FROM n WHERE id = 6 | SELECT s FROM n WHERE (id = 6) | "s" | "😀"
SELECT s FROM n WHERE s > 'two' | SELECT s FROM n WHERE (s > 'two') | "s" | "x\\y"; "two\nlines"; "😀"
SELECT 'a''b' FROM n WHERE id = 5 | SELECT 'a''b' FROM n WHERE (id = 5) | "'a''b'" | "a'b"
SELECT 'x\\y' FROM n WHERE id = 5 | SELECT 'x\\\\y' FROM n WHERE (id = 5) | "'x\\\\y'" | "x\\y"
SELECT 'a\nb' FROM n WHERE id = 5 | SELECT 'a\nb' FROM n WHERE (id = 5) | "'a\nb'" | "a\nb"
SELECT '"' FROM n WHERE id = 5 | SELECT '\"' FROM n WHERE (id = 5) | "'\"'" | "\""
SELECT "'" FROM n WHERE id = 5 | SELECT '''' FROM n WHERE (id = 5) | "''''" | "'"
SELECT '\0\b\t\r\Z' FROM n WHERE id = 5 | SELECT '\u0000\b\t\r\u001a' FROM n WHERE (id = 5) | "'\u0000\b\t\r\u001a'" | "\u0000\b\t\r\u001a"
SELECT '😀' FROM n WHERE id = 5 | SELECT '😀' FROM n WHERE (id = 5) | "'😀'" | "😀"
SELECT id AS `"a\` FROM n WHERE id = 5 | SELECT id AS `\"a\\` FROM n WHERE (id = 5) | "\"a\\" | 5"#;

#[test]
fn texts_are_given(rt: HostRuntime) -> Result<(), Fail> {
    each_gives(&rt, rt.alloc(), GIVEN)
}
