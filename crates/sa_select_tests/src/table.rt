//! The table that all rows select from.

/// Seven rows: NULLs; the least INT, the least BIGINT and the empty text; the greatest of both and a quote;
/// a backslash; a line end; a character of four bytes; and a capital.
pub(crate) const TABLE: &str = r"
CREATE TABLE n (id INT, i INT, b BIGINT, s VARCHAR(12));
INSERT INTO n VALUES
    (1, NULL, NULL, NULL),
    (2, -2147483648, -9223372036854775808, ''),
    (3, 2147483647, 9223372036854775807, 'a''b'),
    (4, 0, 0, 'x\\y'),
    (5, 7, -7, 'two\nlines'),
    (6, 7, 8, '😀'),
    (7, -1, 1, 'A');
";

/// The steps of a scan of the table that gives nothing: one opens it, and one reads each row.
pub(crate) const SCAN_STEPS: usize = 8;
