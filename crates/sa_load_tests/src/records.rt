//! Records: where they end, and which of them are rows.

use crate::line::is_same;
use crate::loading::{each_loads, load};
use crate::shown::shown;
use crate::table::table;
use sa_table::Tables;
use sa_value::OutOfMemory;
use std::alloc::Global;
use std::process::Abort;
use std::test::Fail;

/// Ends of records.
const ENDS: &str = r"no text | INT | | 0 |
a byte order mark alone | INT | <239><187><191> | 0 |
a byte order mark | INT, INT | <239><187><191>1,2¶ | 1 | 1, 2
a byte order mark later | VARCHAR(9) | a¶<239><187><191>b¶ | 2 | 'a'; '<239><187><191>b'
a line feed at the end | INT | 1¶2¶ | 2 | 1; 2
no line feed at the end | INT | 1¶2 | 2 | 1; 2
carriage return and line feed | INT | 1<13>¶2<13>¶ | 2 | 1; 2
blank lines | INT | ¶¶1¶¶¶2¶¶ | 2 | 1; 2
blank lines with a carriage return | INT | <13>¶1<13>¶<13>¶2<13>¶ | 2 | 1; 2
blank lines alone | INT | ¶<13>¶¶ | 0 |
a line of a blank | VARCHAR(9) | <32>¶ | 1 | ' '
blank lines are not counted | INT | ¶1¶¶x¶ | 2: NotNumber | 1";

#[test]
fn records_end(rt: HostRuntime) -> Result<(), Fail> {
    each_loads(&rt, rt.alloc(), ENDS)?;
    Ok(())
}

/// Fields in quotes.
const QUOTES: &str = r#"fields in quotes | INT, VARCHAR(9) | "1","a"¶ | 1 | 1, 'a'
a comma | VARCHAR(9) | "a,b"¶ | 1 | 'a,b'
a line feed | VARCHAR(9) | "a¶b"¶ | 1 | 'a¶b'
doubled quotes | VARCHAR(9) | "a""b"¶ | 1 | 'a"b'
doubled quotes alone | VARCHAR(9) | """"¶ | 1 | '"'
no text | VARCHAR(9) | ""¶ | 1 | ''
a backslash | VARCHAR(9) | "a\b"¶ | 1 | 'a\b'
a single quote | VARCHAR(9) | 'a'¶ | 1 | ''a''
no header | VARCHAR(9) | a¶b¶ | 2 | 'a'; 'b'
no comments | VARCHAR(9) | # a¶ | 1 | '# a'"#;

#[test]
fn fields_stand_in_quotes(rt: HostRuntime) -> Result<(), Fail> {
    each_loads(&rt, rt.alloc(), QUOTES)?;
    Ok(())
}

/// Rows before the first faulty record, and keys.
const ROWS: &str = r"the first record | INT | x¶2¶3¶ | 1: NotNumber |
the second record | INT | 1¶x¶3¶ | 2: NotNumber | 1
the last record | INT | 1¶2¶x¶ | 3: NotNumber | 1; 2
two faulty records | INT | 1¶2147483648¶x¶ | 2: OutOfRange { column: 0 } | 1
one field less | INT, INT | 1,2¶3¶ | 2: Arity | 1, 2
one field more | INT, INT | 1,2¶3,4,5¶ | 2: Arity | 1, 2
the first row again | INT / 0 | 1¶2¶1¶ | 3: DuplicateKey { row: 0 } | 1; 2
the second row again | INT / 0 | 1¶2¶2¶1¶ | 3: DuplicateKey { row: 1 } | 1; 2
both parts again | INT, INT / 0 1 | 1,1¶1,2¶1,2¶ | 3: DuplicateKey { row: 1 } | 1, 1; 1, 2
NULL in a unique key | INT / 0 | \N¶\N¶1¶ | 3 | NULL; NULL; 1
NULL in one part | INT, INT / 0 1 | 1,\N¶1,\N¶ | 2 | 1, NULL; 1, NULL";

#[test]
fn the_first_faulty_record_is_told(rt: HostRuntime) -> Result<(), Fail> {
    each_loads(&rt, rt.alloc(), ROWS)?;
    Ok(())
}

/// Compares what a text is answered that is loaded into the same table as the one before.
fn is_added(
    rt: &impl Abort,
    alloc: Global,
    tables: &mut Tables,
    text: &str,
    expected: &str,
) -> Result<(), OutOfMemory> {
    let given = load(rt, alloc, tables, text.as_bytes())?;
    is_same(rt, text, given.as_str(), expected);
    Ok(())
}

#[test]
fn a_second_text_is_added(rt: HostRuntime) -> Result<(), Fail> {
    let mut tables = table(&rt, rt.alloc(), "INT / 0")?;
    is_added(&rt, rt.alloc(), &mut tables, "1\n", "1")?;
    is_added(&rt, rt.alloc(), &mut tables, "2\n3\n", "2")?;
    is_added(
        &rt,
        rt.alloc(),
        &mut tables,
        "4\n1\n",
        "2: DuplicateKey { row: 0 }",
    )?;
    let cells = shown(&rt, rt.alloc(), &tables)?;
    is_same(&rt, "1, 2, 3, 4", cells.as_str(), "1; 2; 3; 4");
    Ok(())
}
