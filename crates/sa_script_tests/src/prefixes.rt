//! Whole scripts, and each of their beginnings.

use crate::lines::{has_rows, runs};
use sa_script::{ScriptFault, read_script};
use std::alloc::Global;
use std::process::Abort;
use std::test::Fail;

const WHOLE: &str = "CREATE TABLE t (a INT); INSERT INTO t VALUES (1), (2), (3); QUANTUM 4;
SESSION 1; SELECT a FROM t WHERE a >= 2; SESSION 2; SHOW ANALYZE FOR 1; SCHEDULE 1 2 2 1 2 2 1";

#[test]
fn reads_a_whole_script(rt: HostRuntime) -> Result<(), Fail> {
    let wanted =
        "quantum 4, turns 1000000, session 1 <SELECT a FROM t WHERE a >= 2>, session 2 <SHOW ANALYZE FOR 1>, schedule 1 2 2 1 2 2 1";
    runs(&rt, "two sessions", WHOLE, wanted)?;
    has_rows(&rt, "two sessions", WHOLE, "1 | 2 | 3")
}

/// Places are bytes of the whole script, counted from 0 on, and rows from 1 on.
#[test]
fn tells_places_and_rows_of_scripts(rt: HostRuntime) -> Result<(), Fail> {
    let rows = [
        (
            "an open text",
            "CREATE TABLE t (a VARCHAR(5)); INSERT INTO t VALUES ('x",
            "OpenText at 53",
        ),
        (
            "a block that is too short",
            "CREATE TABLE t (a INT); LOAD DATA t BYTES 9;\n1\n",
            "BlockMissing at 45",
        ),
        (
            "a key twice",
            "CREATE TABLE t (a INT PRIMARY KEY); INSERT INTO t VALUES (1), (1);",
            "DuplicateKey at 62 in row 2",
        ),
        (
            "tables alone",
            "CREATE TABLE t (a INT); INSERT INTO t VALUES (1), (2), (3);",
            "quantum 64, turns 1000000",
        ),
    ];
    for (name, text, wanted) in rows {
        runs(&rt, name, text, wanted)?;
    }
    Ok(())
}

/// The beginning of so many bytes is a script, or has one fault within it.
fn is_read<R: Abort + Alloc<A = Global>>(rt: &R, bytes: &[u8]) -> Result<(), Fail> {
    let len = bytes.len();
    match read_script(rt.alloc(), bytes) {
        Ok(_) => Ok(()),
        Err(ScriptFault::Bad { place, .. }) => {
            assert!(rt; place <= len, "{len} bytes: {place}");
            Ok(())
        }
        Err(ScriptFault::OutOfMemory) => Err(Fail::new("memory ran out")),
    }
}

#[test]
fn reads_each_beginning(rt: HostRuntime) -> Result<(), Fail> {
    let bytes = WHOLE.as_bytes();
    for end in 0..bytes.len() {
        is_read(&rt, &bytes[..end])?;
    }
    Ok(())
}
