//! Whole outputs.

use super::texts::{DONE, SELECT, SELECT_OUTPUT, SERVED, SERVED_OUTPUT, TABLE};
use super::*;

#[test]
fn prints_the_journals_of_a_script(rt: HostRuntime) -> Result<(), Fail> {
    let rows = [
        ("no session", "", DONE),
        ("one SELECT", SELECT, SELECT_OUTPUT),
        ("a SHOW ANALYZE that is served", SERVED, SERVED_OUTPUT),
    ];
    for (name, sessions, output) in rows {
        let script = format!(in rt.alloc(); "{TABLE} {sessions}")?;
        prints(&rt, rt.alloc(), name, script.into_bytes(), 0, output)?;
    }
    Ok(())
}

#[test]
fn prints_the_first_fault(rt: HostRuntime) -> Result<(), Fail> {
    let rows = [
        (
            "a text has no end",
            "CREATE TABLE t (a VARCHAR(5)); INSERT INTO t VALUES ('x",
            "{\"fault\":\"OpenText\",\"place\":53}\n",
        ),
        (
            "a block has too few bytes",
            "CREATE TABLE t (a INT); LOAD DATA t BYTES 9;\n1\n",
            "{\"fault\":\"BlockMissing\",\"place\":45}\n",
        ),
        (
            "a row has the key of another",
            "CREATE TABLE t (a INT PRIMARY KEY); INSERT INTO t VALUES (1), (1);",
            "{\"fault\":\"DuplicateKey\",\"line\":2,\"place\":62}\n",
        ),
    ];
    for (name, script, output) in rows {
        let input = Vec::from_slice(rt.alloc(), script.as_bytes())?;
        prints(&rt, rt.alloc(), name, input, 3, output)?;
    }
    Ok(())
}

#[test]
fn reads_up_to_16_mib(rt: HostRuntime) -> Result<(), Fail> {
    let nothing = Vec::new(rt.alloc());
    prints(&rt, rt.alloc(), "no byte", nothing, 0, DONE)?;
    let too_long = vec![in rt.alloc(); b' '; 16_777_217]?;
    let output = "{\"fault\":\"TooLong\",\"place\":16777216}\n";
    prints(&rt, rt.alloc(), "a byte too many", too_long, 3, output)
}
