//! What is as large as it may be. These run for minutes where they aren't compiled.

use crate::lines::{bytes_fail, is_faulty_row, repeated};
use std::alloc::Global;
use std::process::Abort;
use std::test::Fail;

/// So many times this byte.
fn filled(alloc: Global, byte: u8, len: usize) -> Result<Vec<u8>, Fail> {
    Ok(vec![in alloc; byte; len]?)
}

/// A script has 16,777,216 bytes and no more, whatever they are.
#[test]
fn keeps_the_limit_of_a_script(rt: HostRuntime) -> Result<(), Fail> {
    let most = filled(rt.alloc(), b' ', 16_777_216)?;
    bytes_fail(&rt, "16,777,216 blanks", &most, "quantum 64, turns 1000000")?;
    let many = filled(rt.alloc(), 255, 16_777_217)?;
    bytes_fail(&rt, "16,777,217 bytes", &many, "TooLong at 16777216")
}

/// A table has 1,000,000 rows and no more.
#[test]
fn keeps_the_limit_of_rows(rt: HostRuntime) -> Result<(), Fail> {
    let start = "CREATE TABLE t (a INT); INSERT INTO t VALUES (1)";
    let end = "; INSERT INTO t VALUES ^(2)";
    let text = repeated(rt.alloc(), start, ",(1)", 999_999, end)?;
    is_faulty_row(&rt, "1,000,001 rows", text.as_str(), "RowFull", 1)
}
