//! A read or a write that fails.

ghost use Rattle.std.specs.Prelude.{◌<◌};

use super::texts::{SERVED, SERVED_OUTPUT, TABLE};
use super::*;
use sa_source::{MemorySink, MemorySource};

/// The status of `step` where these reads and writes fail, and what was taken.
fn step_failing(
    alloc: Global,
    read_piece: usize,
    failing_reads: &[u64],
    write_piece: usize,
    failing_writes: &[u64],
) -> Result<(u8, MemorySink), AllocError>
    requires reads { 0 < read_piece }
    requires writes { 0 < write_piece }
{
    let script = format!(in alloc; "{TABLE} {SERVED}")?;
    let failing_reads = Vec::from_slice(alloc, failing_reads)?;
    let failing_writes = Vec::from_slice(alloc, failing_writes)?;
    let mut source = MemorySource::new(script.into_bytes(), read_piece, failing_reads);
    let mut sink = MemorySink::new(alloc, write_piece, failing_writes);
    let status = step_script(alloc, &mut source, &mut sink);
    Ok((status, sink))
}

#[test]
fn a_failed_read_writes_nothing(rt: HostRuntime) -> Result<(), Fail> {
    // 165 bytes in pieces of 10 are 17 reads, and one more finds the end
    for read in 1..19 {
        let (status, sink) = step_failing(rt.alloc(), 10, &[read], 1000, &[])?;
        assert_eq!(rt; status, 4, "read {read}");
        assert!(rt; sink.taken().is_empty(), "read {read}");
    }
    let (status, sink) = step_failing(rt.alloc(), 10, &[19], 1000, &[])?;
    assert_eq!(rt; status, 0);
    assert!(rt; sink.taken() == SERVED_OUTPUT.as_bytes());
    Ok(())
}

#[test]
fn a_failed_write_leaves_a_beginning(rt: HostRuntime) -> Result<(), Fail> {
    let output = SERVED_OUTPUT.as_bytes();
    let writes = output.len().div_ceil(100) as u64;
    for write in 1..writes + 1 {
        let (status, sink) = step_failing(rt.alloc(), 1000, &[], 100, &[write])?;
        assert_eq!(rt; status, 5, "write {write}");
        let taken = sink.taken();
        assert!(rt; output.starts_with(taken), "write {write}");
        assert_eq!(rt; taken.len() as u64, (write - 1) * 100, "write {write}");
    }
    let (status, _) = step_failing(rt.alloc(), 1000, &[], 100, &[writes + 1])?;
    assert_eq!(rt; status, 0);
    Ok(())
}

#[test]
fn short_reads_and_writes_lose_nothing(rt: HostRuntime) -> Result<(), Fail> {
    let (status, sink) = step_failing(rt.alloc(), 1, &[], 1, &[])?;
    assert_eq!(rt; status, 0);
    assert!(rt; sink.taken() == SERVED_OUTPUT.as_bytes());
    Ok(())
}
