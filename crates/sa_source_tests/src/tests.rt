ghost use Rattle.std.specs.Prelude.{◌<◌};

use sa_source::{
    Failed, MeetPause, MemorySink, MemorySource, Pause, PlainSink, PlainSource, QuietPause,
    ReadStop, Sink, SinkFault, SnoozePause, Source, StdSink, StdSource, read_up_to, write_all,
};
use std::alloc::{AllocError, Global};
use std::io;
use std::io::ErrorKind;
use std::process::Abort;
use std::test::Fail;

/// Reads `abc` with a buffer of this length, at most `piece` bytes a call, and compares what each call
/// gives, where `!` is a fault.
fn gives(
    rt: &impl Abort,
    alloc: Global,
    name: &str,
    room: usize,
    piece: usize,
    failing: &[u64],
    answers: &[&str],
) -> Result<(), AllocError>
    requires { 0 < piece }
{
    let mut source = MemorySource::new(b"abc".to_vec(alloc)?, piece, failing.to_vec(alloc)?);
    let mut buffer = vec![in alloc; 0u8; room]?;
    for answer in answers {
        match source.read(&mut buffer) {
            Ok(count) => assert_eq!(rt; &buffer[..count], answer.as_bytes(), "{name}"),
            Err(Failed) => assert_eq!(rt; "!", *answer, "{name}"),
        }
    }
    Ok(())
}

#[test]
fn gives_pieces(rt: HostRuntime) -> Result<(), Fail> {
    let alloc = rt.alloc();
    gives(
        &rt,
        alloc,
        "small buffer",
        1,
        10,
        &[],
        &["a", "b", "c", "", ""],
    )?;
    gives(
        &rt,
        alloc,
        "small pieces",
        10,
        1,
        &[],
        &["a", "b", "c", "", ""],
    )?;
    gives(
        &rt,
        alloc,
        "pieces of two",
        2,
        10,
        &[],
        &["ab", "c", "", ""],
    )?;
    gives(&rt, alloc, "all at once", 10, 10, &[], &["abc", "", ""])?;
    gives(&rt, alloc, "no buffer", 0, 10, &[], &["", ""])?;
    gives(
        &rt,
        alloc,
        "first call fails",
        10,
        2,
        &[1],
        &["!", "ab", "c", ""],
    )?;
    gives(
        &rt,
        alloc,
        "second call fails",
        10,
        2,
        &[2],
        &["ab", "!", "c", ""],
    )?;
    gives(
        &rt,
        alloc,
        "third call fails",
        10,
        2,
        &[3],
        &["ab", "c", "!", ""],
    )?;
    gives(
        &rt,
        alloc,
        "two calls fail",
        10,
        2,
        &[4, 1],
        &["!", "ab", "c", "!", ""],
    )?;
    gives(
        &rt,
        alloc,
        "no such call",
        10,
        2,
        &[0, 9],
        &["ab", "c", "", ""],
    )?;
    Ok(())
}

/// Writes `abc` again and again, at most `piece` bytes a call, and compares what was taken after each
/// call, where `!` is a fault.
fn takes(
    rt: &impl Abort,
    alloc: Global,
    name: &str,
    piece: usize,
    failing: &[u64],
    answers: &[&str],
) -> Result<(), AllocError>
    requires { 0 < piece }
{
    let mut sink = MemorySink::new(alloc, piece, failing.to_vec(alloc)?);
    for answer in answers {
        match sink.write(b"abc") {
            Ok(_) => assert_eq!(rt; sink.taken(), answer.as_bytes(), "{name}"),
            Err(fault) => assert_eq!(rt; (fault, "!"), (SinkFault::Failed, *answer), "{name}"),
        }
    }
    Ok(())
}

#[test]
fn takes_pieces(rt: HostRuntime) -> Result<(), Fail> {
    let alloc = rt.alloc();
    takes(&rt, alloc, "byte by byte", 1, &[], &["a", "aa", "aaa"])?;
    takes(&rt, alloc, "pieces of two", 2, &[], &["ab", "abab"])?;
    takes(&rt, alloc, "all at once", 10, &[], &["abc", "abcabc"])?;
    takes(
        &rt,
        alloc,
        "first call fails",
        2,
        &[1],
        &["!", "ab", "abab"],
    )?;
    takes(
        &rt,
        alloc,
        "second call fails",
        2,
        &[2],
        &["ab", "!", "abab"],
    )?;
    takes(
        &rt,
        alloc,
        "two calls fail",
        2,
        &[4, 1],
        &["!", "ab", "abab", "!", "ababab"],
    )?;
    takes(&rt, alloc, "no such call", 2, &[0, 9], &["ab", "abab"])?;
    Ok(())
}

#[test]
fn writes_up_to_a_fault(rt: HostRuntime) -> Result<(), Fail> {
    let text = vec![in rt.alloc(); b'x'; 250]?;
    let mut sink = MemorySink::new(rt.alloc(), 100, [3].to_vec(rt.alloc())?);
    assert_eq!(rt; write_all(&mut sink, &text), Err(SinkFault::Failed));
    assert_eq!(rt; sink.taken(), &text[..200]);
    Ok(())
}

#[test]
fn reads_up_to_a_fault(rt: HostRuntime) -> Result<(), Fail> {
    let alloc = rt.alloc();
    let mut source = MemorySource::new(b"abc".to_vec(alloc)?, 2, [2].to_vec(alloc)?);
    let read = read_up_to(alloc, &mut source, 100);
    assert_eq!(rt; read.err(), Some(ReadStop::Failed));
    Ok(())
}

/// Reads a source to its end, and compares what it gave with `abc`.
fn gives_abc<S: Source>(rt: &impl Abort, alloc: Global, source: &mut S) -> Result<(), ReadStop> {
    let bytes = read_up_to(alloc, source, 100)?;
    assert_eq!(rt; bytes.as_slice(), b"abc".as_slice());
    Ok(())
}

#[test]
fn reads_whole_texts(rt: HostRuntime) -> Result<(), Fail> {
    let alloc = rt.alloc();
    let bytes = b"abc".to_vec(alloc)?;
    gives_abc(&rt, alloc, &mut PlainSource::new(bytes))?;
    let bytes = b"abc".to_vec(alloc)?;
    gives_abc(
        &rt,
        alloc,
        &mut MemorySource::new(bytes, 1, Vec::new(alloc)),
    )?;
    gives_abc(&rt, alloc, &mut StdSource::new(b"abc".as_slice()))?;
    Ok(())
}

#[test]
fn writes_whole_texts(rt: HostRuntime) -> Result<(), Fail> {
    let mut plain = PlainSink::new(rt.alloc());
    write_all(&mut plain, b"abc")?;
    assert_eq!(rt; plain.taken(), b"abc".as_slice());
    let mut room = [0; 3];
    write_all(&mut StdSink::new(room.as_mut_slice()), b"abc")?;
    assert_eq!(rt; room.as_slice(), b"abc".as_slice());
    Ok(())
}

/// A reader that is interrupted each time.
#[derive(Drop)]
struct Interrupted;

impl io::Read for Interrupted {
    fn read(&mut self, _buffer: &mut [u8]) -> io::Result<usize> {
        Err(ErrorKind::Interrupted.into())
    }
}

#[test]
fn counts_errors_as_faults(rt: HostRuntime) {
    assert_eq!(rt; StdSource::new(Interrupted).read(&mut [0; 4]), Err(Failed));
}

#[test]
fn counts_no_progress_as_fault(rt: HostRuntime) {
    let mut room = [0; 3];
    let mut sink = StdSink::new(room.as_mut_slice());
    assert_eq!(rt; sink.write(b"full"), Ok(3));
    assert_eq!(rt; sink.write(b""), Ok(0));
    assert_eq!(rt; sink.write(b"l"), Err(SinkFault::Failed));
}

/// Pauses three times.
fn pause_thrice(pause: &impl Pause) {
    for _ in 0..3 {
        pause.pause();
    }
}

#[test]
fn one_thread_meets_nobody(rt: HostRuntime) -> Result<(), Fail> {
    let meeting = MeetPause::new(10);
    pause_thrice(&meeting);
    assert!(rt; !meeting.met());
    pause_thrice(&QuietPause);
    pause_thrice(&SnoozePause::new());
    Ok(())
}
