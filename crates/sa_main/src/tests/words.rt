//! The words of the command line.

use super::texts::{SERVED, SERVED_OUTPUT, TABLE};
use super::*;
use sa_source::QuietPause;

#[test]
fn the_word_step_runs_the_schedule(rt: HostRuntime) -> Result<(), Fail> {
    let script = format!(in rt.alloc(); "{TABLE} {SERVED}")?;
    let (status, sink) = main_plain(&rt, rt.alloc(), &["step"], script.into_bytes(), &QuietPause)?;
    assert_eq!(rt; status, 0);
    assert_eq!(rt; text_of(&sink)?, SERVED_OUTPUT);
    Ok(())
}

#[test]
fn other_words_touch_nothing(rt: HostRuntime) -> Result<(), Fail> {
    let lines: [&[&str]; 6] = [
        &[],
        &["runs"],
        &["step", "x"],
        &["STEP"],
        &["run", "run"],
        &[""],
    ];
    for line in lines {
        let words = words_of(rt.alloc(), line)?;
        let mut source = PlainSource::new(Vec::from_slice(rt.alloc(), TABLE.as_bytes())?);
        let mut sink = PlainSink::new(rt.alloc());
        let status = analyze_main(&rt, rt.alloc(), &words, &mut source, &mut sink, &QuietPause);
        assert_eq!(rt; status, 2, "{words:?}");
        assert!(rt; sink.taken().is_empty(), "{words:?}");
    }
    Ok(())
}
