//! The same scripts on threads and by their schedules.

use crate::answers::are_same;
use crate::journals::{are_answered, are_killed, are_numbered};
use crate::program::{run, step};
use crate::scripts::SCRIPTS;
use sa_source::SnoozePause;
use std::test::Fail;

/// How often each script runs on threads.
const TIMES: u32 = 30;

#[test]
fn threads_give_the_answers_of_the_schedule(rt: HostRuntime) -> Result<(), Fail> {
    let pause = SnoozePause::new();
    for (name, script) in SCRIPTS {
        let stepped = step(rt.alloc(), script)?;
        for time in 0..TIMES {
            let journals = run(&rt, rt.alloc(), &pause, script)?;
            assert!(rt; are_same(&stepped, &journals), "{name}, time {time}");
            assert!(rt; are_numbered(&journals), "{name}, time {time}");
            for journal in journals.as_slice() {
                assert!(rt; are_answered(journal), "{name}, time {time}");
                assert!(rt; are_killed(journal), "{name}, time {time}");
            }
        }
    }
    Ok(())
}

#[test]
fn no_session_has_no_journal(rt: HostRuntime) -> Result<(), Fail> {
    let journals = run(
        &rt,
        rt.alloc(),
        &SnoozePause::new(),
        "CREATE TABLE t (a INT);",
    )?;
    assert!(rt; journals.is_empty());
    Ok(())
}
