//! Requests for a plan or for counters, and waits.

use super::lines::prints_lines;
use super::*;

const SERVED_AT_END: &str = r#"{"actor":1,"desk":1,"enabled":true,"event":"begin",..
{"actor":2,"at":4,"budget":1000000,"desk":1,"event":"queued","kind":"analyze",..
{"actor":1,"asker":2,"desk":1,"event":"served",.."sent":2,.."steps":6,..
{"actor":1,"desk":1,"event":"end",.."count":2,"kind":"rows"},..
{"row":[2]}
{"row":[3]}
{"actor":2,"desk":1,"event":"taken",..
{"actor":1,"desk":1,"event":"close",..
{"actor":2,"desk":2,"enabled":false,"event":"begin",..
{"actor":2,"desk":2,"event":"end",.."r_total_passed":2,"r_total_rows":3,.."kind":"shown"},..
{"actor":2,"desk":2,"event":"close",..
{"done":true}
"#;

const NOT_EXPLAINABLE: &str = r#"{"actor":2,"desk":1,"event":"refused",.."why":"NotExplainable"}
{"actor":1,"desk":1,"enabled":true,"event":"begin",..
{"actor":1,"desk":1,"event":"end",.."count":2,"kind":"rows"},..
{"row":[2]}
{"row":[3]}
{"actor":1,"desk":1,"event":"close",..
{"actor":2,"desk":2,"enabled":false,"event":"begin",.."text":"SHOW EXPLAIN FOR 1",..
{"actor":2,"desk":2,"event":"end","outcome":{"kind":"refused","why":"NotExplainable"},..
{"actor":2,"desk":2,"enabled":false,"event":"begin",.."text":"SHOW EXPLAIN FOR 2",..
{"actor":2,"desk":2,"event":"refused",.."why":"NotExplainable"}
{"actor":2,"desk":2,"event":"end","outcome":{"kind":"refused","why":"NotExplainable"},..
{"actor":2,"desk":2,"event":"close",..
{"done":true}
"#;

const TIMED_OUT: &str = r#"{"actor":1,"desk":1,"enabled":true,"event":"begin",..
{"actor":2,"at":0,"budget":2,"desk":1,"event":"queued","kind":"analyze",..
{"actor":2,"desk":1,"event":"spent","seq":3,"statement":1,"turn":5,"turns":2}
{"actor":1,"desk":1,"event":"end",.."count":2,"kind":"rows"},..
{"row":[2]}
{"row":[3]}
{"actor":1,"desk":1,"event":"close",..
{"actor":2,"desk":2,"enabled":false,"event":"begin",..
{"actor":2,"desk":2,"event":"end","outcome":{"kind":"refused","turns":2,"why":"TimedOut"},.."turn":6}
{"actor":2,"desk":2,"event":"close",..
{"done":true}
"#;

const OLDEST_FIRST: &str = r#"{"actor":1,"desk":1,"enabled":true,"event":"begin",..
{"actor":3,"at":0,"budget":1000000,"desk":1,"event":"queued","kind":"analyze",..
{"actor":2,"at":0,"budget":1000000,"desk":1,"event":"queued","kind":"analyze",..
{"actor":1,"asker":3,"desk":1,"event":"served","report":{"sent":1,"statement":1,"steps":4,..
{"actor":1,"asker":2,"desk":1,"event":"served","report":{"sent":1,"statement":1,"steps":4,..
{"actor":1,"desk":1,"event":"end",.."count":2,"kind":"rows"},..
{"row":[2]}
{"row":[3]}
{"actor":2,"desk":1,"event":"taken",..
{"actor":3,"desk":1,"event":"taken",..
{"actor":1,"desk":1,"event":"close",..
{"actor":2,"desk":2,"enabled":false,"event":"begin",..
{"actor":2,"desk":2,"event":"end",.."r_steps":4,.."kind":"shown"},..
{"actor":2,"desk":2,"event":"close",..
{"actor":3,"desk":3,"enabled":false,"event":"begin",..
{"actor":3,"desk":3,"event":"end",.."r_steps":4,.."kind":"shown"},..
{"actor":3,"desk":3,"event":"close",..
{"done":true}
"#;

const WAITED: &str = r#"{"actor":1,"desk":1,"enabled":true,"event":"begin",..
{"actor":2,"desk":1,"event":"waited","seq":2,"statement":1,"steps":4,"turn":4}
{"actor":1,"desk":1,"event":"end",.."count":2,"kind":"rows"},..
{"row":[2]}
{"row":[3]}
{"actor":1,"desk":1,"event":"close",..
{"actor":2,"desk":2,"enabled":false,"event":"begin",..
{"actor":2,"desk":2,"event":"end","outcome":{"kind":"waited","steps":4},.."turn":5}
{"actor":2,"desk":2,"event":"close",..
{"done":true}
"#;

#[test]
fn tells_requests_and_waits(rt: HostRuntime) -> Result<(), Fail> {
    let rows = [
        (
            "served at the end",
            "QUANTUM 4; SESSION 1; SELECT a FROM t WHERE a >= 2; SESSION 2; SHOW ANALYZE FOR 1; \
             SCHEDULE 1 1 2 2 1 2 2",
            SERVED_AT_END,
        ),
        (
            "nothing to show, of another and of oneself",
            "SESSION 1; SELECT a FROM t WHERE a >= 2; \
             SESSION 2; SHOW EXPLAIN FOR 1; SHOW EXPLAIN FOR 2; SCHEDULE 2 2 2 2 2 2",
            NOT_EXPLAINABLE,
        ),
        (
            "the turns are spent",
            "QUANTUM 4; TURNS 2; SESSION 1; SELECT a FROM t WHERE a >= 2; \
             SESSION 2; SHOW ANALYZE FOR 1; SCHEDULE 1 2 2 2 2 2 2",
            TIMED_OUT,
        ),
        (
            "the oldest of two is served first",
            "QUANTUM 4; SESSION 1; SELECT a FROM t WHERE a >= 2; SESSION 2; SHOW ANALYZE FOR 1; \
             SESSION 3; SHOW ANALYZE FOR 1; SCHEDULE 1 3 3 2 2 1",
            OLDEST_FIRST,
        ),
        (
            "a wait sees its step",
            "QUANTUM 4; SESSION 1; SELECT a FROM t WHERE a >= 2; SESSION 2; WAIT FOR 1 AT 4; \
             SCHEDULE 1 2 2 1 2 2 2",
            WAITED,
        ),
    ];
    for (name, sessions, wanted) in rows {
        prints_lines(&rt, rt.alloc(), name, sessions, wanted)?;
    }
    Ok(())
}
