//! Kills.

use super::lines::prints_lines;
use super::*;

const STATEMENT: &str = r#"{"actor":1,"desk":1,"enabled":true,"event":"begin",.."statement":1,..
{"actor":2,"desk":1,"event":"kill_sent","kind":"query",..
{"actor":1,"desk":1,"event":"end",.."why":"Interrupted"},.."statement":1,"steps":6,..
{"actor":1,"desk":1,"enabled":true,"event":"begin",.."statement":2,..
{"actor":1,"desk":1,"event":"end",.."count":2,"kind":"rows"},..
{"row":[2]}
{"row":[3]}
{"actor":1,"desk":1,"event":"close",..
{"actor":2,"desk":2,"enabled":false,"event":"begin",..
{"actor":2,"desk":2,"event":"end","outcome":{"kind":"kill_sent"},..
{"actor":2,"desk":2,"event":"close",..
{"done":true}
"#;

const SESSION: &str = r#"{"actor":1,"desk":1,"enabled":true,"event":"begin",.."statement":1,..
{"actor":2,"desk":1,"event":"kill_sent","kind":"connection",..
{"actor":1,"desk":1,"event":"end",.."why":"Interrupted"},.."statement":1,"steps":6,..
{"actor":1,"desk":1,"event":"gone",.."statement":2,..
{"actor":1,"desk":1,"event":"close",..
{"actor":2,"desk":1,"event":"refused",.."statement":2,.."why":"NoSuchThread"}
{"actor":2,"desk":2,"enabled":false,"event":"begin",.."text":"KILL CONNECTION 1",..
{"actor":2,"desk":2,"event":"end","outcome":{"kind":"kill_sent"},..
{"actor":2,"desk":2,"enabled":false,"event":"begin",.."text":"SHOW ANALYZE FOR 1",..
{"actor":2,"desk":2,"event":"end","outcome":{"kind":"refused","why":"NoSuchThread"},..
{"actor":2,"desk":2,"enabled":false,"event":"begin",.."text":"SHOW ANALYZE FOR 99",..
{"actor":2,"desk":2,"event":"end","outcome":{"kind":"refused","why":"NoSuchThread"},..
{"actor":2,"desk":2,"event":"close",..
{"done":true}
"#;

const ASKER: &str = r#"{"actor":1,"desk":1,"enabled":true,"event":"begin",..
{"actor":2,"at":0,"budget":1000000,"desk":1,"event":"queued","kind":"analyze",..
{"actor":2,"desk":1,"event":"withdrawn",.."turn":5}
{"actor":1,"desk":1,"event":"end",.."count":2,"kind":"rows"},..
{"row":[2]}
{"row":[3]}
{"actor":1,"desk":1,"event":"close",..
{"actor":2,"desk":2,"enabled":false,"event":"begin",..
{"actor":3,"desk":2,"event":"kill_sent","kind":"query",..
{"actor":2,"desk":2,"event":"end",.."why":"Interrupted"},.."turn":6}
{"actor":2,"desk":2,"event":"close",..
{"actor":3,"desk":3,"enabled":false,"event":"begin",..
{"actor":3,"desk":3,"event":"end","outcome":{"kind":"kill_sent"},..
{"actor":3,"desk":3,"event":"close",..
{"done":true}
"#;

#[test]
fn tells_kills(rt: HostRuntime) -> Result<(), Fail> {
    let rows = [
        (
            "of a statement",
            "QUANTUM 4; SESSION 1; SELECT a FROM t WHERE a >= 2; SELECT a FROM t WHERE a >= 2; \
             SESSION 2; KILL QUERY 1; SCHEDULE 1 1 2 2 1",
            STATEMENT,
        ),
        (
            "of a session",
            "SESSION 1; SELECT a FROM t WHERE a >= 2; SELECT a FROM t WHERE a >= 2; \
             SESSION 2; KILL 1; SHOW ANALYZE FOR 1; SHOW ANALYZE FOR 99; SCHEDULE 1 2 2 2 1 1 1",
            SESSION,
        ),
        (
            "of a statement that asks",
            "QUANTUM 4; SESSION 1; SELECT a FROM t WHERE a >= 2; SESSION 2; SHOW ANALYZE FOR 1; \
             SESSION 3; KILL QUERY 2; SCHEDULE 1 2 2 2 3 3 2 2 2",
            ASKER,
        ),
    ];
    for (name, sessions, wanted) in rows {
        prints_lines(&rt, rt.alloc(), name, sessions, wanted)?;
    }
    Ok(())
}
