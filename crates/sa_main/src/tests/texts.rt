//! Scripts, and the whole outputs of some.

/// A table of three rows.
pub(crate) const TABLE: &str = "CREATE TABLE t (a INT); INSERT INTO t VALUES (1), (2), (3);";

/// What follows the journals.
pub(crate) const DONE: &str = "{\"done\":true}\n";

/// One session runs a SELECT.
pub(crate) const SELECT: &str = "SESSION 1; SELECT a FROM t WHERE a >= 2";

pub(crate) const SELECT_OUTPUT: &str =
    r#"{"actor":1,"desk":1,"enabled":true,"event":"begin","seq":1,"statement":1,"text":"SELECT a FROM t WHERE (a >= 2)","turn":1,"version":0}
{"actor":1,"desk":1,"event":"end","outcome":{"columns":["a"],"count":2,"kind":"rows"},"seq":2,"statement":1,"steps":6,"turn":2}
{"row":[2]}
{"row":[3]}
{"actor":1,"desk":1,"event":"close","seq":3,"turn":3}
{"done":true}
"#;

/// A session asks for the counters of another's SELECT, which serves it in the middle of its run.
pub(crate) const SERVED: &str = "QUANTUM 4; SESSION 1; SELECT a FROM t WHERE a >= 2; \
    SESSION 2; SHOW ANALYZE FOR 1; SCHEDULE 1 2 2 1 2 2 1";

pub(crate) const SERVED_OUTPUT: &str =
    r#"{"actor":1,"desk":1,"enabled":true,"event":"begin","seq":1,"statement":1,"text":"SELECT a FROM t WHERE (a >= 2)","turn":1,"version":0}
{"actor":2,"at":0,"budget":1000000,"desk":1,"event":"queued","kind":"analyze","seq":2,"statement":1,"turn":2}
{"actor":1,"asker":2,"desk":1,"event":"served","report":{"sent":1,"statement":1,"steps":4,"tables":[{"loops":1,"passed":1,"rows":2}]},"request":1,"seq":2,"turn":2}
{"actor":2,"desk":1,"event":"taken","seq":3,"statement":1,"turn":3}
{"actor":1,"desk":1,"event":"end","outcome":{"columns":["a"],"count":2,"kind":"rows"},"seq":3,"statement":1,"steps":6,"turn":3}
{"row":[2]}
{"row":[3]}
{"actor":1,"desk":1,"event":"close","seq":4,"turn":4}
{"actor":2,"desk":2,"enabled":false,"event":"begin","seq":1,"statement":1,"text":"SHOW ANALYZE FOR 1","turn":1,"version":0}
{"actor":2,"desk":2,"event":"end","outcome":{"document":{"query_block":{"cost":"35","nested_loop":[{"table":{"access_type":"ALL","attached_condition":"(t.a >= 2)","r_filtered":"50.00","r_loops":1,"r_rows":"2.00","r_total_passed":1,"r_total_rows":2,"rows":3,"table_name":"t"}}],"r_sent":1,"r_steps":4,"select_id":1}},"kind":"shown"},"seq":4,"statement":1,"steps":0,"turn":4}
{"actor":2,"desk":2,"event":"close","seq":5,"turn":5}
{"done":true}
"#;
