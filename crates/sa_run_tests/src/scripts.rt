//! Scripts for both ways.

/// Scripts with their names.
pub(crate) const SCRIPTS: [(&str, &str); 10] = [
    ("one SELECT", ONE),
    ("a SELECT that is looked into", LOOK),
    ("a wait, and then a look", WAIT),
    ("a SELECT that is killed, and one that isn't", KILL),
    ("a request of two turns", BUDGET),
    ("a session that is killed", SESSION),
    ("a request whose session is killed", ASKER),
    ("two sessions that look into each other", EACH_OTHER),
    ("a session alone with refusals", REFUSALS),
    ("four sessions that look at the next and kill it", RING),
];

const ONE: &str = "CREATE TABLE t (a INT); INSERT INTO t VALUES (1), (2), (3); \
    SESSION 1; SELECT a FROM t WHERE a >= 2;";

const LOOK: &str =
    "CREATE TABLE t (a INT); INSERT INTO t VALUES (5), (1), (9), (2), (7); QUANTUM 4; \
    SESSION 1; SELECT a FROM t WHERE a > 2; SESSION 2; SHOW ANALYZE FOR 1; \
    SCHEDULE 1 2 2 1 2 2 1;";

const WAIT: &str = "CREATE TABLE t (a INT); \
    INSERT INTO t VALUES (5), (1), (9), (2), (7), (3), (8); QUANTUM 4; \
    SESSION 1; SELECT a FROM t WHERE a > 2; SESSION 2; WAIT FOR 1 AT 8; SHOW ANALYZE FOR 1; \
    SCHEDULE 1 2 2 1 2 2 1 2 2 2 2 2 1 2 2;";

const KILL: &str =
    "CREATE TABLE t (a INT); INSERT INTO t VALUES (5), (1), (9), (2), (7); QUANTUM 4; \
    SESSION 1; SELECT a FROM t WHERE a > 2; SELECT a FROM t WHERE a > 2; \
    SESSION 2; KILL QUERY 1; SCHEDULE 1 1 2 2 1;";

const BUDGET: &str = "CREATE TABLE t (a INT); INSERT INTO t VALUES (5), (1), (9), (2), (7); \
    QUANTUM 4; TURNS 2; SESSION 1; SELECT a FROM t WHERE a > 2; \
    SESSION 2; SHOW ANALYZE FOR 1; SCHEDULE 1 2 2 2 2 2 2;";

const SESSION: &str = "CREATE TABLE t (a INT); INSERT INTO t VALUES (1), (2), (3); QUANTUM 1; \
    SESSION 1; SELECT a FROM t; SELECT a FROM t WHERE a > 1; SELECT a FROM t WHERE a > 2; \
    SESSION 2; KILL 1; SHOW ANALYZE FOR 1; SHOW ANALYZE FOR 99;";

const ASKER: &str = "CREATE TABLE t (a INT); INSERT INTO t VALUES (1), (2), (3); QUANTUM 4; \
    SESSION 1; SELECT a FROM t WHERE a >= 2; SESSION 2; SHOW ANALYZE FOR 1; \
    SESSION 3; KILL QUERY 2; SCHEDULE 1 2 2 2 3 3 2 2 2;";

const EACH_OTHER: &str =
    "CREATE TABLE t (a INT); INSERT INTO t VALUES (1), (NULL), (3); QUANTUM 1; \
    SESSION 1; SELECT a FROM t; SHOW ANALYZE FOR 2; SELECT a + 1 FROM t WHERE a IS NOT NULL; \
    SESSION 2; SELECT a FROM t; SHOW EXPLAIN FOR 1; SELECT a FROM t WHERE a IS NULL;";

const REFUSALS: &str = "CREATE TABLE t (a INT); INSERT INTO t VALUES (1), (2), (3); \
    SESSION 1; SELECT b FROM t; SET max_row_steps = 5; SELECT a FROM t WHERE a >= 2; \
    SET max_row_steps = 6; SELECT a FROM t WHERE a >= 2; SHOW ANALYZE FOR 1;";

const RING: &str =
    "CREATE TABLE t (a INT); INSERT INTO t VALUES (1), (2), (3), (4), (5); QUANTUM 1; \
    SESSION 1; SELECT a FROM t; SHOW ANALYZE FOR 2; KILL QUERY 2; SELECT a FROM t WHERE a < 3; \
    SESSION 2; SELECT a FROM t; SHOW ANALYZE FOR 3; KILL QUERY 3; SELECT a FROM t WHERE a < 3; \
    SESSION 3; SELECT a FROM t; SHOW ANALYZE FOR 4; KILL QUERY 4; SELECT a FROM t WHERE a < 3; \
    SESSION 4; SELECT a FROM t; SHOW ANALYZE FOR 1; KILL QUERY 1; SELECT a FROM t WHERE a < 3;";
