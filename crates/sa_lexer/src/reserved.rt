ghost use Rattle.std.specs.Prelude.{◌≡◌, map};
ghost use Rattle.std.specs.List.{list_any};
ghost use Rattle.std.specs.Str.{str_eq_ignore_ascii_case};
ghost use Rattle.sa_lexer.specs.Reserved.{is_reserved};

/// The words that are names only in backquotes.
///
/// Source: MariaDB Knowledge Base, "Reserved Words"; the list is this project's.
const RESERVED_WORDS: [&str; 59] = [
    "ALL",
    "AND",
    "AS",
    "ASC",
    "BETWEEN",
    "BY",
    "CASE",
    "CREATE",
    "CROSS",
    "DELETE",
    "DESC",
    "DISTINCT",
    "DIV",
    "EXCEPT",
    "EXISTS",
    "FALSE",
    "FOR",
    "FROM",
    "FULL",
    "GROUP",
    "HAVING",
    "IN",
    "INDEX",
    "INNER",
    "INSERT",
    "INTERSECT",
    "INTO",
    "IS",
    "JOIN",
    "KEY",
    "LEFT",
    "LIKE",
    "LIMIT",
    "MOD",
    "NATURAL",
    "NOT",
    "NULL",
    "OFFSET",
    "ON",
    "OR",
    "ORDER",
    "OVER",
    "PRIMARY",
    "REGEXP",
    "RIGHT",
    "RLIKE",
    "SELECT",
    "SET",
    "STRAIGHT_JOIN",
    "TRUE",
    "UNION",
    "UNIQUE",
    "UPDATE",
    "USING",
    "VALUES",
    "WHERE",
    "WINDOW",
    "WITH",
    "XOR",
];

/// Whether a word is a name only in backquotes. Letters of both cases are the same.
#[tactic(auto, unfolding(crate::specs::Reserved::is_reserved))]
pub fn is_reserved(word: &str) -> bool
    ensures { result ≡ is_reserved word.now }
{
    is_among(&RESERVED_WORDS, word)
}

/// Whether one of these words is the word but for the case of letters.
fn is_among(words: &[&str], word: &str) -> bool
    ensures { result ≡ list_any (λ reserved. str_eq_ignore_ascii_case reserved word.now)
        (map (λ reserved. reserved.now) words.now) }
{
    for reserved in words {
        if reserved.eq_ignore_ascii_case(word) {
            return true;
        }
    }
    false
}
