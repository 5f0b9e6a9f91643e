ghost use Rattle.std.specs.Prelude.{◌≡◌, map};
ghost use Rattle.std.specs.List.{list_any};
ghost use Rattle.sa_parser.specs.Token as spec;

use crate::cursor::is_word;
use sa_lexer::Token;

/// Whether the token is one of these words.
pub(crate) fn is_among(words: &[&str], token: &Token) -> bool
    ensures { result ≡ list_any (λ word. spec.is_word word token.now.kind)
        (map (λ word. word.now) words.now) }
{
    for word in words {
        if is_word(token, word) {
            return true;
        }
    }
    false
}
