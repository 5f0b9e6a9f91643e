ghost use Rattle.std.specs.Prelude.{◌≡◌, ◌+◌, ◌<◌, ◌^◌, length};
ghost use Rattle.sa_lexer.specs.declared.first.FirstToken.{FirstToken as Told};
ghost use Rattle.sa_lexer.specs.First.{IsFirst};
ghost use Rattle.sa_script.specs.Piece.{kind_at, is_one_of, directive_words, ordering_words};

use crate::piece::Piece;
use crate::said::Stage;
use sa_lexer::{FirstToken, first_token};

/// What a piece of a script is.
#[derive(Clone, Copy, Debug, PartialEq, Eq)]
pub(crate) enum Kind {
    /// White space and comments alone.
    Blank,
    Directive,
    /// A statement that sets tables up.
    Setup,
    /// A statement of a session.
    Statement,
    /// It stands behind SCHEDULE, with its first token here.
    Late { place: usize },
}

/// What a piece is at a stage of its script.
pub(crate) fn kind_of(stage: Stage, piece: &Piece<'_>) -> Kind
    requires { piece.now.place + length piece.now.text < 2 ^ 64 }
    ensures { (first : Told) × IsFirst piece.now.text first × (result ≡ kind_at stage piece.now first) }
{
    let (start, word) = match first_token(piece.text()) {
        FirstToken::Nothing => return Kind::Blank,
        FirstToken::Word { start, end } => (start, &piece.text()[start..end]),
        FirstToken::Other { start } => (start, ""),
    };
    match stage {
        Stage::SetUp if begins_directive(word) => Kind::Directive,
        Stage::SetUp => Kind::Setup,
        Stage::InSession if begins_order(word) => Kind::Directive,
        Stage::InSession => Kind::Statement,
        Stage::Scheduled => Kind::Late {
            place: piece.place() + start,
        },
    }
}

/// Whether a word begins a directive while tables are set up.
fn begins_directive(word: &str) -> bool
    ensures { result ≡ is_one_of directive_words word.now }
{
    word.eq_ignore_ascii_case("QUANTUM")
        || word.eq_ignore_ascii_case("TURNS")
        || word.eq_ignore_ascii_case("LOAD")
        || begins_order(word)
}

/// Whether a word begins a session or the schedule.
fn begins_order(word: &str) -> bool
    ensures { result ≡ is_one_of ordering_words word.now }
{
    word.eq_ignore_ascii_case("SESSION") || word.eq_ignore_ascii_case("SCHEDULE")
}
