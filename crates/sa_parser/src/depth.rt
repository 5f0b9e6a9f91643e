//! How deep the tokens of a statement go.

ghost use Rattle.std.specs.Prelude.{◌≡◌, ◌+◌, ◌<◌, ◌≤◌, ◌∷◌, ◌↔◌, ◌||◌, IsTrue, codes, is_some};
ghost use Rattle.sa_parser.specs.inner.Answer.{IsFirstTooDeep};
ghost use Rattle.sa_parser.specs.Depth as spec;
ghost use Rattle.sa_parser.specs.Token.{is_word};
ghost use Rattle.sa_parser.specs.Tree.{atom_of};

use crate::cursor::{is_sign, is_word, name_of};
use crate::words::is_among;
use arrayvec::ArrayVec;
use sa_lexer::{Sign, Token, TokenKind};
use std::marker::Model;

/// The most levels of a statement.
const MOST_LEVELS: usize = 64;

/// The words that begin afresh.
const CLAUSE_WORDS: [&str; 9] = [
    "AND", "OR", "FROM", "ON", "WHERE", "GROUP", "HAVING", "ORDER", "LIMIT",
];

/// The place of the first token that goes too deep.
pub(crate) fn first_too_deep(tokens: &[Token]) -> Option<usize>
    ensures { IsFirstTooDeep tokens.now result }
{
    let mut levels = Levels::new();
    for (place, token) in tokens.iter().enumerate() {
        levels.count(token);
        if levels.is_too_deep() {
            return Some(place);
        }
    }
    None
}

/// What the tokens so far have come to.
#[derive(Drop)]
struct Levels {
    depth: usize,
    /// The depth in front of each open bracket, the innermost last.
    opened: ArrayVec<usize, 65>,
    /// Whether the last token ends an operand.
    operand: bool,
    /// Whether SELECT was among them.
    selected: bool,
}

impl Model for Levels {
    ghost use Rattle.std.specs.Prelude.{reverse};
    ghost use Rattle.sa_parser.specs.Depth.{Depth};
    ghost use Rattle.sa_parser.specs.inner.Levels.{Nests};

    ghost Value = { Depth };

    ghost view = { λ levels. record {
      depth = levels.depth;
      opened = reverse levels.opened.items;
      operand = levels.operand;
      selected = levels.selected;
    } };

    ghost invariant = { λ levels. Nests levels.depth (reverse levels.opened.items) };
}

impl Levels {
    /// What no tokens come to.
    fn new() -> Levels
        ensures { result ≡ spec.at_first }
    {
        Levels {
            depth: 0,
            opened: ArrayVec::new(),
            operand: false,
            selected: false,
        }
    }

    /// Whether that is deeper than a statement may go.
    fn is_too_deep(&self) -> bool
        ensures { IsTrue result ↔ (spec.most_levels < self.now.depth) }
    {
        self.depth > MOST_LEVELS
    }

    /// Counts one more token.
    #[tactic(auto, unfolding(crate::specs::Depth::with_token))]
    fn count(&mut self, token: &Token)
        requires { self.old.depth ≤ spec.most_levels }
        ensures { self.new ≡ spec.with_token self.old token.now }
    {
        let selected = self.has_selected(token);
        self.nest(token);
        self.operand = ends_operand(token);
        self.selected = selected;
    }

    /// Whether SELECT was among the tokens, with this one.
    fn has_selected(&self, token: &Token) -> bool
        ensures { result ≡ (self.now.selected || is_word (codes "SELECT") token.now.kind) }
    {
        self.selected || is_word(token, "SELECT")
    }

    /// Goes to the depth with one more token.
    fn nest(&mut self, token: &Token)
        requires { self.old.depth ≤ spec.most_levels }
        ensures { self.new ≡ spec.counted self.old token.now.kind }
    {
        if is_sign(token, Sign::LeftParen) {
            self.open();
        } else if is_sign(token, Sign::RightParen) {
            self.close();
        } else if begins_afresh(token) {
            self.begin_afresh();
        } else if self.is_deepened_by(token) {
            self.deepen();
        }
    }

    /// A bracket opens.
    fn open(&mut self)
        requires { self.old.depth ≤ spec.most_levels }
        ensures { self.new ≡ record self.old {
          depth = self.old.depth + 1;
          opened = self.old.depth ∷ self.old.opened;
        } }
    {
        self.opened.push(self.depth);
        self.depth += 1;
    }

    /// A bracket closes.
    fn close(&mut self)
        ensures { self.new ≡ spec.closed self.old.opened self.old }
    {
        self.depth = self.opened.pop().unwrap_or(0);
    }

    /// Goes back to the depth that the innermost open bracket has made.
    fn begin_afresh(&mut self)
        ensures { self.new ≡ record self.old { depth = spec.depth_within self.old.opened } }
    {
        self.depth = match self.opened.last() {
            Some(before) => *before + 1,
            None => 0,
        };
    }

    /// Goes one level deeper.
    fn deepen(&mut self)
        requires { self.old.depth ≤ spec.most_levels }
        ensures { self.new ≡ record self.old { depth = self.old.depth + 1 } }
    {
        self.depth += 1;
    }

    /// Whether this token goes one level deeper, and no bracket does.
    fn is_deepened_by(&self, token: &Token) -> bool
        ensures { result ≡ spec.deepens self.now token.now.kind }
    {
        is_word(token, "NOT")
            || is_sign(token, Sign::Plus)
            || is_sign(token, Sign::Minus)
            || (self.operand && is_sign(token, Sign::Star))
            || compares(token, self.has_comparisons())
    }

    /// Whether an `=` compares here: SELECT was among the tokens, or a bracket is open.
    fn has_comparisons(&self) -> bool
        ensures { result ≡ spec.has_comparisons self.now }
    {
        self.selected || !self.opened.is_empty()
    }
}

/// Whether a token begins afresh.
fn begins_afresh(token: &Token) -> bool
    ensures { result ≡ spec.begins_afresh token.now.kind }
{
    is_sign(token, Sign::Comma) || is_sign(token, Sign::AndAnd) || is_among(&CLAUSE_WORDS, token)
}

/// Whether a token compares, where an `=` does or doesn't.
fn compares(token: &Token, equal: bool) -> bool
    ensures { result ≡ spec.compares equal token.now.kind }
{
    match &token.kind {
        TokenKind::Sign(Sign::Equal) => equal,
        TokenKind::Sign(
            Sign::NullSafeEqual
            | Sign::NotEqual
            | Sign::BangEqual
            | Sign::Less
            | Sign::LessEqual
            | Sign::Greater
            | Sign::GreaterEqual,
        ) => true,
        _ => false,
    }
}

/// Whether an operand can end with this token.
fn ends_operand(token: &Token) -> bool
    ensures { result ≡ spec.ends_operand token.now.kind }
{
    name_of(token).is_some() || is_atom(token) || is_sign(token, Sign::RightParen)
}

/// Whether a token is an expression by itself.
#[tactic(auto, unfolding(crate::specs::Tree::atom_of))]
fn is_atom(token: &Token) -> bool
    ensures { result ≡ is_some (atom_of token.now.kind) }
{
    match &token.kind {
        TokenKind::Number(number) => i128::try_from(*number).is_ok(),
        TokenKind::Text(_) => true,
        TokenKind::Word(_) => {
            is_word(token, "NULL") || is_word(token, "TRUE") || is_word(token, "FALSE")
        }
        _ => false,
    }
}
