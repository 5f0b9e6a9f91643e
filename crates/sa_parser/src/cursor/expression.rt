//! The tokens of expressions.

ghost use Rattle.std.specs.Prelude.{◌≡◌, IfOk};
ghost use Rattle.sa_parser.specs.Tree as spec;
ghost use Rattle.sa_parser.specs.inner.Reading as reading;
ghost use Rattle.sa_parser.specs.inner.ExprReading as expressions;
ghost use Rattle.sa_parser.specs.inner.Reads.{Reads};

use crate::cursor::{Cursor, is_sign, is_word};
use crate::fault::ReadFault;
use crate::tree::tree;
use sa_ast::{AggregateCall, ExprNode, ExprTree};
use sa_lexer::{Sign, Token, TokenKind};
use sa_value::{CompareOp, OutOfMemory};
use sqlite_items::Boxed;
use std::alloc::Global;

impl<'a> Cursor<'a> {
    /// The next token, which has to be an expression by itself: a number, a text, NULL, TRUE or
    /// FALSE.
    #[tactic(auto, unfolding(crate::specs::inner::Reading::one))]
    pub(crate) fn atom(&mut self, alloc: Global) -> Result<Boxed<ExprTree>, ReadFault>
        ensures { Reads (reading.one spec.atom_in self.old) result self.new }
    {
        let [token, rest @ ..] = self.rest else {
            return Err(self.refuse());
        };
        let Some(atom) = atom(alloc, token)? else {
            return Err(self.refuse());
        };
        self.rest = rest;
        Ok(atom)
    }

    /// The place of the next token and the aggregate that it names, one with an argument.
    #[tactic(auto, unfolding(crate::specs::inner::Reading::one))]
    pub(crate) fn aggregate(&mut self) -> Result<(usize, AggregateCall), ReadFault>
        ensures { Reads (reading.one spec.aggregate_in self.old) result self.new }
    {
        let [token, rest @ ..] = self.rest else {
            return Err(self.refuse());
        };
        let Some(call) = aggregate_of(token) else {
            return Err(self.refuse());
        };
        self.rest = rest;
        Ok((token.start, call))
    }

    /// Whether the name of an aggregate comes next, and a bracket behind it.
    #[tactic(auto, unfolding(crate::specs::inner::ExprReading::sees_call))]
    pub(crate) fn sees_call(&self) -> bool
        ensures { result ≡ expressions.sees_call self.now }
    {
        match self.rest {
            [first, second, ..] => {
                (is_word(first, "COUNT") || aggregate_of(first).is_some())
                    && is_sign(second, Sign::LeftParen)
            }
            _ => false,
        }
    }

    /// Whether the next token is a minus, and its place. It has to be a plus or a minus.
    #[tactic(auto, unfolding(crate::specs::inner::Reading::one, crate::specs::Tree::additive_in))]
    pub(crate) fn additive(&mut self) -> Result<(bool, usize), ReadFault>
        ensures { Reads (reading.one spec.additive_in self.old) result self.new }
    {
        match self.rest {
            [token, rest @ ..] if is_sign(token, Sign::Plus) => {
                self.rest = rest;
                Ok((false, token.start))
            }
            [token, rest @ ..] if is_sign(token, Sign::Minus) => {
                self.rest = rest;
                Ok((true, token.start))
            }
            _ => Err(self.refuse()),
        }
    }

    /// Whether a plus or a minus comes next.
    pub(crate) fn sees_additive(&self) -> bool
        ensures { result ≡ expressions.sees_additive self.now }
    {
        self.sees_sign(Sign::Plus) || self.sees_sign(Sign::Minus)
    }

    /// The comparison that the next token has to be, and its place.
    #[tactic(auto, unfolding(crate::specs::inner::Reading::one))]
    pub(crate) fn comparison(&mut self) -> Result<(CompareOp, usize), ReadFault>
        ensures { Reads (reading.one spec.comparison_in self.old) result self.new }
    {
        let [token, rest @ ..] = self.rest else {
            return Err(self.refuse());
        };
        let Some(op) = comparison_of(token) else {
            return Err(self.refuse());
        };
        self.rest = rest;
        Ok((op, token.start))
    }

    /// Whether the next token is a comparison.
    #[tactic(auto, unfolding(crate::specs::inner::ExprReading::sees_comparison))]
    pub(crate) fn sees_comparison(&self) -> bool
        ensures { result ≡ expressions.sees_comparison self.now }
    {
        match self.rest {
            [token, ..] => comparison_of(token).is_some(),
            [] => false,
        }
    }

    /// Whether a predicate goes on.
    pub(crate) fn sees_predicate(&self) -> bool
        ensures { result ≡ expressions.sees_predicate self.now }
    {
        self.sees_comparison()
            || self.sees_word("IS")
            || self.sees_word("NOT")
            || self.sees_word("BETWEEN")
            || self.sees_word("IN")
    }

    /// Whether AND comes next, as a word or as a sign.
    pub(crate) fn sees_and(&self) -> bool
        ensures { result ≡ expressions.sees_and self.now }
    {
        self.sees_word("AND") || self.sees_sign(Sign::AndAnd)
    }

    /// The place of the next token, which has to be AND, as a word or as a sign.
    #[tactic(auto, unfolding(crate::specs::inner::Reading::either))]
    pub(crate) fn and_mark(&mut self) -> Result<usize, ReadFault>
        ensures { Reads (expressions.and_mark self.old) result self.new }
    {
        if self.sees_word("AND") {
            self.word("AND")
        } else {
            self.sign(Sign::AndAnd)
        }
    }
}

/// The expression that a token is by itself.
#[tactic(auto, unfolding(crate::specs::Tree::atom_of))]
fn atom(alloc: Global, token: &Token) -> Result<Option<Boxed<ExprTree>>, OutOfMemory>
    ensures { IfOk result (λ tree. tree ≡ spec.atom_in token.now) }
{
    let node = match &token.kind {
        TokenKind::Number(number) => match i128::try_from(*number) {
            Ok(number) => ExprNode::Number(number),
            Err(_) => return Ok(None),
        },
        TokenKind::Text(text) => ExprNode::Text(text.copy(alloc)?),
        TokenKind::Word(_) if is_word(token, "NULL") => ExprNode::Null,
        TokenKind::Word(_) if is_word(token, "TRUE") => ExprNode::Known(true),
        TokenKind::Word(_) if is_word(token, "FALSE") => ExprNode::Known(false),
        _ => return Ok(None),
    };
    Ok(Some(tree(alloc, token.start, node)?))
}

/// The aggregate with an argument that a token names.
#[tactic(auto, unfolding(crate::specs::Tree::aggregate_of))]
fn aggregate_of(token: &Token) -> Option<AggregateCall>
    ensures { result ≡ spec.aggregate_of token.now.kind }
{
    if is_word(token, "SUM") {
        Some(AggregateCall::Sum)
    } else if is_word(token, "MIN") {
        Some(AggregateCall::Min)
    } else if is_word(token, "MAX") {
        Some(AggregateCall::Max)
    } else {
        None
    }
}

/// The comparison that a token is. `!=` is `<>`.
fn comparison_of(token: &Token) -> Option<CompareOp>
    ensures { result ≡ spec.comparison_of token.now.kind }
{
    Some(match &token.kind {
        TokenKind::Sign(Sign::Equal) => CompareOp::Eq,
        TokenKind::Sign(Sign::NullSafeEqual) => CompareOp::NullEq,
        TokenKind::Sign(Sign::NotEqual | Sign::BangEqual) => CompareOp::Ne,
        TokenKind::Sign(Sign::Less) => CompareOp::Lt,
        TokenKind::Sign(Sign::LessEqual) => CompareOp::Le,
        TokenKind::Sign(Sign::Greater) => CompareOp::Gt,
        TokenKind::Sign(Sign::GreaterEqual) => CompareOp::Ge,
        _ => return None,
    })
}
