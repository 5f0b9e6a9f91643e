ghost use Rattle.std.specs.Prelude.{◌≡◌, ◌≤◌, length, take, drop, Err, Some, IfOk, IfErr, OnOk};
ghost use Rattle.sa_parser.specs.inner.Answer.{IsFirstTooDeep, TellsFault};
ghost use Rattle.sa_parser.specs.Depth.{StaysFlat};
ghost use Rattle.sa_parser.specs.Fault as fault;
ghost use Rattle.sa_parser.specs.inner.Grammar.{form_of};
ghost use Rattle.sa_parser.specs.Parse.{IsStatement, IsSetup, IsDirective, IsAnswer, SetsUp};
ghost use Rattle.sa_print.specs.Statement.{HasText};

use crate::answer::ParseFault;
use crate::cursor::is_sign;
use crate::depth::first_too_deep;
use crate::grammar::Grammar;
use crate::judgement::{Judgement, judge_directive, judge_setup, judge_statement};
use crate::kind::is_unsupported;
use crate::lent::Lent;
use sa_ast::{Directive, Statement};
use sa_lexer::{Sign, Token, Tokens};
use sa_value::OutOfMemory;
use std::alloc::Global;

/// The tree of a statement of a session.
///
/// # Errors
///
/// The first fault of the tokens: the first token with which they begin no statement, or that goes
/// 65 levels deep, or the end where some are missing.
pub fn parse(alloc: Global, tokens: &Tokens) -> Result<Statement, ParseFault>
    ensures answer { IsAnswer IsStatement tokens.now result }
    // It has a canonical text.
    ensures text { IfOk result HasText }
{
    let tokens = tokens.as_slice();
    stays_flat(alloc, Grammar::Session, tokens)?;
    let judgement = judge_statement(alloc, &Lent::of(alloc, tokens)?)?;
    match judgement {
        Judgement::Whole(tree) => Ok(tree),
        Judgement::Faulty(count) => Err(fault_behind(alloc, Grammar::Session, tokens, count)?),
    }
}

/// The tree of a statement that sets tables up: a CREATE TABLE or an INSERT.
///
/// # Errors
///
/// Those of [`parse`].
pub fn parse_setup(alloc: Global, tokens: &Tokens) -> Result<Statement, ParseFault>
    ensures answer { IsAnswer IsSetup tokens.now result }
    ensures sets_up { IfOk result SetsUp }
{
    let tokens = tokens.as_slice();
    stays_flat(alloc, Grammar::Setup, tokens)?;
    let judgement = judge_setup(alloc, &Lent::of(alloc, tokens)?)?;
    match judgement {
        Judgement::Whole(tree) => Ok(tree),
        Judgement::Faulty(count) => Err(fault_behind(alloc, Grammar::Setup, tokens, count)?),
    }
}

/// The tree of a directive of a script.
///
/// # Errors
///
/// Those of [`parse`], where no directive begins so.
pub fn parse_directive(alloc: Global, tokens: &Tokens) -> Result<Directive, ParseFault>
    ensures { IsAnswer IsDirective tokens.now result }
{
    let tokens = tokens.as_slice();
    stays_flat(alloc, Grammar::Script, tokens)?;
    let judgement = judge_directive(alloc, &Lent::of(alloc, tokens)?)?;
    match judgement {
        Judgement::Whole(tree) => Ok(tree),
        Judgement::Faulty(count) => Err(fault_behind(alloc, Grammar::Script, tokens, count)?),
    }
}

/// That no token goes too deep. Else the fault is that, or one before it.
fn stays_flat(alloc: Global, grammar: Grammar, tokens: &[Token]) -> Result<(), ParseFault>
    ensures flat { OnOk result (StaysFlat tokens.now) }
    ensures deep { IfErr result (λ fault. IsAnswer (form_of grammar) tokens.now (Err fault)) }
{
    match first_too_deep(tokens) {
        None => Ok(()),
        Some(place) => Err(fault_up_to(alloc, grammar, tokens, place)?),
    }
}

/// The fault of tokens of which the one at `place` goes too deep: that, or one before it. A star
/// goes too deep only where it may stand.
fn fault_up_to(
    alloc: Global,
    grammar: Grammar,
    tokens: &[Token],
    place: usize,
) -> Result<ParseFault, OutOfMemory>
    requires { IsFirstTooDeep tokens.now (Some place) }
    ensures { IfOk result (λ fault. IsAnswer (form_of grammar) tokens.now (Err fault)) }
{
    let token = &tokens[place];
    let judged = if is_sign(token, Sign::Star) {
        place + 1
    } else {
        place
    };
    let first = grammar.first_faulty(alloc, &Lent::of(alloc, &tokens[..judged])?)?;
    match first {
        None => Ok(ParseFault::TooDeep { place: token.start }),
        Some(count) => fault_behind(alloc, grammar, tokens, count),
    }
}

/// The fault that stands behind the first `count` tokens.
fn fault_behind(
    alloc: Global,
    grammar: Grammar,
    tokens: &[Token],
    count: usize,
) -> Result<ParseFault, OutOfMemory>
    requires { count ≤ length tokens.now }
    ensures { IfOk result
        (TellsFault (form_of grammar) (take count tokens.now) (drop count tokens.now)) }
{
    let Some(token) = tokens.get(count) else {
        return Ok(ParseFault::Syntax {
            place: end_of(tokens),
        });
    };
    let place = token.start;
    if is_unsupported(alloc, grammar, &tokens[..count], token)? {
        Ok(ParseFault::NotSupported { place })
    } else {
        Ok(ParseFault::Syntax { place })
    }
}

/// The end of the last token.
fn end_of(tokens: &[Token]) -> usize
    ensures { result ≡ fault.end_of tokens.now }
{
    match tokens {
        [.., last] => last.end,
        [] => 0,
    }
}
