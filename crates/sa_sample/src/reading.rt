//! Conditions and expressions out of their texts.

use crate::arithmetic::sum;
use crate::cursor::Cursor;
use crate::predicate::{LEVELS, denied, predicate, truth};
use sa_cond::{Cond, Conds, Expr};
use sa_lexer::{Sign, tokens};
use sqlite_items::Boxed;
use std::alloc::Global;

/// The condition that a text of SQL is over the sample.
///
/// NULL stands for UNKNOWN. There is none where the text isn't one, or memory runs out.
pub fn condition(alloc: Global, sql: &str) -> Option<Cond> {
    let tokens = tokens(alloc, sql).ok()?;
    let mut cursor = Cursor::new(tokens.as_slice());
    let cond = disjunction(alloc, LEVELS, &mut cursor)?;
    if cursor.left() == 0 {
        Some(cond.into_inner())
    } else {
        None
    }
}

/// The expression that a text of SQL is over the sample.
///
/// An aggregate stands for the sum. There is none where the text isn't one, or memory runs out.
pub fn expression(alloc: Global, sql: &str) -> Option<Expr> {
    let tokens = tokens(alloc, sql).ok()?;
    let mut cursor = Cursor::new(tokens.as_slice());
    let expr = sum(alloc, LEVELS, &mut cursor)?;
    if cursor.left() == 0 {
        Some(expr.into_inner())
    } else {
        None
    }
}

/// Conditions with OR between them.
#[cycle(joined)]
fn disjunction(alloc: Global, levels: u32, cursor: &mut Cursor<'_>) -> Option<Boxed<Cond>> {
    let first = conjunction(alloc, levels, cursor)?;
    if !cursor.takes_word("OR") {
        return Some(first);
    }
    let mut members = Conds::new(alloc);
    members.push(first.into_inner()).ok()?;
    // Each turn takes a token.
    for _turn in 0..cursor.left() {
        let next = conjunction(alloc, levels, cursor)?;
        members.push(next.into_inner()).ok()?;
        if !cursor.takes_word("OR") {
            return Boxed::new(alloc, Cond::Or(members)).ok();
        }
    }
    None
}

/// Conditions with AND between them.
#[cycle(joined)]
fn conjunction(alloc: Global, levels: u32, cursor: &mut Cursor<'_>) -> Option<Boxed<Cond>> {
    let first = negation(alloc, levels, cursor)?;
    if !cursor.takes_word("AND") {
        return Some(first);
    }
    let mut members = Conds::new(alloc);
    members.push(first.into_inner()).ok()?;
    // Each turn takes a token.
    for _turn in 0..cursor.left() {
        let next = negation(alloc, levels, cursor)?;
        members.push(next.into_inner()).ok()?;
        if !cursor.takes_word("AND") {
            return Boxed::new(alloc, Cond::And(members)).ok();
        }
    }
    None
}

/// A condition under NOT, in brackets or without either.
#[cycle(joined)]
fn negation(alloc: Global, levels: u32, cursor: &mut Cursor<'_>) -> Option<Boxed<Cond>> {
    if levels == 0 {
        return None;
    }
    if cursor.takes_word("NOT") {
        let inner = negation(alloc, levels - 1, cursor)?;
        return Boxed::new(alloc, Cond::Not(inner)).ok();
    }
    // An expression may begin with a bracket too.
    let before = *cursor;
    if let Some(cond) = predicate(alloc, cursor) {
        return Boxed::new(alloc, cond).ok();
    }
    *cursor = before;
    if cursor.takes_sign(Sign::LeftParen) {
        bracketed(alloc, levels - 1, cursor)
    } else {
        Boxed::new(alloc, truth(cursor)?).ok()
    }
}

/// A condition, and the bracket behind it.
#[cycle(joined)]
fn bracketed(alloc: Global, levels: u32, cursor: &mut Cursor<'_>) -> Option<Boxed<Cond>> {
    let inner = disjunction(alloc, levels, cursor)?;
    if cursor.takes_sign(Sign::RightParen) {
        Some(inner)
    } else {
        None
    }
}
