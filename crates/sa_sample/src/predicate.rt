//! Conditions without AND, OR and NOT before them.

use crate::arithmetic::sum;
use crate::cursor::Cursor;
use sa_cond::{Cond, Expr, Exprs};
use sa_lexer::Sign;
use sa_value::{CompareOp, Truth};
use sqlite_items::Boxed;
use std::alloc::Global;

/// How deep brackets and signs may stand in one another.
pub(crate) const LEVELS: u32 = 16;

/// An expression and what is said of it.
pub(crate) fn predicate(alloc: Global, cursor: &mut Cursor<'_>) -> Option<Cond> {
    let value = sum(alloc, LEVELS, cursor)?;
    if let Some(op) = comparison(cursor) {
        return compared(alloc, op, value, cursor);
    }
    if cursor.takes_word("IS") {
        return tested(value, cursor);
    }
    let negated = cursor.takes_word("NOT");
    let cond = ranged(alloc, value, cursor)?;
    if negated {
        denied(alloc, cond)
    } else {
        Some(cond)
    }
}

/// NOT over a condition.
pub(crate) fn denied(alloc: Global, cond: Cond) -> Option<Cond> {
    Some(Cond::Not(Boxed::new(alloc, cond).ok()?))
}

/// TRUE, FALSE, or NULL for UNKNOWN.
pub(crate) fn truth(cursor: &mut Cursor<'_>) -> Option<Cond> {
    if cursor.takes_word("TRUE") {
        Some(Cond::Known(Truth::True))
    } else if cursor.takes_word("FALSE") {
        Some(Cond::Known(Truth::False))
    } else if cursor.takes_word("NULL") {
        Some(Cond::Known(Truth::Unknown))
    } else {
        None
    }
}

fn comparison(cursor: &mut Cursor<'_>) -> Option<CompareOp> {
    let signs = [
        (Sign::Equal, CompareOp::Eq),
        (Sign::NullSafeEqual, CompareOp::NullEq),
        (Sign::NotEqual, CompareOp::Ne),
        (Sign::Less, CompareOp::Lt),
        (Sign::LessEqual, CompareOp::Le),
        (Sign::Greater, CompareOp::Gt),
        (Sign::GreaterEqual, CompareOp::Ge),
    ];
    for (sign, op) in signs {
        if cursor.takes_sign(sign) {
            return Some(op);
        }
    }
    None
}

fn compared(
    alloc: Global,
    op: CompareOp,
    left: Boxed<Expr>,
    cursor: &mut Cursor<'_>,
) -> Option<Cond> {
    let right = sum(alloc, LEVELS, cursor)?;
    Some(Cond::Compare {
        op,
        left: left.into_inner(),
        right: right.into_inner(),
    })
}

/// IS NULL, or IS NOT NULL.
fn tested(value: Boxed<Expr>, cursor: &mut Cursor<'_>) -> Option<Cond> {
    let negated = cursor.takes_word("NOT");
    if !cursor.takes_word("NULL") {
        None
    } else if negated {
        Some(Cond::NotNull(value.into_inner()))
    } else {
        Some(Cond::IsNull(value.into_inner()))
    }
}

/// BETWEEN or IN.
fn ranged(alloc: Global, value: Boxed<Expr>, cursor: &mut Cursor<'_>) -> Option<Cond> {
    if cursor.takes_word("BETWEEN") {
        between(alloc, value, cursor)
    } else if cursor.takes_word("IN") && cursor.takes_sign(Sign::LeftParen) {
        among(alloc, value, cursor)
    } else {
        None
    }
}

fn between(alloc: Global, value: Boxed<Expr>, cursor: &mut Cursor<'_>) -> Option<Cond> {
    let low = sum(alloc, LEVELS, cursor)?;
    if !cursor.takes_word("AND") {
        return None;
    }
    let high = sum(alloc, LEVELS, cursor)?;
    Some(Cond::Between {
        value: value.into_inner(),
        low: low.into_inner(),
        high: high.into_inner(),
    })
}

fn among(alloc: Global, value: Boxed<Expr>, cursor: &mut Cursor<'_>) -> Option<Cond> {
    let list = members(alloc, cursor)?;
    Some(Cond::Among {
        value: value.into_inner(),
        list,
    })
}

/// The members of a list up to the bracket behind them.
fn members(alloc: Global, cursor: &mut Cursor<'_>) -> Option<Exprs> {
    let mut list = Exprs::new(alloc);
    // Each turn takes a token.
    for _turn in 0..cursor.left() {
        list.push(sum(alloc, LEVELS, cursor)?.into_inner()).ok()?;
        if cursor.takes_sign(Sign::RightParen) {
            return Some(list);
        }
        if !cursor.takes_sign(Sign::Comma) {
            return None;
        }
    }
    None
}
