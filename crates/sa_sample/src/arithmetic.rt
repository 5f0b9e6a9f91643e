//! Expressions: sums, products, minus and brackets.

use crate::cursor::Cursor;
use crate::leaf::{leaf, negative};
use sa_cond::Expr;
use sa_lexer::Sign;
use sqlite_items::Boxed;
use std::alloc::Global;

/// Products with a plus or a minus between them.
#[cycle(arithmetic)]
pub(crate) fn sum(alloc: Global, levels: u32, cursor: &mut Cursor<'_>) -> Option<Boxed<Expr>> {
    let mut sum = product(alloc, levels, cursor)?;
    // Each turn takes a token.
    for _turn in 0..cursor.left() {
        if cursor.takes_sign(Sign::Plus) {
            let next = product(alloc, levels, cursor)?;
            sum = Boxed::new(alloc, Expr::Add(sum, next)).ok()?;
        } else if cursor.takes_sign(Sign::Minus) {
            let next = product(alloc, levels, cursor)?;
            sum = Boxed::new(alloc, Expr::Subtract(sum, next)).ok()?;
        } else {
            break;
        }
    }
    Some(sum)
}

/// Factors with a star between them.
#[cycle(arithmetic)]
fn product(alloc: Global, levels: u32, cursor: &mut Cursor<'_>) -> Option<Boxed<Expr>> {
    let mut product = factor(alloc, levels, cursor)?;
    // Each turn takes a token.
    for _turn in 0..cursor.left() {
        if !cursor.takes_sign(Sign::Star) {
            break;
        }
        let next = factor(alloc, levels, cursor)?;
        product = Boxed::new(alloc, Expr::Multiply(product, next)).ok()?;
    }
    Some(product)
}

/// What has a minus in front, stands in brackets or is a leaf.
#[cycle(arithmetic)]
fn factor(alloc: Global, levels: u32, cursor: &mut Cursor<'_>) -> Option<Boxed<Expr>> {
    if levels == 0 {
        return None;
    }
    if cursor.takes_sign(Sign::Minus) {
        minus(alloc, levels - 1, cursor)
    } else if cursor.takes_sign(Sign::LeftParen) {
        let inner = sum(alloc, levels - 1, cursor)?;
        if cursor.takes_sign(Sign::RightParen) {
            Some(inner)
        } else {
            None
        }
    } else {
        Boxed::new(alloc, leaf(alloc, cursor)?).ok()
    }
}

/// What stands behind a minus, which belongs to a number.
#[cycle(arithmetic)]
fn minus(alloc: Global, levels: u32, cursor: &mut Cursor<'_>) -> Option<Boxed<Expr>> {
    let before = *cursor;
    if let Some(number) = negative(cursor) {
        return Boxed::new(alloc, number).ok();
    }
    *cursor = before;
    let inner = factor(alloc, levels, cursor)?;
    Boxed::new(alloc, Expr::Negate(inner)).ok()
}
