//! Literals, columns and the sum.

use crate::cursor::Cursor;
use sa_cond::Expr;
use sa_lexer::{Sign, TokenKind};
use sa_value::Value;
use std::alloc::Global;

/// A literal, a column or an aggregate, which stands for the sum.
pub(crate) fn leaf(alloc: Global, cursor: &mut Cursor<'_>) -> Option<Expr> {
    match cursor.take()? {
        TokenKind::Number(number) => literal(i128::try_from(*number).ok()?),
        TokenKind::Text(text) => Some(Expr::Literal(Value::Text(text.copy(alloc).ok()?))),
        TokenKind::Word(word) => named(word.as_str(), cursor),
        _ => None,
    }
}

/// A number with a minus in front of it.
pub(crate) fn negative(cursor: &mut Cursor<'_>) -> Option<Expr> {
    match cursor.take()? {
        TokenKind::Number(number) => literal(i128::try_from(*number).ok()?.checked_neg()?),
        _ => None,
    }
}

fn literal(number: i128) -> Option<Expr> {
    Some(Expr::Literal(match i64::try_from(number) {
        Ok(number) => Value::Int(number),
        Err(_) => Value::Big(number),
    }))
}

/// What a word stands for.
fn named(word: &str, cursor: &mut Cursor<'_>) -> Option<Expr> {
    match word {
        "NULL" => Some(Expr::Literal(Value::Null)),
        "SUM" => sum_of_column(cursor),
        _ => column_of(word),
    }
}

/// The sum, of whatever column.
fn sum_of_column(cursor: &mut Cursor<'_>) -> Option<Expr> {
    if !cursor.takes_sign(Sign::LeftParen) {
        return None;
    }
    cursor.take()?;
    if cursor.takes_sign(Sign::RightParen) {
        Some(Expr::Slot(0))
    } else {
        None
    }
}

/// The column of this name.
fn column_of(name: &str) -> Option<Expr> {
    match name {
        "a" => Some(column_at(0, 0)),
        "b" => Some(column_at(0, 1)),
        "n" => Some(column_at(0, 2)),
        "c" => Some(column_at(1, 0)),
        "t" => Some(column_at(1, 1)),
        "u" => Some(column_at(1, 2)),
        _ => None,
    }
}

fn column_at(table: u32, column: u32) -> Expr {
    Expr::Column { table, column }
}
