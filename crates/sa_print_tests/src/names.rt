//! Names and texts, in quotes where they need them.

use crate::trees::{at, column, is_written};
use sa_ast::ExprNode;
use sa_value::Text;
use std::alloc::Global;
use std::process::Abort;
use std::test::Fail;

/// A column of this name is written so.
fn is_column<R: Abort + Alloc<A = Global>>(
    rt: &R,
    name: &str,
    held: &str,
    wanted: &str,
) -> Result<(), Fail> {
    let tree = column(Text::from_str(rt.alloc(), held)?);
    is_written(rt, name, &tree, wanted)
}

#[test]
fn puts_names_in_backquotes_where_they_need_them(rt: HostRuntime) -> Result<(), Fail> {
    let rows = [
        ("a word", "a", "a"),
        ("a low line, a dollar sign and a digit", "_x$9", "_x$9"),
        ("characters past ASCII", "\u{e9}t\u{e9}", "\u{e9}t\u{e9}"),
        ("a reserved word", "order", "`order`"),
        ("one in mixed case", "Straight_Join", "`Straight_Join`"),
        ("a word that only begins as one", "ALLE", "ALLE"),
        ("the name of an aggregate", "count", "count"),
        ("a space", "a b", "`a b`"),
        ("backquotes and a backslash", "a``b\\", "`a````b\\`"),
        ("a digit first", "1a", "`1a`"),
    ];
    for (name, held, wanted) in rows {
        is_column(&rt, name, held, wanted)?;
    }
    Ok(())
}

/// A literal of this text is written so.
fn is_literal<R: Abort + Alloc<A = Global>>(
    rt: &R,
    name: &str,
    held: &str,
    wanted: &str,
) -> Result<(), Fail> {
    let tree = at(ExprNode::Text(Text::from_str(rt.alloc(), held)?));
    is_written(rt, name, &tree, wanted)
}

#[test]
fn doubles_quotes_and_backslashes_of_texts(rt: HostRuntime) -> Result<(), Fail> {
    let rows = [
        ("nothing", "", "''"),
        ("a quote", "it's", "'it''s'"),
        ("backslashes", "\\%\\", "'\\\\%\\\\'"),
        ("what stands as it is", "\"\u{e9}`\n", "'\"\u{e9}`\n'"),
    ];
    for (name, held, wanted) in rows {
        is_literal(&rt, name, held, wanted)?;
    }
    Ok(())
}
