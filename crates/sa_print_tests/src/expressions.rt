//! Numbers and comparisons.

use crate::trees::{at, column, compared, is_written};
use sa_ast::ExprNode;
use sa_value::{CompareOp, Text};
use std::test::Fail;

#[test]
fn writes_numbers(rt: HostRuntime) -> Result<(), Fail> {
    let most = 99_999_999_999_999_999_999_999_999_999_999_999_999;
    let rows = [
        ("zero", 0, "0"),
        ("a negative one", -1, "-1"),
        ("38 digits", most, "99999999999999999999999999999999999999"),
    ];
    for (name, number, wanted) in rows {
        is_written(&rt, name, &at(ExprNode::Number(number)), wanted)?;
    }
    Ok(())
}

#[test]
fn writes_a_comparison(rt: HostRuntime) -> Result<(), Fail> {
    let rows = [
        ("equal", CompareOp::Eq, "(a = 2)"),
        ("equal or both NULL", CompareOp::NullEq, "(a <=> 2)"),
        ("unequal", CompareOp::Ne, "(a <> 2)"),
        ("greater or equal", CompareOp::Ge, "(a >= 2)"),
    ];
    for (name, op, wanted) in rows {
        let left = column(Text::from_str(rt.alloc(), "a")?);
        let tree = compared(rt.alloc(), op, left, at(ExprNode::Number(2)))?;
        is_written(&rt, name, &tree, wanted)?;
    }
    Ok(())
}
