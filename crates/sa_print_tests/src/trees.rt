//! Trees of which the tests print the text.

use sa_ast::{ExprNode, ExprTree};
use sa_print::expr_text;
use sa_value::{CompareOp, OutOfMemory, Text};
use sqlite_items::Boxed;
use std::alloc::Global;
use std::process::Abort;
use std::test::Fail;

/// An expression whose place says nothing.
pub(crate) fn at(node: ExprNode) -> ExprTree {
    ExprTree { node, place: 0 }
}

/// A column without a table.
pub(crate) fn column(name: Text) -> ExprTree {
    at(ExprNode::Name {
        table: None,
        column: name,
    })
}

/// `left op right`
pub(crate) fn compared(
    alloc: Global,
    op: CompareOp,
    left: ExprTree,
    right: ExprTree,
) -> Result<ExprTree, OutOfMemory> {
    Ok(at(ExprNode::Compare {
        op,
        left: Boxed::new(alloc, left)?,
        right: Boxed::new(alloc, right)?,
    }))
}

/// This is the canonical text of the expression.
pub(crate) fn is_written<R: Abort + Alloc<A = Global>>(
    rt: &R,
    name: &str,
    tree: &ExprTree,
    wanted: &str,
) -> Result<(), Fail> {
    let text = expr_text(rt.alloc(), tree)?;
    assert_eq!(rt; text.as_str(), wanted, "{name}: {tree:?}");
    Ok(())
}
