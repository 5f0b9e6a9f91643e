use super::*;
use sa_value::{OutOfMemory, Text};
use sqlite_items::Boxed;
use std::alloc::Global;
use std::test::Fail;

fn column(text: Text) -> ExprTree {
    ExprTree {
        node: ExprNode::Name {
            table: None,
            column: text,
        },
        place: 7,
    }
}

/// `NOT` of an expression.
fn negated(alloc: Global, tree: ExprTree) -> Result<ExprTree, OutOfMemory> {
    Ok(ExprTree {
        node: ExprNode::Not(Boxed::new(alloc, tree)?),
        place: 0,
    })
}

/// An expression with so many NOT before it.
fn negated_often(alloc: Global, tree: ExprTree, times: u8) -> Result<ExprTree, OutOfMemory> {
    let mut tree = tree;
    for _ in 0..times {
        tree = negated(alloc, tree)?;
    }
    Ok(tree)
}

/// How many NOT stand before the rest.
fn count_of_not(tree: &ExprTree) -> u32 {
    match &tree.node {
        ExprNode::Not(inner) => count_of_not(inner.get()).saturating_add(1),
        _ => 0,
    }
}

#[test]
fn holds_an_expression_of_depth_64(rt: HostRuntime) -> Result<(), Fail> {
    let tree = negated_often(rt.alloc(), column(Text::from_str(rt.alloc(), "a")?), 64)?;
    assert_eq!(rt; count_of_not(&tree), 64);
    Ok(())
}
