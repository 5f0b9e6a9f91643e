ghost use Rattle.std.specs.Prelude.{◌≡◌, Some, IfOk};
ghost use Rattle.sa_ast.specs.declared.expression.ExprNode.{ExprNode-F};
ghost use Rattle.sa_print.specs.Expression.{canonical_expr, node_text};
ghost use Rattle.sa_explain.specs.Written.{column_node, literal_node, truth_node};

use sa_ast::{ExprNode, ExprTree};
use sa_plan::{Level, Names};
use sa_value::{OutOfMemory, Text, Truth, Value};
use std::alloc::Global;

/// A statement's expression that no text has a place for.
#[inline(always)]
pub(crate) fn placeless(node: ExprNode) -> ExprTree
    ensures { result ≡ record { node = node; place = 0 } }
{
    ExprTree { node, place: 0 }
}

/// A literal, as a statement writes it.
pub(crate) fn literal_tree(alloc: Global, value: &Value) -> Result<ExprTree, OutOfMemory>
    ensures { IfOk result (λ tree. canonical_expr tree ≡ node_text (literal_node value.now)) }
{
    match value {
        Value::Null => Ok(placeless(ExprNode::Null)),
        Value::Int(number) => Ok(placeless(ExprNode::Number(i128::from(*number)))),
        Value::Big(number) => Ok(placeless(ExprNode::Number(*number))),
        Value::Text(text) => Ok(placeless(ExprNode::Text(text.copy(alloc)?))),
    }
}

/// A truth, as a statement writes it.
pub(crate) fn truth_tree(truth: Truth) -> ExprTree
    ensures { canonical_expr result ≡ node_text (truth_node truth) }
{
    match truth {
        Truth::True => placeless(ExprNode::Known(true)),
        Truth::False => placeless(ExprNode::Known(false)),
        Truth::Unknown => placeless(ExprNode::Null),
    }
}

/// The column of the table with this position in FROM, as a statement writes it.
pub(crate) fn column_tree(
    alloc: Global,
    names: &Names,
    levels: &[Level],
    position: u32,
    column: u32,
) -> Result<ExprTree, OutOfMemory>
    ensures { IfOk result (λ tree. canonical_expr tree
        ≡ node_text (column_node names.now levels.now position column)) }
{
    for level in levels {
        if level.position == position {
            return name_tree(alloc, &level.alias, names.column(level.table, column));
        }
    }
    Ok(placeless(ExprNode::Null))
}

/// A column after the alias of its table.
fn name_tree(alloc: Global, alias: &Text, column: &str) -> Result<ExprTree, OutOfMemory>
    ensures { IfOk result (λ tree. canonical_expr tree
        ≡ node_text (ExprNode-F.Name (Some alias.now) column.now)) }
{
    let table = alias.copy(alloc)?;
    let column = Text::from_str(alloc, column)?;
    Ok(placeless(ExprNode::Name {
        table: Some(table),
        column,
    }))
}
