ghost use Rattle.std.specs.Prelude.{◌≡◌, ◌++◌, OnOk, IfOk};
ghost use Rattle.sa_print.specs.Expression.{canonical_expr};

use crate::printer::Printer;
use crate::word::{between_word, comparison_word, in_word, null_word, truth_word};
use sa_ast::{ExprNode, ExprTree};
use sa_value::{OutOfMemory, Text};
use std::alloc::Global;

/// The canonical text of an expression.
pub fn expr_text(alloc: Global, tree: &ExprTree) -> Result<Text, OutOfMemory>
    ensures { IfOk result (λ text. text ≡ canonical_expr tree.now) }
{
    let mut printer = Printer::new(alloc);
    printer.expr(tree)?;
    Ok(printer.into_text())
}

impl Printer {
    /// Writes an expression.
    #[cycle(expr)]
    pub(crate) fn expr(&mut self, tree: &ExprTree) -> Result<(), OutOfMemory>
        ensures { OnOk result (self.new ≡ self.old ++ canonical_expr tree.now) }
    {
        match &tree.node {
            ExprNode::Number(number) => self.integer(*number),
            ExprNode::Text(text) => self.literal(text.as_str()),
            ExprNode::Null => self.push("NULL"),
            ExprNode::Known(holds) => self.push(truth_word(*holds)),
            ExprNode::Name { table, column } => self.column(table, column),
            ExprNode::Aggregate {
                call,
                argument: None,
            } => self.call_of_rows(*call),
            ExprNode::Aggregate {
                call,
                argument: Some(argument),
            } => self.call(*call, argument.get()),
            ExprNode::Negate(value) => self.closed("(-", value.get()),
            ExprNode::Not(value) => self.closed("(NOT ", value.get()),
            ExprNode::Add(left, right) => {
                self.opened(left.get())?;
                self.closed(" + ", right.get())
            }
            ExprNode::Subtract(left, right) => {
                self.opened(left.get())?;
                self.closed(" - ", right.get())
            }
            ExprNode::Multiply(left, right) => {
                self.opened(left.get())?;
                self.closed(" * ", right.get())
            }
            ExprNode::Compare { op, left, right } => {
                self.opened(left.get())?;
                self.closed(comparison_word(*op), right.get())
            }
            ExprNode::IsNull { value, negated } => {
                self.opened(value.get())?;
                self.push(null_word(*negated))
            }
            ExprNode::Between {
                value,
                low,
                high,
                negated,
            } => {
                self.opened(value.get())?;
                self.push(between_word(*negated))?;
                self.expr(low.get())?;
                self.closed(" AND ", high.get())
            }
            ExprNode::Among {
                value,
                list,
                negated,
            } => {
                self.opened(value.get())?;
                self.push(in_word(*negated))?;
                self.exprs(list.as_slice(), ", ")?;
                self.push("))")
            }
            ExprNode::And(members) => self.connected(members.as_slice(), " AND "),
            ExprNode::Or(members) => self.connected(members.as_slice(), " OR "),
        }
    }
}
