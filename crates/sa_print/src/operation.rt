ghost use Rattle.std.specs.Prelude.{◌≡◌, ◌++◌, codes, map, OnOk};
ghost use Rattle.sa_print.specs.Lists.{joined, bracketed};
ghost use Rattle.sa_print.specs.Expression.{call_name, canonical_expr};

use crate::printer::Printer;
use crate::word::call_name;
use sa_ast::{AggregateCall, ExprTree};
use sa_value::OutOfMemory;

/// The forms of the nodes that have expressions below them.
impl Printer {
    /// Writes an aggregate of all rows.
    pub(crate) fn call_of_rows(&mut self, call: AggregateCall) -> Result<(), OutOfMemory>
        ensures { OnOk result (self.new ≡ self.old ++ call_name call ++ codes "(*)") }
    {
        self.push(call_name(call))?;
        self.push("(*)")
    }

    /// Writes an aggregate of an expression.
    #[cycle(expr)]
    pub(crate) fn call(
        &mut self,
        call: AggregateCall,
        argument: &ExprTree,
    ) -> Result<(), OutOfMemory>
        ensures { OnOk result (self.new ≡ self.old
            ++ call_name call ++ bracketed (canonical_expr argument.now)) }
    {
        self.push(call_name(call))?;
        self.closed("(", argument)
    }

    /// Writes an opening bracket and an expression.
    #[cycle(expr)]
    pub(crate) fn opened(&mut self, value: &ExprTree) -> Result<(), OutOfMemory>
        ensures { OnOk result (self.new ≡ self.old ++ codes "(" ++ canonical_expr value.now) }
    {
        self.push("(")?;
        self.expr(value)
    }

    /// Writes a text, an expression and a closing bracket.
    #[cycle(expr)]
    pub(crate) fn closed(&mut self, before: &str, value: &ExprTree) -> Result<(), OutOfMemory>
        ensures { OnOk result
            (self.new ≡ self.old ++ before.now ++ canonical_expr value.now ++ codes ")") }
    {
        self.push(before)?;
        self.expr(value)?;
        self.push(")")
    }

    /// Writes the members of AND or OR.
    #[cycle(expr)]
    pub(crate) fn connected(
        &mut self,
        members: &[ExprTree],
        between: &str,
    ) -> Result<(), OutOfMemory>
        ensures { OnOk result (self.new ≡ self.old
            ++ bracketed (joined between.now (map canonical_expr members.now))) }
    {
        self.push("(")?;
        self.exprs(members, between)?;
        self.push(")")
    }

    /// Writes expressions with a text between them.
    #[cycle(expr)]
    pub(crate) fn exprs(&mut self, members: &[ExprTree], between: &str) -> Result<(), OutOfMemory>
        ensures { OnOk result
            (self.new ≡ self.old ++ joined between.now (map canonical_expr members.now)) }
    {
        match members {
            [] => Ok(()),
            [first, rest @ ..] => {
                self.expr(first)?;
                for next in rest {
                    self.push(between)?;
                    self.expr(next)?;
                }
                Ok(())
            }
        }
    }
}
