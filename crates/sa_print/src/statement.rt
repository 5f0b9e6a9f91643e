ghost use Rattle.std.specs.Prelude.{◌≡◌, ◌++◌, codes, IfOk, OnOk};
ghost use Rattle.std.specs.Fmt.{decimal};
ghost use Rattle.sa_print.specs.Statement.{HasText, canonical_statement, ask_word, kill_word, switch_word};

use crate::printer::Printer;
use crate::word::switch_word;
use sa_ast::{AskKind, KillKind, Statement};
use sa_value::{OutOfMemory, Text};
use std::alloc::Global;

/// The canonical text of a session's statement.
///
/// A statement that sets tables up has no canonical text, so it isn't asked for.
pub fn statement_text(alloc: Global, tree: &Statement) -> Result<Text, OutOfMemory>
    requires { HasText tree.now }
    ensures { IfOk result (λ text. text ≡ canonical_statement tree.now) }
{
    let mut printer = Printer::new(alloc);
    printer.statement(tree)?;
    Ok(printer.into_text())
}

impl Printer {
    /// Writes a statement.
    fn statement(&mut self, tree: &Statement) -> Result<(), OutOfMemory>
        requires { HasText tree.now }
        ensures { OnOk result (self.new ≡ self.old ++ canonical_statement tree.now) }
    {
        match tree {
            Statement::Select(tree) => self.select(tree),
            Statement::Explain(tree) => {
                self.push("EXPLAIN ")?;
                self.select(tree)
            }
            Statement::Analyze(tree) => {
                self.push("ANALYZE ")?;
                self.select(tree)
            }
            Statement::Show { kind, id } => self.show(*kind, *id),
            Statement::Kill { kind, id } => self.kill(*kind, *id),
            Statement::SetTrace(on) => self.set_trace(*on),
            Statement::SetLimit(steps) => self.set_limit(*steps),
            Statement::TraceRows => self.trace_rows(),
            Statement::Wait { id, at } => self.wait(*id, *at),
            Statement::Create(_) | Statement::Insert(_) => unreachable!(),
        }
    }

    /// Writes a request to another session.
    fn show(&mut self, kind: AskKind, id: u128) -> Result<(), OutOfMemory>
        ensures { OnOk result (self.new ≡ self.old
            ++ codes "SHOW " ++ ask_word kind ++ codes " FOR " ++ decimal id) }
    {
        self.push(match kind {
            AskKind::Explain => "SHOW EXPLAIN FOR ",
            AskKind::Analyze => "SHOW ANALYZE FOR ",
        })?;
        self.natural(id)
    }

    /// Writes what ends another session or its statement.
    fn kill(&mut self, kind: KillKind, id: u128) -> Result<(), OutOfMemory>
        ensures { OnOk result (self.new ≡ self.old
            ++ codes "KILL " ++ kill_word kind ++ codes " " ++ decimal id) }
    {
        self.push(match kind {
            KillKind::Query => "KILL QUERY ",
            KillKind::Connection => "KILL CONNECTION ",
        })?;
        self.natural(id)
    }

    /// Writes a switch of the trace.
    fn set_trace(&mut self, on: bool) -> Result<(), OutOfMemory>
        ensures { OnOk result (self.new ≡ self.old
            ++ codes "SET optimizer_trace = 'enabled=" ++ switch_word on ++ codes "'") }
    {
        self.push("SET optimizer_trace = 'enabled=")?;
        self.push(switch_word(on))?;
        self.push("'")
    }

    /// Writes a limit of row steps.
    fn set_limit(&mut self, steps: u64) -> Result<(), OutOfMemory>
        ensures { OnOk result (self.new ≡ self.old ++ codes "SET max_row_steps = " ++ decimal steps) }
    {
        self.push("SET max_row_steps = ")?;
        self.natural(u128::from(steps))
    }

    /// Writes the question for the last trace.
    fn trace_rows(&mut self) -> Result<(), OutOfMemory>
        ensures { OnOk result (self.new ≡ self.old
            ++ codes "SELECT * FROM information_schema.optimizer_trace") }
    {
        self.push("SELECT * FROM information_schema.optimizer_trace")
    }

    /// Writes a wait for another session.
    fn wait(&mut self, id: u128, at: u64) -> Result<(), OutOfMemory>
        ensures { OnOk result (self.new ≡ self.old
            ++ codes "WAIT FOR " ++ decimal id ++ codes " AT " ++ decimal at) }
    {
        self.push("WAIT FOR ")?;
        self.natural(id)?;
        self.push(" AT ")?;
        self.natural(u128::from(at))
    }
}
