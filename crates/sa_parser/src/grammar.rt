ghost use Rattle.std.specs.Prelude.{◌↔◌, IfOk, IsTrue};
ghost use Rattle.sa_parser.specs.Fault.{Begins};
ghost use Rattle.sa_parser.specs.inner.Grammar.{form_of};
ghost use Rattle.sa_parser.specs.inner.Judgement.{IsFirstFaulty};

use crate::judgement::{judge_directive, judge_setup, judge_statement};
use crate::lent::Lent;
use sa_value::OutOfMemory;
use std::alloc::Global;

/// What tokens are read as.
#[derive(Clone, Copy, Debug, PartialEq, Eq)]
pub(crate) enum Grammar {
    /// The statements of a session.
    Session,
    /// The statements that set tables up.
    Setup,
    /// The directives of a script.
    Script,
}

impl Grammar {
    /// How many tokens stand before the first with which they begin nothing, if there is one.
    pub(crate) fn first_faulty(
        self,
        alloc: Global,
        tokens: &Lent<'_>,
    ) -> Result<Option<usize>, OutOfMemory>
        ensures { IfOk result (IsFirstFaulty (form_of self) tokens.now) }
    {
        let all = tokens.len();
        match self {
            Grammar::Session => Ok(judge_statement(alloc, tokens)?.first_faulty(all)),
            Grammar::Setup => Ok(judge_setup(alloc, tokens)?.first_faulty(all)),
            Grammar::Script => Ok(judge_directive(alloc, tokens)?.first_faulty(all)),
        }
    }

    /// Whether the tokens and some behind them are something of this grammar.
    pub(crate) fn begins(self, alloc: Global, tokens: &Lent<'_>) -> Result<bool, OutOfMemory>
        ensures { IfOk result (λ found. IsTrue found ↔ Begins (form_of self) tokens.now) }
    {
        Ok(self.first_faulty(alloc, tokens)?.is_none())
    }
}
