ghost use Rattle.std.specs.Prelude.{◌≡◌};
ghost use Rattle.std.specs.Arc.{arc_value};
ghost use Rattle.sa_prepare.specs.Prepared.{Prepares};

use crate::refusal::{lex_refusal, parse_refusal};
use crate::work::answer_to;
use sa_lexer::tokens;
use sa_parser::parse;
use sa_plan::{Prepared, Preparer};
use sa_query::Refusal;
use sa_table::{SharedTables, Tables};
use std::alloc::Global;
use std::marker::Model;
use std::sync::Arc;

/// Makes statements ready to run over these tables.
#[derive(Debug, Drop)]
pub struct Ready {
    tables: SharedTables,
}

impl Model for Ready {
    ghost use Rattle.std.specs.Prelude.{List};
    ghost use Rattle.sa_table.specs.Table.{Table};

    ghost Value = { List Table };

    ghost view = { λ ready. ready.tables };
}

impl Ready {
    /// Over these tables. It takes no memory.
    pub fn new(tables: Arc<Tables>) -> Ready
        ensures { result ≡ arc_value tables }
    {
        Ready {
            tables: SharedTables::new(tables),
        }
    }
}

impl Preparer for Ready {
    ghost answers = { λ ready text answer. Prepares ready text answer };

    fn prepare(&self, alloc: Global, text: &str) -> Result<Prepared, Refusal> {
        let tokens = match tokens(alloc, text) {
            Ok(tokens) => tokens,
            Err(fault) => return Err(lex_refusal(fault)),
        };
        let statement = match parse(alloc, &tokens) {
            Ok(statement) => statement,
            Err(fault) => return Err(parse_refusal(fault)),
        };
        answer_to(alloc, self.tables.tables(), tokens.as_slice(), &statement)
    }
}
