ghost use Rattle.std.specs.Prelude.{◌≡◌, ◌≤◌, [], IfOk, length, take};
ghost use Rattle.sa_range.specs.RangeList.{parts_of, sequences};

use crate::line::Pieces;
use crate::longer::{Step, longer};
use crate::pieces::line_of;
use sa_cond::Cond;
use sa_value::OutOfMemory;
use std::alloc::Global;

/// The sequences of kept pieces over so many of a key's first parts.
#[derive(Debug, Drop)]
pub(crate) struct Serving {
    pub(crate) parts: u32,
    pub(crate) walks: Vec<Pieces>,
}

/// The sequences of kept pieces over as many parts as serve.
pub(crate) fn served(
    alloc: Global,
    filter: &Cond,
    table: u32,
    parts: &[u32],
) -> Result<Serving, OutOfMemory>
    requires { length parts.now ≤ 4 }
    ensures parts { IfOk result (λ served. served.parts ≡ parts_of filter.now table parts.now) }
    ensures walks { IfOk result (λ served. served.walks.items
        ≡ sequences filter.now table [] (take (parts_of filter.now table parts.now) parts.now)) }
{
    let mut walks = Vec::new(alloc);
    walks.push(Pieces::new(alloc))?;
    for index in 0..parts.len() {
        let line = line_of(alloc, table, parts[index], filter)?;
        let step = Step {
            condition: filter,
            table,
            columns: &parts[..index],
            column: parts[index],
            line: line.as_slice(),
        };
        match longer(alloc, &step, walks.as_slice())? {
            None => {
                return Ok(Serving {
                    parts: index as u32,
                    walks,
                });
            }
            Some(more) => walks = more,
        }
    }
    Ok(Serving {
        parts: parts.len() as u32,
        walks,
    })
}
