ghost use Rattle.std.specs.Prelude.{◌≡◌, ◌∷◌, IfOk, codes, map, string_bytes};
ghost use Rattle.sa_print.specs.Lists.{joined};
ghost use Rattle.sa_explain.specs.Written.{cond_text};

use crate::tree::cond_tree;
use sa_cond::Cond;
use sa_plan::{Level, Names};
use sa_print::expr_text;
use sa_value::{OutOfMemory, Text};
use std::alloc::Global;

/// The conditions of a level with AND between them. There is a first one, and there may be more.
pub(crate) fn conditions_text(
    alloc: Global,
    names: &Names,
    levels: &[Level],
    first: &Cond,
    rest: &[Cond],
) -> Result<String, OutOfMemory>
    ensures { IfOk result (λ text. string_bytes text
        ≡ joined (codes " AND ") (map (cond_text names.now levels.now) (first.now ∷ rest.now))) }
{
    let mut text = condition_text(alloc, names, levels, first)?.into_string();
    for next in rest {
        text.push_str(" AND ")?;
        text.push_str(condition_text(alloc, names, levels, next)?.as_str())?;
    }
    Ok(text)
}

/// A condition, as a statement writes it.
fn condition_text(
    alloc: Global,
    names: &Names,
    levels: &[Level],
    cond: &Cond,
) -> Result<Text, OutOfMemory>
    ensures { IfOk result (λ text. text ≡ cond_text names.now levels.now cond.now) }
{
    expr_text(alloc, &cond_tree(alloc, names, levels, cond)?)
}
