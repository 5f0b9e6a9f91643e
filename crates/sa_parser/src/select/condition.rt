//! The conditions of WHERE, ON and HAVING.

ghost use Rattle.sa_parser.specs.declared.rule.Rule.TheVariants as rules;
ghost use Rattle.sa_parser.specs.inner.ExprReading.{nested_read};
ghost use Rattle.sa_parser.specs.inner.Reading as reading;
ghost use Rattle.sa_parser.specs.inner.SelectReading as select;
ghost use Rattle.sa_parser.specs.inner.Reads.{Reads};

use crate::cursor::Cursor;
use crate::expression::nested;
use crate::fault::ReadFault;
use crate::rule::Rule;
use sa_ast::ExprTree;
use sqlite_items::Boxed;
use std::alloc::Global;

/// The condition behind this word, if the word comes next.
#[tactic(auto, unfolding(crate::specs::inner::Reading::perhaps, crate::specs::inner::Reading::made, crate::specs::inner::Reading::then_read))]
pub(crate) fn condition(
    alloc: Global,
    levels: usize,
    word: &str,
    cursor: &mut Cursor<'_>,
) -> Result<Option<Boxed<ExprTree>>, ReadFault>
    ensures { Reads
        (reading.perhaps (reading.sees_word word.now)
        (reading.after word.now (nested_read levels rules.Expression)) cursor.old) result
        cursor.new }
{
    if cursor.sees_word(word) {
        cursor.word(word)?;
        Ok(Some(nested(alloc, levels, Rule::Expression, cursor)?))
    } else {
        Ok(None)
    }
}

/// The condition of HAVING and the place of that word, if it is written.
#[tactic(auto, unfolding(crate::specs::inner::SelectReading::having, crate::specs::inner::Reading::perhaps, crate::specs::inner::Reading::made, crate::specs::inner::Reading::then_read))]
pub(crate) fn having(
    alloc: Global,
    levels: usize,
    cursor: &mut Cursor<'_>,
) -> Result<Option<(usize, Boxed<ExprTree>)>, ReadFault>
    ensures { Reads (select.having (nested_read levels rules.Expression) cursor.old) result cursor.new }
{
    if cursor.sees_word("HAVING") {
        let place = cursor.word("HAVING")?;
        let condition = nested(alloc, levels, Rule::Expression, cursor)?;
        Ok(Some((place, condition)))
    } else {
        Ok(None)
    }
}
