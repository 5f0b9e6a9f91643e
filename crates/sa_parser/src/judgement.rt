ghost use Rattle.std.specs.Prelude.{◌≡◌, ◌≤◌, IfOk};
ghost use Rattle.sa_parser.specs.Parse.{IsStatement, IsSetup, IsDirective};
ghost use Rattle.sa_parser.specs.inner.Judgement as spec;
ghost use Rattle.sa_parser.specs.inner.Judgement.{IsJudgement, Tells, LeavesWithin};

use crate::cursor::Cursor;
use crate::directive::directive;
use crate::fault::ReadFault;
use crate::lent::Lent;
use crate::setup::setup;
use crate::statement::statement;
use sa_ast::{Directive, Statement};
use sa_value::OutOfMemory;
use std::alloc::Global;

/// What reading tells of tokens.
#[derive(Debug, Drop)]
pub(crate) enum Judgement<T> {
    /// They are this.
    Whole(T),
    /// So many of them stand before the first fault.
    Faulty(usize),
}

/// Reads all of the tokens as a statement of a session. No expression nests deeper than there are
/// tokens.
pub(crate) fn judge_statement(
    alloc: Global,
    tokens: &Lent<'_>,
) -> Result<Judgement<Statement>, OutOfMemory>
    ensures { IfOk result (IsJudgement IsStatement tokens.now) }
{
    let mut cursor = Cursor::new(tokens);
    let levels = cursor.left();
    let read = statement(alloc, levels, &mut cursor);
    judged(read, levels, cursor.left())
}

/// Reads all of the tokens as a statement that sets tables up.
pub(crate) fn judge_setup(
    alloc: Global,
    tokens: &Lent<'_>,
) -> Result<Judgement<Statement>, OutOfMemory>
    ensures { IfOk result (IsJudgement IsSetup tokens.now) }
{
    let mut cursor = Cursor::new(tokens);
    let all = cursor.left();
    let read = setup(alloc, &mut cursor);
    judged(read, all, cursor.left())
}

/// Reads all of the tokens as a directive of a script.
pub(crate) fn judge_directive(
    alloc: Global,
    tokens: &Lent<'_>,
) -> Result<Judgement<Directive>, OutOfMemory>
    ensures { IfOk result (IsJudgement IsDirective tokens.now) }
{
    let mut cursor = Cursor::new(tokens);
    let all = cursor.left();
    let read = directive(alloc, &mut cursor);
    judged(read, all, cursor.left())
}

/// What was read of all tokens tells, where so many are left.
fn judged<T: Drop>(
    read: Result<T, ReadFault>,
    all: usize,
    left: usize,
) -> Result<Judgement<T>, OutOfMemory>
    requires { LeavesWithin read all left }
    ensures { IfOk result (Tells read all left) }
{
    match read {
        Ok(tree) => Ok(whole_or_faulty(tree, all, left)),
        Err(ReadFault::Left(left)) => Ok(Judgement::Faulty(all - left)),
        Err(ReadFault::OutOfMemory) => Err(OutOfMemory),
    }
}

/// The whole, or the fault that is the first of the tokens left behind it.
fn whole_or_faulty<T: Drop>(tree: T, all: usize, left: usize) -> Judgement<T>
    requires { left ≤ all }
    ensures { result ≡ spec.whole_or_faulty tree all left }
{
    if left == 0 {
        return Judgement::Whole(tree);
    }
    drop(tree);
    Judgement::Faulty(all - left)
}

impl<T: Drop> Judgement<T> {
    /// How many of so many tokens stand before the faulty one, if there is one among them.
    pub(crate) fn first_faulty(self, all: usize) -> Option<usize>
        ensures { result ≡ spec.first_of self all }
    {
        match self {
            Judgement::Whole(tree) => {
                drop(tree);
                None
            }
            Judgement::Faulty(count) => { if count == all { None } else { Some(count) } }
        }
    }
}
