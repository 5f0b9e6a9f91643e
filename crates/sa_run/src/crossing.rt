//! Which values of a run may cross threads. Each law is a function that does nothing: its contract
//! states the law.

ghost use denote.Param.Send.{IsSend, IsSync};
ghost use Rattle.sa_board.specs.contracts.pass.Pass as pass;
ghost use Rattle.sa_run.specs.contracts.member.Member as member;
ghost use Rattle.sa_run.specs.contracts.script.Script as script;
ghost use Rattle.sa_value.specs.contracts.sequence.Sequence as sequence;
ghost use Rattle.sa_value.specs.contracts.text.Text as text;
ghost use Rattle.std.specs.contracts.option.Option as option;

use crate::script::Script;
use sa_value::Texts;

/// What its bound says of a type whose values may go to other threads.
fn sends<T: Send>()
    ensures { IsSend T.row }
{}

/// What its bound says of a type whose values threads may share.
fn shares<T: Sync>()
    ensures { IsSync T.row }
{}

/// Statements may go to another thread.
pub(crate) fn statements_send()
    ensures { IsSend (option.the_row (sequence.the_row text.the_row)) }
{
    sends::<Option<Texts>>();
}

/// So may a member.
pub(crate) fn members_send()
    requires pass { IsSend pass.the_row }
    requires statements { IsSend (option.the_row (sequence.the_row text.the_row)) }
    ensures { IsSend member.the_row }
{}

/// Threads may share a script.
pub(crate) fn scripts_share()
    ensures { IsSync script.the_row }
{
    shares::<Script>();
}
