ghost use Rattle.std.specs.Prelude.{◌≡◌};
ghost use Rattle.sa_worker.specs.Answered.{answer_at};
ghost use Rattle.sa_worker.specs.inner.Fields.{stage_of};

use crate::stage::Stage;

/// What a turn answers.
#[derive(Clone, Copy, Debug, PartialEq, Eq)]
pub enum Turned {
    /// The session goes on.
    More,
    /// The call had to wait for another session, and is made again.
    Waiting,
    /// The session is done.
    Done,
}

/// What a turn answers that has led to this stage. A call that had to wait is followed by a look for a kill.
pub(crate) fn answer_of(stage: &Stage) -> Turned
    ensures { result ≡ answer_at (stage_of stage.now) }
{
    match stage {
        Stage::LooksAsking { .. } | Stage::LooksWaiting { .. } => Turned::Waiting,
        Stage::Done => Turned::Done,
        _ => Turned::More,
    }
}
