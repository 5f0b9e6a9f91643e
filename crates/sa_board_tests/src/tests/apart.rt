//! Two sessions on two threads, each inside its own desk.

ghost use Rattle.std.specs.Prelude.{◌≡◌, ◌+◌, ◌<◌, ◌≤◌};
ghost use Rattle.sa_board.specs.Board.{new_pass, new_passes};
ghost use Rattle.sa_board_tests.specs.Home.{IsHome, AreHome};
ghost use Rattle.sa_board_tests.specs.Start.{AreEven};

use crate::tests::start::board_of;
use sa_board::{Board, Pass, boards_share, passes_send};
use sa_desk::{Caller, Desks};
use sa_source::{MeetPause, Pause};
use sa_value::Text;
use std::alloc::Global;
use std::sync::Wait;
use std::test::Fail;
use std::thread::{Threads, for_each_mut};

/// A session takes its own desk out, pauses, begins a statement there, and brings the desk home.
fn begin_inside<R: Wait>(
    rt: &R,
    alloc: Global,
    pause: &MeetPause,
    board: &Board,
    pass: &mut Pass,
    session: u32,
)
    requires board { AreEven board.now.founded 2 2 1 1 }
    requires pass { pass.old ≡ new_pass board.now session }
    requires least { 1 ≤ session }
    requires most { session ≤ 2 }
    ensures { IsHome board.now session pass.new }
{
    let mut held = board.hold(rt, pass, session);
    pause.pause();
    held.begin(
        session,
        Caller {
            actor: session,
            turn: 1,
        },
        1,
        Text::from_string(String::new(alloc)),
        0,
        None,
        None,
    );
    held.home();
}

/// Each session does so on a thread of its own.
fn begin_apart<R: Threads + Wait + Sync>(
    rt: &R,
    alloc: Global,
    pause: &MeetPause,
    board: &Board,
    passes: &mut [Pass],
)
    requires board { AreEven board.now.founded 2 2 1 1 }
    requires passes { passes.old ≡ new_passes board.now }
    ensures { AreHome board.now passes.new }
{
    passes_send();
    boards_share();
    for_each_mut(
        rt,
        passes,
        2,
        &|index, pass|
            requires desks { AreEven board.now.founded 2 2 1 1 }
            requires there { index < 2 }
            requires pass { pass.old ≡ new_pass board.now (index + 1) }
            ensures { IsHome board.entry.now (index + 1) pass.new }
        { begin_inside(rt, alloc, pause, board, pass, index as u32 + 1) },
    );
}

#[test]
fn two_sessions_are_inside_their_desks_at_once(rt: HostRuntime) -> Result<(), Fail> {
    let (board, mut passes) = board_of(rt.alloc(), 2, 2, 1, 1)?;
    let pause = MeetPause::new(10_000_000);
    begin_apart(&rt, rt.alloc(), &pause, &board, &mut passes);
    let journals = board.finish(passes);
    for journal in journals.as_slice() {
        assert_eq!(rt; journal.len(), 1);
    }
    // with one lock round all desks it would be false
    assert!(rt; pause.met(), "no two sessions had their desks out at once");
    Ok(())
}
