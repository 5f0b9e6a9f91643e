ghost use Rattle.std.specs.Prelude.{◌≡◌, [], ◌∷◌, IfOk};
ghost use Rattle.sa_desk.specs.New.{new_desk};

use sa_ast::{AskKind, KillKind};
use sa_desk::{Asked, Begun, Desk, Killed, Looked, PlainDesks, Stamp};
use sa_value::{OutOfMemory, Text};
use std::alloc::Global;
use std::test::Fail;

/// The desk of session 1 of two: four steps a turn, two turns for a request, three entries for each.
fn desk_of_two(alloc: Global) -> Result<Desk, OutOfMemory>
    ensures { IfOk result (λ desk. desk ≡ new_desk 1 4 2 (3 ∷ 3 ∷ [])) }
{
    Desk::new(alloc, 1, 4, 2, &[3, 3])
}

#[test]
fn a_new_desk_has_its_terms(rt: HostRuntime) -> Result<(), Fail> {
    let desk = desk_of_two(rt.alloc())?;
    assert_eq!(rt; desk.number(), 1);
    assert_eq!(rt; desk.quantum(), 4);
    assert_eq!(rt; desk.turns(), 2);
    assert_eq!(rt; desk.shares(), [3, 3].as_slice());
    assert_eq!(rt; desk.len(), 0);
    assert_eq!(rt; desk.finish().len(), 0);
    Ok(())
}

#[test]
fn an_idle_desk_is_killed(rt: HostRuntime) -> Result<(), Fail> {
    let mut desk = desk_of_two(rt.alloc())?;
    let by_2 = Stamp {
        actor: 2,
        seq: 1,
        turn: 1,
    };
    let killed = desk.kill(by_2, 1, KillKind::Query);
    assert_eq!(rt; killed, Killed::Ok);
    assert_eq!(rt; desk.len(), 1);
    Ok(())
}

#[test]
fn an_idle_desk_has_nothing_to_show(rt: HostRuntime) -> Result<(), Fail> {
    let mut desk = desk_of_two(rt.alloc())?;
    let by_2 = Stamp {
        actor: 2,
        seq: 1,
        turn: 1,
    };
    let asked = desk.ask(by_2, 1, AskKind::Analyze, 2);
    assert_eq!(rt; asked, Asked::NotExplainable);
    assert_eq!(rt; desk.len(), 1);
    Ok(())
}

#[test]
fn nothing_is_published_at_first(rt: HostRuntime) -> Result<(), Fail> {
    let mut desk = desk_of_two(rt.alloc())?;
    let by_2 = Stamp {
        actor: 2,
        seq: 1,
        turn: 1,
    };
    let looked = desk.look(by_2, 1, 4, 2);
    assert_eq!(rt; looked, Looked::NotYet);
    assert_eq!(rt; desk.len(), 0);
    Ok(())
}

#[test]
fn a_statement_without_a_plan_begins(rt: HostRuntime) -> Result<(), Fail> {
    let mut desk = desk_of_two(rt.alloc())?;
    let own = Stamp {
        actor: 1,
        seq: 1,
        turn: 1,
    };
    let text = Text::from_str(rt.alloc(), "KILL 2")?;
    let begun = desk.begin(own, 1, text, 0, None, None);
    assert_eq!(rt; begun, Begun::Ok);
    assert_eq!(rt; desk.len(), 1);
    Ok(())
}

#[test]
fn a_closed_desk_has_one_entry(rt: HostRuntime) -> Result<(), Fail> {
    let mut desk = desk_of_two(rt.alloc())?;
    let own = Stamp {
        actor: 1,
        seq: 1,
        turn: 1,
    };
    desk.close(own);
    assert_eq!(rt; desk.len(), 1);
    Ok(())
}

#[test]
fn no_desks_have_no_journals(rt: HostRuntime) -> Result<(), Fail> {
    let desks = PlainDesks::new(rt.alloc(), Vec::new(rt.alloc()))?;
    assert_eq!(rt; desks.len(), 0);
    assert_eq!(rt; desks.finish().len(), 0);
    Ok(())
}
