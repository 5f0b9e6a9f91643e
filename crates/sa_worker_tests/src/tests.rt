//! Scripts that are driven by schedules.

mod answers;
mod foreign;
mod lines;
mod listed;
mod query;
mod script;
mod statements;
mod worked;

use std::test::Fail;

#[test]
fn what_turns_answer(rt: HostRuntime) -> Result<(), Fail> {
    answers::spent(rt.alloc())?;
    answers::withdrawn(rt.alloc())?;
    answers::wait_spent(rt.alloc())
}

#[test]
fn a_query_alone(rt: HostRuntime) -> Result<(), Fail> {
    statements::query(rt.alloc())
}

#[test]
fn no_statement(rt: HostRuntime) -> Result<(), Fail> {
    statements::nothing(rt.alloc())
}

#[test]
fn row_limits(rt: HostRuntime) -> Result<(), Fail> {
    statements::limits(rt.alloc())
}

#[test]
fn row_limits_by_turns(rt: HostRuntime) -> Result<(), Fail> {
    statements::limits_by_turns(rt.alloc())
}

#[test]
fn a_run_that_ends_with_a_quantum(rt: HostRuntime) -> Result<(), Fail> {
    statements::whole_quantum(rt.alloc())
}

#[test]
fn a_killed_set(rt: HostRuntime) -> Result<(), Fail> {
    statements::killed_set(rt.alloc())
}

#[test]
fn refusals_of_preparation(rt: HostRuntime) -> Result<(), Fail> {
    statements::refused(rt.alloc())
}

#[test]
fn plans_that_are_shown(rt: HostRuntime) -> Result<(), Fail> {
    statements::explained(rt.alloc())
}

#[test]
fn numbers_that_the_script_has_not(rt: HostRuntime) -> Result<(), Fail> {
    statements::no_such_session(rt.alloc())
}

#[test]
fn served_at_point(rt: HostRuntime) -> Result<(), Fail> {
    worked::served_at_point(rt.alloc())
}

#[test]
fn served_at_end(rt: HostRuntime) -> Result<(), Fail> {
    worked::served_at_end(rt.alloc())
}

#[test]
fn not_explainable(rt: HostRuntime) -> Result<(), Fail> {
    worked::not_explainable(rt.alloc())
}

#[test]
fn spent(rt: HostRuntime) -> Result<(), Fail> {
    worked::spent(rt.alloc())
}

#[test]
fn served_in_order(rt: HostRuntime) -> Result<(), Fail> {
    worked::served_in_order(rt.alloc())
}

#[test]
fn killed_query(rt: HostRuntime) -> Result<(), Fail> {
    worked::killed_query(rt.alloc())
}

#[test]
fn killed_connection(rt: HostRuntime) -> Result<(), Fail> {
    worked::killed_connection(rt.alloc())
}

#[test]
fn withdrawn(rt: HostRuntime) -> Result<(), Fail> {
    worked::withdrawn(rt.alloc())
}

#[test]
fn withdrawn_after_answer(rt: HostRuntime) -> Result<(), Fail> {
    worked::withdrawn_after_answer(rt.alloc())
}

#[test]
fn waited(rt: HostRuntime) -> Result<(), Fail> {
    worked::waited(rt.alloc())
}

#[test]
fn wait_spent(rt: HostRuntime) -> Result<(), Fail> {
    worked::wait_spent(rt.alloc())
}

#[test]
fn wait_short(rt: HostRuntime) -> Result<(), Fail> {
    worked::wait_short(rt.alloc())
}

#[test]
fn wait_killed(rt: HostRuntime) -> Result<(), Fail> {
    worked::wait_killed(rt.alloc())
}

#[test]
fn two_statements(rt: HostRuntime) -> Result<(), Fail> {
    worked::two_statements(rt.alloc())
}

#[test]
fn set_first(rt: HostRuntime) -> Result<(), Fail> {
    worked::set_first(rt.alloc())
}

#[test]
fn a_kill_query_after_every_turn(rt: HostRuntime) -> Result<(), Fail> {
    foreign::kill_query_before_the_begin(rt.alloc())?;
    foreign::kill_query_after_the_begin(rt.alloc())?;
    foreign::kill_query_after_two_steps(rt.alloc())?;
    foreign::kill_query_after_four_steps(rt.alloc())?;
    foreign::kill_query_after_the_end(rt.alloc())?;
    foreign::kill_query_after_the_close(rt.alloc())
}

#[test]
fn a_kill_after_every_turn(rt: HostRuntime) -> Result<(), Fail> {
    foreign::kill_before_the_begin(rt.alloc())?;
    foreign::kill_after_the_begin(rt.alloc())?;
    foreign::kill_after_two_steps(rt.alloc())?;
    foreign::kill_after_four_steps(rt.alloc())?;
    foreign::kill_after_the_end(rt.alloc())?;
    foreign::kill_after_the_close(rt.alloc())
}

#[test]
fn a_show_after_every_turn(rt: HostRuntime) -> Result<(), Fail> {
    foreign::show_before_the_begin(rt.alloc())?;
    foreign::show_after_the_begin(rt.alloc())?;
    foreign::show_after_two_steps(rt.alloc())?;
    foreign::show_after_four_steps(rt.alloc())?;
    foreign::show_after_the_end(rt.alloc())?;
    foreign::show_after_the_close(rt.alloc())
}

#[test]
fn a_show_that_is_polled_once(rt: HostRuntime) -> Result<(), Fail> {
    foreign::show_once_after_the_begin(rt.alloc())?;
    foreign::show_once_after_two_steps(rt.alloc())?;
    foreign::show_once_after_four_steps(rt.alloc())
}
