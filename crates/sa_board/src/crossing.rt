//! Which values of boards may cross threads. Each law is a function that does nothing: its contract
//! states the law.

ghost use denote.Param.Send.{IsSend, IsSync};
ghost use Rattle.arrayvec.specs.contracts.array_vec.ArrayVec as array_vec;
ghost use Rattle.atomic_table.specs.contracts.shared.Seat as seat;
ghost use Rattle.sa_board.specs.contracts.board.Board as board;
ghost use Rattle.sa_board.specs.contracts.pass.Pass as pass;
ghost use Rattle.sa_board.specs.contracts.view.View as view;
ghost use Rattle.sa_count.specs.contracts.report.Report as report;
ghost use Rattle.sa_desk.specs.contracts.desk.Desk as desk;
ghost use Rattle.sa_desk.specs.contracts.entry.Entry as entry;
ghost use Rattle.sa_desk.specs.contracts.entry.Event as event;
ghost use Rattle.sa_desk.specs.contracts.outcome.Outcome as outcome;
ghost use Rattle.sa_desk.specs.contracts.request.OpenWait as open_wait;
ghost use Rattle.sa_desk.specs.contracts.request.Reply as reply;
ghost use Rattle.sa_desk.specs.contracts.request.Request as request;
ghost use Rattle.sa_plan.specs.contracts.shared.SharedPlan as plan;
ghost use Rattle.sa_table.specs.contracts.shared.SharedTables as tables;
ghost use Rattle.atomic_table.specs.contracts.owned.Table as table;
ghost use Rattle.sa_board.specs.contracts.plays.Order as order;
ghost use Rattle.sa_board.specs.contracts.plays.OrderTableRuleOptionDeskViewSnapshotVecDesk.TheImpl as order_impl;
ghost use Rattle.sa_query.specs.contracts.refusal.Refusal as refusal;
ghost use Rattle.sa_value.specs.contracts.sequence.Sequence as sequence;
ghost use Rattle.sa_value.specs.contracts.text.Text as text;
ghost use Rattle.sa_value.specs.contracts.value.Value as value;
ghost use Rattle.std.specs.contracts.alloc.Global as heap;
ghost use Rattle.std.specs.contracts.impls.GlobalAllocator.TheImpl as heap_impl;
ghost use Rattle.std.specs.contracts.snapshot.Snapshot as snapshot;
ghost use Rattle.std.specs.contracts.vec.Vec as vec;
ghost use Rattle.std.specs.contracts.option.Option as option;
ghost use denote.Param.{number};
ghost use denote.Builtin.{unit};

use crate::plays::Order;
use crate::view::View;
use arrayvec::ArrayVec;
use atomic_table::{Seat, Table};
use sa_count::Report;
use sa_desk::{Desk, Entries, OpenWait, Outcome, Reply, Request};
use sa_plan::SharedPlan;
use sa_query::Refusal;
use sa_table::SharedTables;
use sa_value::{Rows, Text, Texts};
use std::alloc::Global;
use std::snapshot::Snapshot;

/// What its bounds say of a type.
fn crosses<T: Send + Sync>()
    ensures send { IsSend T.row }
    ensures sync { IsSync T.row }
{}

/// What its bound says of a type whose values may go to other threads.
fn sends<T: Send>()
    ensures { IsSend T.row }
{}

/// What its bound says of a type whose values threads may share.
fn shares<T: Sync>()
    ensures { IsSync T.row }
{}

/// Plans may go to other threads, and be shared.
fn plans_cross()
    ensures send { IsSend plan.the_row }
    ensures sync { IsSync plan.the_row }
{
    crosses::<SharedPlan>();
}

/// So may a plan that may be missing.
fn plan_options_cross()
    requires send { IsSend plan.the_row }
    requires sync { IsSync plan.the_row }
    ensures send { IsSend (option.the_row plan.the_row) }
    ensures sync { IsSync (option.the_row plan.the_row) }
{
    crosses::<Option<SharedPlan>>();
}

/// So may tables that may be missing.
fn table_options_cross()
    ensures send { IsSend (option.the_row tables.the_row) }
    ensures sync { IsSync (option.the_row tables.the_row) }
{
    crosses::<Option<SharedTables>>();
}

/// The outcome of a statement may go to another thread.
fn outcomes_send()
    requires { IsSend plan.the_row }
    ensures { IsSend outcome.the_row }
{
    sends::<Outcome>();
}

/// What an outcome has besides a plan may be shared.
fn outcome_parts_share()
    ensures texts { IsSync (sequence.the_row text.the_row) }
    ensures rows { IsSync (sequence.the_row (sequence.the_row value.the_row)) }
    ensures trace { IsSync (option.the_row text.the_row) }
    ensures refusal { IsSync refusal.the_row }
{
    shares::<Texts>();
    shares::<Rows>();
    shares::<Option<Text>>();
    shares::<Refusal>();
}

/// Texts and reports may go to other threads, and be shared.
fn texts_and_reports_cross()
    ensures text_send { IsSend text.the_row }
    ensures text_sync { IsSync text.the_row }
    ensures report_send { IsSend report.the_row }
    ensures report_sync { IsSync report.the_row }
{
    crosses::<Text>();
    crosses::<Report>();
}

/// So may the entries of a journal.
fn entries_cross()
    ensures send { IsSend entry.the_row }
    ensures sync { IsSync entry.the_row }
{
    plans_cross();
    plan_options_cross();
    table_options_cross();
    outcomes_send();
    outcome_parts_share();
    texts_and_reports_cross();
}

/// What a desk keeps of requests and waits may go to another thread.
fn requests_send()
    ensures requests { IsSend (array_vec.the_row request.the_row (number 16) unit) }
    ensures replies { IsSend (array_vec.the_row reply.the_row (number 16) unit) }
    ensures waits { IsSend (array_vec.the_row (option.the_row open_wait.the_row) (number 16) unit) }
{
    sends::<ArrayVec<Request, 16>>();
    sends::<ArrayVec<Reply, 16>>();
    sends::<ArrayVec<Option<OpenWait>, 16>>();
}

/// A desk may go to another thread, and its entries may be shared.
fn desks_send()
    ensures desk { IsSend desk.the_row }
    ensures entry { IsSync entry.the_row }
{
    entries_cross();
    requests_send();
}

/// So may the slot of a desk, and a seat at a table of desks.
fn seats_send()
    requires { IsSend desk.the_row }
    ensures desk { IsSend (option.the_row desk.the_row) }
    ensures seat { IsSend (seat.the_row (option.the_row desk.the_row) view.the_row) }
{
    sends::<Option<Desk>>();
    sends::<Seat<Option<Desk>, View>>();
}

/// A pass may go to another thread.
pub fn passes_send()
    ensures { IsSend pass.the_row }
{
    desks_send();
    seats_send();
}

/// The table of a board may be shared.
fn tables_share()
    requires { IsSend desk.the_row }
    ensures { IsSync (table.the_row (option.the_row desk.the_row) view.the_row
        (snapshot.the_row (vec.the_row desk.the_row heap.the_row heap_impl.ghosts)) order.the_row
        heap.the_row order_impl.ghosts heap_impl.ghosts) }
{
    shares::<Table<Option<Desk>, View, Snapshot<Vec<Desk>>, Order, Global>>();
}

/// So may its room for journals.
fn journals_share()
    requires { IsSync entry.the_row }
    ensures { IsSync (vec.the_row (sequence.the_row entry.the_row) heap.the_row heap_impl.ghosts) }
{
    shares::<Vec<Entries>>();
}

/// Threads may share a board.
pub fn boards_share()
    ensures { IsSync board.the_row }
{
    desks_send();
    tables_share();
    journals_share();
}
