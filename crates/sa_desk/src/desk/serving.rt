ghost use Rattle.std.specs.Prelude.{◌≡◌, ◌+◌, ◌<◌, ◌≤◌, ◌^◌, ◌++◌, length, option_map};
ghost use Rattle.std.specs.Vec.{vec_len, vec_capacity};
ghost use Rattle.arrayvec.specs.ArrayVec.{array_vec_len};
ghost use Rattle.sa_desk.specs.Contents.{later};
ghost use Rattle.sa_desk.specs.inner.Parts.{served_by_server, answers_with, served_last, answers_last};

use crate::desk::parts::push_entry;
use crate::entry::{Entry, Event};
use crate::request::{Reply, Request};
use crate::stamp::Stamp;
use arrayvec::ArrayVec;
use sa_count::Report;

/// Who serves the requests at a desk: under which stamp, and in the statement whose Begin entry has
/// this number.
#[derive(Clone, Copy, Debug)]
pub struct Server {
    pub desk: u32,
    pub stamp: Stamp,
    pub begin: u32,
}

/// Serves each request with the report, oldest first: an entry in the journal and an answer.
pub fn serve(
    journal: &mut Vec<Entry>,
    replies: &mut ArrayVec<Reply, 16>,
    queue: &[Request],
    server: Server,
    report: &Report,
)
    requires journal { vec_len journal.old + length queue.now ≤ vec_capacity journal.old }
    requires replies { array_vec_len replies.old + length queue.now ≤ 16 }
    requires numbers { server.stamp.seq + length queue.now ≤ 2 ^ 32 }
    ensures journal { journal.new.items ≡ journal.old.items
        ++ served_by_server server report.now queue.now }
    ensures capacity { vec_capacity journal.new ≡ vec_capacity journal.old }
    ensures replies { replies.new.items ≡ replies.old.items
        ++ answers_with report.now server.begin queue.now }
{
    for (index, request) in queue.iter().enumerate() {
        let event = Event::Served {
            asker: request.asker,
            request: request.request,
            report: report.copy(),
        };
        push_entry(journal, server.desk, later(server.stamp, index), event);
        replies.push(Reply {
            asker: request.asker,
            request: request.request,
            report: report.copy(),
            begin: server.begin,
        });
    }
}

/// Serves the requests with the last report of a run, if there was one.
pub fn serve_last(
    journal: &mut Vec<Entry>,
    replies: &mut ArrayVec<Reply, 16>,
    queue: &[Request],
    server: Server,
    last: Option<&Report>,
)
    requires journal { vec_len journal.old + length queue.now ≤ vec_capacity journal.old }
    requires replies { array_vec_len replies.old + length queue.now ≤ 16 }
    requires numbers { server.stamp.seq + length queue.now ≤ 2 ^ 32 }
    ensures journal { journal.new.items ≡ journal.old.items ++ served_last server
        (option_map (λ report. report.now) last.entry) queue.now }
    ensures capacity { vec_capacity journal.new ≡ vec_capacity journal.old }
    ensures replies { replies.new.items ≡ replies.old.items ++ answers_last server
        (option_map (λ report. report.now) last.entry) queue.now }
{
    if let Some(report) = last {
        serve(journal, replies, queue, server, report);
    }
}

/// The stamp of the entry after so many.
pub fn later(stamp: Stamp, count: usize) -> Stamp
    requires { stamp.seq + count < 2 ^ 32 }
    ensures { result ≡ later count stamp }
{
    Stamp {
        seq: stamp.seq + count as u32,
        ..stamp
    }
}
