ghost use Rattle.std.specs.Prelude.{◌≡◌, ◌-◌, ◌≤◌, ◌==◌, slice_index, slice_set, position, IfNone};
ghost use Rattle.arrayvec.specs.ArrayVec.{array_vec_len};
ghost use Rattle.sa_desk.specs.After.{without, untaken};
ghost use Rattle.sa_desk.specs.call.Poll.{reply_to};
ghost use Rattle.sa_desk.specs.inner.Parts.{AsksOnce, HasOneReply};

use crate::request::{Reply, Request};
use arrayvec::ArrayVec;

/// How often the session's last request was polled.
pub fn polls_of(polls: &ArrayVec<u64, 16>, session: u32) -> u64
    requires least { 1 ≤ session }
    requires most { session ≤ array_vec_len polls.now }
    ensures { result ≡ slice_index polls.now.items (session - 1) }
{
    polls[(session - 1) as usize]
}

/// Sets how often the session's last request was polled.
pub fn set_polls(polls: &mut ArrayVec<u64, 16>, session: u32, count: u64)
    requires least { 1 ≤ session }
    requires most { session ≤ array_vec_len polls.old }
    ensures { polls.new.items ≡ slice_set polls.old.items (session - 1) count }
{
    polls[(session - 1) as usize] = count;
}

/// Takes the session's request out of the queue. Each session has one at most.
pub fn take_out(queue: &mut ArrayVec<Request, 16>, session: u32)
    requires { AsksOnce session queue.old.items }
    ensures { queue.new.items ≡ without session queue.old.items }
{
    if let Some(index) = request_index(queue, session) {
        queue.remove(index);
    }
}

/// Takes the answer to the session's request, if it was served. Each session has one at most.
pub fn take_reply(replies: &mut ArrayVec<Reply, 16>, session: u32) -> Option<Reply>
    requires { HasOneReply session replies.old.items }
    ensures reply { result ≡ reply_to session replies.old.items }
    ensures others { replies.new.items ≡ untaken session replies.old.items }
    ensures kept { IfNone result (replies.new ≡ replies.old) }
{
    match reply_index(replies, session) {
        Some(index) => Some(replies.remove(index)),
        None => None,
    }
}

/// Where the session's request is.
fn request_index(queue: &ArrayVec<Request, 16>, session: u32) -> Option<usize>
    ensures { result ≡ position (λ request. request.asker == session) queue.now.items }
{
    queue
        .as_slice()
        .iter()
        .position(|request| request.asker == session)
}

/// Where the answer to the session's request is.
fn reply_index(replies: &ArrayVec<Reply, 16>, session: u32) -> Option<usize>
    ensures { result ≡ position (λ reply. reply.asker == session) replies.now.items }
{
    replies
        .as_slice()
        .iter()
        .position(|reply| reply.asker == session)
}
