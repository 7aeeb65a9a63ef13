//! Calls that may wait, and that stop waiting when no process can answer them any more.
ghost use Rattle.std.specs.Prelude.{◌≡◌, ◌≤◌, true, IsSome, IsTrue, IfSome, IfNone, [], length};
ghost use Rattle.mq.specs.Calls.{Calls, Collects, IsFree, Receives, Sends};
ghost use Rattle.mq.specs.Says.{FitsIn};
ghost use Rattle.mq_model.specs.Legality.{Legal};
ghost use Rattle.mq_model.specs.Messages.{is_receive, is_send};
ghost use Rattle.mq_state.specs.Buffers.{waiting_room};
ghost use Rattle.mq_state.specs.Requests.{Brings};
ghost use Rattle.script_runner.specs.Runs.{IsSameProcess, Shows, WaitsFor};
ghost use Rattle.script_text.specs.Replies.{HasMessage, message_len};
ghost use Rattle.script_text.specs.declared.reply.Outcome.TheVariants as outcomes;

use crate::peers::{Peer, calling};
use fast_mutex::Look;
use mq::{Collected, Guarded, Mq, Process, SleepTimes};
use mq_model::entries::Call;
use script_text::reply::Outcome;
use std::sync::Wait;

/// Makes a send, with or without a deadline (`mq_send`, `mq_timedsend`). `None` if it waits for
/// ever, because all processes that may still call are blocked.
pub fn send<L: Look<Guarded>, R: Wait>(
    rt: &R,
    mq: &Mq<L>,
    process: &mut Process<L>,
    peers: &[Peer],
    call: Call,
    message: &[u8],
) -> Option<Outcome>
    requires made { process.old.lock ≡ mq.now }
    requires free { IsFree process.old }
    requires send { is_send call ≡ true }
    requires brings { Brings call message.now 0 }
    ensures same { IsSameProcess process.old process.new }
    ensures free { IfSome result (λ _. IsFree process.new) }
    ensures call { IfSome result (Shows (λ _. outcomes.Done)
        (Sends process.old process.new call message.now)) }
    ensures message { IfSome result (λ came. message_len came ≡ 0) }
    ensures waits { IfNone result (WaitsFor process.old process.new call message.now) }
{
    match process.make(rt, mq, call, message, &mut []) {
        Ok(true) => Some(Outcome::Done),
        Ok(false) => match await_answer(rt, mq, process, peers, &mut []) {
            Some(_) => Some(Outcome::Done),
            None => None,
        },
        Err(fault) => Some(Outcome::Refused(fault)),
    }
}

/// Makes a receive to the start of the buffer, with or without a deadline (`mq_receive`,
/// `mq_timedreceive`). `None` if it waits for ever, because all processes that may still call are
/// blocked.
pub fn receive<L: Look<Guarded>, R: Wait>(
    rt: &R,
    mq: &Mq<L>,
    process: &mut Process<L>,
    peers: &[Peer],
    call: Call,
    buffer: &mut [u8],
) -> Option<Outcome>
    requires made { process.old.lock ≡ mq.now }
    requires free { IsFree process.old }
    requires receive { is_receive call ≡ true }
    requires brings { Brings call [] (length buffer.old) }
    ensures same { IsSameProcess process.old process.new }
    ensures free { IfSome result (λ _. IsFree process.new) }
    ensures call { IfSome result (Shows outcomes.Got
        (Receives process.old process.new call buffer.old buffer.new)) }
    ensures message { IfSome result (λ came. HasMessage came (length buffer.old)) }
    ensures waits { IfNone result (WaitsFor process.old process.new call []) }
{
    match process.make(rt, mq, call, &[], buffer) {
        Ok(Some(received)) => Some(Outcome::Got(received)),
        Ok(None) => match await_answer(rt, mq, process, peers, buffer) {
            Some(Collected::Got(received)) => Some(Outcome::Got(received)),
            Some(Collected::Sent) => unreachable!(),
            None => None,
        },
        Err(fault) => Some(Outcome::Refused(fault)),
    }
}

// Waits until the open wait is answered, and collects it. `None` if it never is.
fn await_answer<L: Look<Guarded>, R: Wait>(
    rt: &R,
    mq: &Mq<L>,
    process: &mut Process<L>,
    peers: &[Peer],
    buffer: &mut [u8],
) -> Option<Collected>
    requires made { process.old.lock ≡ mq.now }
    requires legal { Legal process.old.left }
    requires wait { IsSome (waiting_room process.old.left process.old.number) }
    requires room { IfSome (waiting_room process.old.left process.old.number)
        (λ room. room ≤ length buffer.old) }
    ensures some { IfSome result (λ outcome.
        Collects process.old process.new outcome buffer.old buffer.new) }
    ensures free { IfSome result (λ outcome. IsFree process.new) }
    ensures fits { IfSome result (λ outcome. FitsIn outcome (length buffer.old)) }
    ensures none { IfNone result (Calls process.old process.new []) }
{
    if look_for_answer(rt, mq, process, peers) {
        process.collect(rt, mq, buffer)
    } else {
        None
    }
}

// Polls until the open wait is answered, and returns true; or until all processes that may still
// call are blocked, and returns false. It checks for that after each sleep.
fn look_for_answer<L: Look<Guarded>, R: Wait>(
    rt: &R,
    mq: &Mq<L>,
    process: &mut Process<L>,
    peers: &[Peer],
) -> bool
    requires made { process.old.lock ≡ mq.now }
    requires legal { Legal process.old.left }
    ensures calls { Calls process.old process.new [] }
    ensures told { IsTrue result → process.new.told ≡ true }
{
    let mut sleep_times = SleepTimes::new();
    let mut answered = false;
    'looks: for _ in rt.forever() {
        if process.await_answer(rt, mq, sleep_times.next()) {
            answered = true;
            break;
        }
        if process.are_blocked(rt, mq, &calling(peers)) {
            break;
        }
    }
    answered
}
