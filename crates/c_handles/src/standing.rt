//! The state of a process between two tries.
ghost use Rattle.std.specs.Prelude.{◌≡◌, true, None, is_some, IfSome, IfNone, IfOk, IfErr, IsTrue};
ghost use Rattle.mq_state.specs.Buffers.{waiting_room};
ghost use Rattle.mq.specs.Calls.{IsFree};
ghost use Rattle.c_handles.specs.Standings.{ticket_of, is_there, is_under_way, LooksAt};

use fast_mutex::FAST_PATH_STEPS;
use mq::{FastAcquisition, FastGuard, FastMq, FastProcess};
use std::mem;

// How many steps one try takes to acquire the lock.
const STEPS: u32 = 100;

// What stands for no futex word. It is none of a system.
const NO_FUTEX_WORD: u32 = u32::MAX;

/// A process between two tries, either idle or with an acquisition in progress. While it makes a
/// call both fields are empty. They are separate, because a process on the fast path is taken out
/// and put back in each call, and is shorter than an acquisition.
#[derive(Drop)]
pub struct Standing {
    pub rest: Option<FastProcess>,
    pub way: Option<FastAcquisition>,
}

/// A process without an acquisition in progress.
pub fn at_rest(process: FastProcess) -> Standing
    ensures process { ticket_of result ≡ process }
    ensures there { is_there result ≡ true }
{
    Standing {
        rest: Some(process),
        way: None,
    }
}

/// Takes steps to acquire the lock, and returns the guard, or leaves the acquisition in progress.
#[inline(always)]
pub fn arrive(mq: &FastMq, standing: &mut Standing) -> Option<FastGuard>
    requires there { is_there standing.old ≡ true }
    requires made { (ticket_of standing.old).lock ≡ mq.now }
    ensures guard { IfSome result (λ guard. guard.process ≡ ticket_of standing.old) }
    ensures same { IfNone result (ticket_of standing.new ≡ ticket_of standing.old) }
    ensures there { IfNone result (is_there standing.new ≡ true) }
{
    let came = match standing.rest.take() {
        Some(process) => process.acquisition(mq).advance(mq, STEPS),
        None => match standing.way.take() {
            Some(acquisition) => go_on(mq, acquisition),
            None => unreachable!(),
        },
    };
    match came {
        Ok(guard) => Some(guard),
        Err(acquisition) => {
            standing.way = Some(acquisition);
            None
        }
    }
}

// It is outlined, so that the compiler knows each step of an acquisition on the fast path.
#[inline(never)]
fn go_on(mq: &FastMq, acquisition: FastAcquisition) -> Result<FastGuard, FastAcquisition>
    requires made { acquisition.process.lock ≡ mq.now }
    ensures guard { IfOk result (λ guard. guard.process ≡ acquisition.process) }
    ensures under_way { IfErr result (λ nearer. nearer.process ≡ acquisition.process) }
{
    acquisition.advance(mq, STEPS)
}

/// Tries the fast path for a process without an acquisition in progress, and returns the guard or
/// the acquisition. The state is then empty.
#[inline(always)]
pub fn set_out(mq: &FastMq, standing: &mut Standing) -> Result<FastGuard, FastAcquisition>
    requires rest { is_some standing.old.rest ≡ true }
    requires made { (ticket_of standing.old).lock ≡ mq.now }
    ensures guard { IfOk result (λ guard. guard.process ≡ ticket_of standing.old) }
    ensures under_way { IfErr result (λ acquisition. acquisition.process ≡ ticket_of standing.old) }
    ensures none { standing.new.rest ≡ None }
{
    match standing.rest.take() {
        Some(process) => process.acquisition(mq).advance(mq, FAST_PATH_STEPS),
        None => unreachable!(),
    }
}

/// Whether the process has neither an acquisition in progress nor an open wait.
#[inline(always)]
pub fn is_idle(standing: &Standing) -> bool
    ensures free { IsTrue result → IsFree (ticket_of standing.now) }
    ensures rest { IsTrue result → is_some standing.now.rest ≡ true }
{
    match &standing.rest {
        Some(process) => process.waiting().is_none(),
        None => false,
    }
}

/// The buffer length that the open wait of the process needs, if it has one.
#[inline(always)]
pub fn waiting(standing: &Standing) -> Option<usize>
    requires there { is_there standing.now ≡ true }
    ensures { result ≡ waiting_room (ticket_of standing.now).left (ticket_of standing.now).number }
{
    match &standing.rest {
        Some(process) => process.waiting(),
        None => match &standing.way {
            Some(acquisition) => acquisition.waiting(),
            None => unreachable!(),
        },
    }
}

/// Puts back a process without an acquisition in progress. The fields are empty before, so nothing
/// is dropped. Those who wait for its call are woken outside Rattle.
#[inline(always)]
pub fn settle(standing: &mut Standing, process: FastProcess)
    ensures process { ticket_of standing.new ≡ process }
    ensures there { is_there standing.new ≡ true }
{
    mem::forget(mem::replace(&mut standing.rest, Some(process)));
}

/// Puts back an acquisition in progress.
#[inline(always)]
pub fn walk_on(standing: &mut Standing, acquisition: FastAcquisition)
    requires none { standing.old.rest ≡ None }
    ensures process { ticket_of standing.new ≡ acquisition.process }
    ensures there { is_there standing.new ≡ true }
{
    mem::forget(mem::replace(&mut standing.way, Some(acquisition)));
}

/// One poll from outside the lock: what [`FastProcess::answered`] returns, or `None` if an
/// acquisition is in progress.
pub fn look(mq: &FastMq, standing: &mut Standing) -> Option<bool>
    requires there { is_there standing.old ≡ true }
    requires made { (ticket_of standing.old).lock ≡ mq.now }
    ensures look { LooksAt (is_under_way standing.old) (ticket_of standing.old)
        (ticket_of standing.new) result }
    ensures under_way { is_under_way standing.new ≡ is_under_way standing.old }
    ensures there { is_there standing.new ≡ true }
{
    match &mut standing.rest {
        Some(process) => Some(process.answered(mq)),
        None => None,
    }
}

/// The futex word of its system on which the process sleeps: that of the obstacle to acquiring the
/// lock, or that of its answer. It is `u32::MAX` if the last step of an acquisition made progress:
/// the process then waits for nothing that it has looked at, and has to try again.
pub fn futex_word(standing: &Standing) -> u32
    requires { is_there standing.now ≡ true }
{
    match &standing.rest {
        Some(process) => process.futex_word(),
        None => match &standing.way {
            Some(acquisition) => acquisition.futex_word().unwrap_or(NO_FUTEX_WORD),
            None => unreachable!(),
        },
    }
}

/// The processes whose waits the last call of the process answered.
#[inline(always)]
pub fn answered_others(standing: &Standing) -> u32 {
    match &standing.rest {
        Some(process) => process.answered_others(),
        None => 0,
    }
}

/// The number of the process.
pub fn number(standing: &Standing) -> u32
    requires { is_there standing.now ≡ true }
{
    match &standing.rest {
        Some(process) => process.number(),
        None => match &standing.way {
            Some(acquisition) => acquisition.number(),
            None => unreachable!(),
        },
    }
}
