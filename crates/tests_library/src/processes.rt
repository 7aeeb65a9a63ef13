//! Processes over Lamport's lock. What calls in one thread return is a table of steps.
ghost use Rattle.std.specs.Prelude.{◌≡◌, [], IfOk};
ghost use Rattle.mq.specs.Calls.{IsFree};
ghost use Rattle.fast_mutex.specs.Items.{tickets_from};

use crate::books::expect_legal;
use crate::refusals::{refuse_all, say_refused};
use crate::steps::{
    Ask, CALLS, CREATE, EXACT, KINDS, Kind, LATER, NONE, ONE, OPEN, Outcome, START, Step, WAITING,
    WITHOUT_MEMORY, ZERO,
};
use calls::take;
use mq::{FastMq, FastProcess, Fault, Journal, Monotonic};
use mq_model::clock::Clock as Moments;
use std::alloc::Global;
use std::io::Print;
use std::process::Abort;
use std::sync::Wait;
use std::time::Clock;

mod calls;
mod ends;
mod threads;
mod walks;

/// A system of two processes.
#[derive(Drop)]
struct Pair {
    mq: FastMq,
    one: FastProcess,
    two: FastProcess,
}

fn make(alloc: Global, kind: Kind) -> Result<(FastMq, Vec<FastProcess>), Fault>
    ensures { IfOk result (λ made. made.1.items ≡ tickets_from made.0 1 2) }
{
    match kind {
        Kind::Stored => FastMq::new(alloc, 2),
        Kind::Bounded(entries, bytes) => FastMq::bounded(alloc, 2, entries, bytes),
        Kind::Unstored => FastMq::unstored(alloc, 2),
        Kind::Prepaid => FastMq::prepaid(alloc, 2),
    }
}

// A system of two processes. One allocation may be made to fail from outside.
fn make_pair<R: Abort + Print>(rt: &R, alloc: Global, kind: Kind) -> Pair
    ensures one { (result.one.lock ≡ result.mq) × IsFree result.one }
    ensures two { (result.two.lock ≡ result.mq) × IsFree result.two }
{
    let (mq, mut processes) = match make(alloc, kind) {
        Ok(made) => made,
        Err(_) => {
            say_refused(rt, "the making");
            make(alloc, kind).ok().expect(rt, "memory")
        }
    };
    let two = processes.pop().unwrap();
    let one = processes.pop().unwrap();
    Pair { mq, one, two }
}

// Room for two processes. One allocation may be made to fail from outside.
fn room<R: Abort + Print>(rt: &R, alloc: Global) -> Vec<FastProcess>
    ensures { result.items ≡ [] }
{
    match Vec::with_capacity(alloc, 2) {
        Ok(processes) => processes,
        Err(_) => {
            say_refused(rt, "room for two processes");
            Vec::with_capacity(alloc, 2).ok().expect(rt, "memory")
        }
    }
}

// The end with both processes, which returns the journal.
fn finish<A: Abort>(
    rt: &A,
    mut processes: Vec<FastProcess>,
    mq: FastMq,
    one: FastProcess,
    two: FastProcess,
) -> Journal
    requires room { processes.items ≡ [] }
    requires one { one.lock ≡ mq }
    requires two { two.lock ≡ mq }
{
    processes.push(one).ok().expect(rt, "memory");
    processes.push(two).ok().expect(rt, "memory");
    assert!(rt; mq.is_stored(), "the journal is stored");
    mq.finish(processes).ok().expect(rt, "both processes")
}

// The legal journal, of this number of entries, after the steps of two processes in one thread.
// After the first steps every allocation may be made to fail from outside.
fn expect<R: Wait + Clock + Abort + Print>(
    rt: &R,
    alloc: Global,
    kind: Kind,
    (first, marked): (&[Step], &[Step]),
    entries: u64,
) {
    let processes = room(rt, alloc);
    let Pair {
        mq,
        mut one,
        mut two,
    } = make_pair(rt, alloc, kind);
    take(rt, &mq, &mut one, &mut two, first);
    refuse_all(rt, alloc);
    take(rt, &mq, &mut one, &mut two, marked);
    expect_legal(rt, &finish(rt, processes, mq, one, two), entries);
}

// The calls of processes alone. A process is blocked from the call that waits to the entry that
// answers its wait, and not until its collect.
static BESIDE: [Step; 17] = [
    (1, Ask::ProcessNumber, Outcome::Number(Some(1))),
    (2, Ask::ProcessNumber, Outcome::Number(Some(2))),
    (1, Ask::Open(b"/q", CREATE, ONE), ZERO),
    (2, Ask::Open(b"/q", OPEN, None), ZERO),
    (1, Ask::BlockingSend(0, b"a", 1), Outcome::Done),
    (2, Ask::BlockingReceive(0), Outcome::Got),
    (1, Ask::BlockingTimedSend(0, b"b", 1, 0), Outcome::Done),
    (2, Ask::BlockingTimedReceive(0, 0), Outcome::Got),
    (1, Ask::AreBlocked(&[1]), Outcome::Is(false)),
    (1, Ask::Receive(0), Outcome::Waits),
    (1, Ask::AreBlocked(&[1]), Outcome::Is(true)),
    (2, Ask::AreBlocked(&[1, 2]), Outcome::Is(false)),
    (2, Ask::Send(0, b"c", 0), Outcome::Done),
    (1, Ask::AreBlocked(&[1]), Outcome::Is(false)),
    (1, Ask::Collect, Outcome::Got),
    (1, Ask::Exit, Outcome::Done),
    (1, Ask::Close(0), Outcome::Refused(Fault::BadDescriptor)),
];

#[test]
fn every_call_is_made_if_there_is_memory(rt: HostRuntime) {
    for kind in &KINDS {
        let Pair {
            mq,
            mut one,
            mut two,
        } = make_pair(&rt, rt.alloc(), *kind);
        take(&rt, &mq, &mut one, &mut two, &CALLS);
    }
    expect(&rt, rt.alloc(), Kind::Stored, (&BESIDE, &[]), 11);
}

#[test]
fn within_bounds_no_call_takes_memory(rt: HostRuntime) {
    expect(&rt, rt.alloc(), EXACT, (&[], &CALLS), 30);
}

#[test]
fn processes_collect_and_queues_end_without_memory(rt: HostRuntime) {
    let steps: (&[Step], &[Step]) = (&WAITING, &WITHOUT_MEMORY);
    expect(&rt, rt.alloc(), Kind::Stored, steps, 6);
}

// Each timed call waits for 20 milliseconds.
static LATE: [Step; 7] = [
    (1, Ask::Open(b"/q", CREATE, ONE), ZERO),
    (2, Ask::Open(b"/q", OPEN, None), ZERO),
    (
        1,
        Ask::BlockingTimedReceive(0, 20),
        Outcome::Refused(Fault::TimedOut),
    ),
    (1, Ask::Front, ZERO),
    (1, Ask::Send(0, b"a", 0), Outcome::Done),
    (
        2,
        Ask::BlockingTimedSend(0, b"b", 0, 20),
        Outcome::Refused(Fault::TimedOut),
    ),
    (1, Ask::Waiting, NONE),
];

#[test]
fn a_wait_is_withdrawn_at_its_deadline_and_not_before(rt: HostRuntime) {
    let clock = Monotonic::start(&rt).ok().expect(&rt, "a clock");
    expect(&rt, rt.alloc(), Kind::Stored, (&LATE, &[]), 7);
    let took = clock.now();
    assert!(&rt; took.sec > 0 || took.nsec >= 40_000_000);
}
