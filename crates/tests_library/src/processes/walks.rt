//! Processes that acquire the lock step by step.
ghost use Rattle.std.specs.Prelude.{◌≡◌};
ghost use Rattle.mq.specs.Calls.{IsFree};

use super::{Pair, finish, make_pair, room};
use crate::books::expect_legal;
use crate::refusals::say_refused;
use crate::steps::{CREATE, Kind, ONE};
use mq::{Call, FastAcquisition, FastGuard, FastMq, FastProcess, Fault, Name};
use std::io::Print;
use std::process::Abort;

const OPEN: Call = Call::MqOpen {
    flags: CREATE,
    attr: ONE,
};

// The process after it tried to open a queue, and whether memory was refused.
fn opens<A: Abort>(rt: &A, mq: &FastMq, guard: FastGuard) -> (FastProcess, bool)
    requires made { guard.process.lock ≡ mq.now }
    requires free { IsFree guard.process }
    ensures { (result.0.lock ≡ mq.now) × IsFree result.0 }
{
    let name = Name::read(b"/q").ok().expect(rt, "a name");
    let (departed, opened) = guard.make::<Result<u32, Fault>>(mq, OPEN, name.bytes(), &mut []);
    (departed.wake_others(mq), opened == Err(Fault::NoMemory))
}

// The process after it opened a queue. An allocation may be made to fail from outside.
fn opened<R: Abort + Print>(rt: &R, mq: &FastMq, guard: FastGuard) -> FastProcess
    requires made { guard.process.lock ≡ mq.now }
    requires free { IsFree guard.process }
    ensures { (result.lock ≡ mq.now) × IsFree result }
{
    let (process, is_refused) = opens(rt, mq, guard);
    if !is_refused {
        return process;
    }
    say_refused(rt, "an open");
    opens(rt, mq, in_by_the_fifth(rt, mq, process)).0
}

// The process acquires the lock by its fifth step and not before.
fn in_by_the_fifth<A: Abort>(rt: &A, mq: &FastMq, process: FastProcess) -> FastGuard
    requires { process.lock ≡ mq.now }
    ensures { result.process ≡ process }
{
    let Err(process) = process.acquisition(mq).advance(mq, 4) else {
        panic!(rt; "inside by four steps")
    };
    if process.futex_word().is_some() {
        panic!(rt; "it may sleep, though its last step made progress")
    }
    process
        .advance(mq, 1)
        .ok()
        .expect(rt, "inside by five steps")
}

// The process does not acquire the lock. Its last step made no progress, so it may sleep.
fn kept_out<A: Abort>(rt: &A, mq: &FastMq, process: FastProcess) -> FastAcquisition
    requires { process.lock ≡ mq.now }
    ensures { result.process ≡ process }
{
    let Err(process) = process.acquisition(mq).advance(mq, 1_000) else {
        panic!(rt; "two processes inside")
    };
    if process.futex_word().is_none() {
        panic!(rt; "it may not sleep, though its last step made no progress")
    }
    process
}

// The process acquires the lock and releases it without a call.
fn in_and_out<A: Abort>(rt: &A, mq: &FastMq, process: FastAcquisition) -> FastProcess
    requires { process.process.lock ≡ mq.now }
    ensures { result.lock ≡ mq.now }
{
    let guard = process
        .advance(mq, 1_000)
        .ok()
        .expect(rt, "inside once nobody is there");
    guard.leave(mq).wake_others(mq)
}

// Process 1 acquires the lock by its fifth step and not before, and opens a queue. Meanwhile
// process 2 does not acquire it; later it acquires it and releases it without a call.
#[test]
fn five_steps_lead_inside_where_nobody_else_is(rt: HostRuntime) {
    let Pair { mq, one, two } = make_pair(&rt, rt.alloc(), Kind::Stored);
    let one = in_by_the_fifth(&rt, &mq, one);
    let two = kept_out(&rt, &mq, two);
    let one = opened(&rt, &mq, one);
    let two = in_and_out(&rt, &mq, two);
    let journal = finish(&rt, room(&rt, rt.alloc()), mq, one, two);
    expect_legal(&rt, &journal, 1);
}
