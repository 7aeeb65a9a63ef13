//! Processes on one queue, with one thread for each: half of them send, and half receive.
ghost use Rattle.std.specs.Prelude.{◌≡◌, ◌≤◌, IsSome, IfSome, OnOk, length};
ghost use Rattle.std.specs.List.{All};
ghost use Rattle.mq_state.specs.Buffers.{waiting_room};
ghost use Rattle.measure.specs.Ready.{IsReady};

use crate::systems::{Lamport, MESSAGE, SIZE, make, open};
use mq::{Mq, Process, SleepTimes};
use mq_model::faults::Fault;
use std::alloc::Global;
use std::sync::{OnceLock, Wait};
use std::thread;
use std::thread::{Scope, Threads};
use std::time::{Clock, Duration, Instant};

// The first error of a thread. The others then end, too.
type Failure = OnceLock<Fault>;

/// The time in which half of `count` processes send `rounds` messages each and the others receive
/// them, from the start of the first thread to the end of the last.
pub fn crowd<R: Wait + Threads + Clock + Sync>(
    rt: &R,
    alloc: Global,
    stores: bool,
    count: u32,
    rounds: u32,
) -> anyhow::Result<Duration> {
    let (mq, processes) = make(alloc, count, stores)?;
    let failure = Failure::new();
    let start = Instant::now(rt)?;
    in_threads(rt, &mq, &failure, processes, rounds)?;
    let time = start.elapsed(rt)?;
    match failure.get() {
        Some(fault) => Err((*fault).into()),
        None => Ok(time),
    }
}

// Starts the threads. They have all ended when it returns.
fn in_threads<R: Wait + Threads + Clock + Sync>(
    rt: &R,
    mq: &Mq<Lamport>,
    failure: &Failure,
    processes: Vec<Process<Lamport>>,
    rounds: u32,
) -> Result<(), Fault>
    requires ready { All (IsReady mq.now) processes.items }
{
    thread::scope(
        thread::scope_env(),
        rt,
        |scope| -> Result<(), Fault>
            requires { All (IsReady mq.now) processes.items }
        { start_all(scope, rt, mq, failure, processes, rounds) },
    )
}

// Starts a thread for each process; every second one receives.
fn start_all<'s, E, R: Wait + Clock + Sync>(
    scope: &Scope<'s, E>,
    rt: &'s R,
    mq: &'s Mq<Lamport>,
    failure: &'s Failure,
    processes: Vec<Process<Lamport>>,
    rounds: u32,
) -> Result<(), Fault>
    requires ready { All (IsReady mq.now) processes.items }
{
    let mut sends = true;
    for mut process in processes {
        let d = match open(rt, mq, &mut process) {
            Ok(d) => d,
            Err(fault) => return stop(failure, fault),
        };
        let started = scope.spawn(
            move || -> ()
                requires { IsReady mq.now process }
            { take_part(rt, mq, failure, process, d, sends, rounds) },
        );
        if started.is_err() {
            return stop(failure, Fault::NoMemory);
        }
        sends = !sends;
    }
    Ok(())
}

// Ends the other threads.
fn stop(failure: &Failure, fault: Fault) -> Result<(), Fault> {
    let _ = failure.try_set(fault);
    Err(fault)
}

fn take_part<R: Wait + Clock>(
    rt: &R,
    mq: &Mq<Lamport>,
    failure: &Failure,
    mut process: Process<Lamport>,
    d: u32,
    sends: bool,
    rounds: u32,
)
    requires ready { IsReady mq.now process }
{
    if let Err(fault) = all_rounds(rt, mq, failure, &mut process, d, sends, rounds) {
        let _ = failure.try_set(fault);
    }
}

fn all_rounds<R: Wait + Clock>(
    rt: &R,
    mq: &Mq<Lamport>,
    failure: &Failure,
    process: &mut Process<Lamport>,
    d: u32,
    sends: bool,
    rounds: u32,
) -> Result<(), Fault>
    requires ready { IsReady mq.now process.old }
    ensures ready { OnOk result (IsReady mq.now process.new) }
{
    for _ in 0..rounds {
        if sends {
            send(rt, mq, failure, process, d)?;
        } else {
            receive(rt, mq, failure, process, d)?;
        }
    }
    Ok(())
}

fn send<R: Wait + Clock>(
    rt: &R,
    mq: &Mq<Lamport>,
    failure: &Failure,
    process: &mut Process<Lamport>,
    d: u32,
) -> Result<(), Fault>
    requires ready { IsReady mq.now process.old }
    ensures ready { OnOk result (IsReady mq.now process.new) }
{
    if process.start_send(rt, mq, d, &MESSAGE, 0)? {
        return Ok(());
    }
    await_end(rt, mq, failure, process, &mut [])
}

fn receive<R: Wait + Clock>(
    rt: &R,
    mq: &Mq<Lamport>,
    failure: &Failure,
    process: &mut Process<Lamport>,
    d: u32,
) -> Result<(), Fault>
    requires ready { IsReady mq.now process.old }
    ensures ready { OnOk result (IsReady mq.now process.new) }
{
    let mut buffer = [0; SIZE];
    match process.start_receive(rt, mq, d, &mut buffer)? {
        Some(_) => Ok(()),
        None => await_end(rt, mq, failure, process, &mut buffer),
    }
}

// Waits until the open wait is answered, and ends it; or until another thread has failed.
fn await_end<R: Wait + Clock>(
    rt: &R,
    mq: &Mq<Lamport>,
    failure: &Failure,
    process: &mut Process<Lamport>,
    buffer: &mut [u8],
) -> Result<(), Fault>
    requires made { process.old.lock ≡ mq.now }
    requires wait { IsSome (waiting_room process.old.left process.old.number) }
    requires room { IfSome (waiting_room process.old.left process.old.number)
        (λ room. room ≤ length buffer.old) }
    ensures ready { OnOk result (IsReady mq.now process.new) }
{
    let mut sleep_times = SleepTimes::new();
    'polls: for _ in rt.forever() {
        if process.await_answer(rt, mq, sleep_times.next()) {
            break;
        }
        if let Some(fault) = failure.get() {
            return Err(*fault);
        }
    }
    match process.collect(rt, mq, buffer) {
        Some(_) => Ok(()),
        None => unreachable!(),
    }
}
