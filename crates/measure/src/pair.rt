//! One process that sends and receives in turn.
ghost use Rattle.measure.specs.Ready.{IsReady};

use crate::systems::{Lamport, MESSAGE, SIZE, make, open};
use mq::{Mq, Process};
use mq_model::faults::Fault;
use std::alloc::Global;
use std::sync::Wait;
use std::time::{Clock, Duration, Instant};

/// The time in which one process sends and receives in turn, `rounds` times each.
pub fn pair(
    rt: &(impl Wait + Clock),
    alloc: Global,
    stores: bool,
    rounds: u32,
) -> anyhow::Result<Duration> {
    let (mq, mut processes) = make(alloc, 1, stores)?;
    let Some(mut process) = processes.pop() else {
        unreachable!()
    };
    let d = open(rt, &mq, &mut process)?;
    let start = Instant::now(rt)?;
    pairs(rt, &mq, &mut process, d, rounds)?;
    Ok(start.elapsed(rt)?)
}

fn pairs<R: Wait + Clock>(
    rt: &R,
    mq: &Mq<Lamport>,
    process: &mut Process<Lamport>,
    d: u32,
    rounds: u32,
) -> Result<(), Fault>
    requires ready { IsReady mq.now process.old }
    ensures ready { IsReady mq.now process.new }
{
    let mut buffer = [0; SIZE];
    for _ in 0..rounds {
        process.send(rt, mq, d, &MESSAGE, 0)?;
        process.receive(rt, mq, d, &mut buffer)?;
    }
    Ok(())
}
