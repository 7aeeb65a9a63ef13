//! Measures calls of `mq` from Rattle: one process that sends and receives in turn, or a crowd of
//! processes on one queue. Other workloads are measured from C (`tools/bench`).
#![tactic(auto)]

mod crowd;
mod pair;
mod systems;

use crowd::crowd;
use pair::pair;
use std::alloc::Global;
use std::env;
use std::io::Print;
use std::process::ExitCode;
use std::rt::Env;
use std::sync::Wait;
use std::thread::Threads;
use std::time::{Clock, Duration};
use text_io::words::count_of;

const USAGE: &str = "\
usage: measure [unstored] pair N      one process: a send and a receive in turn, N times each
       measure [unstored] crowd P N   P threads on one queue: half send N messages each, half receive
N from 1 to 10000000, P even and from 2 to 32. Without unstored the system stores its journal.";

/// The most rounds of a workload.
const MOST_ROUNDS: u32 = 10_000_000;

// What the arguments ask for.
#[derive(Clone, Copy)]
enum Workload {
    Pair { rounds: u32 },
    Crowd { processes: u32, rounds: u32 },
}

fn main(rt: HostRuntime) -> ExitCode {
    match measure(&rt, rt.alloc()) {
        Ok(()) => ExitCode::SUCCESS,
        Err(error) => {
            // If this line cannot be printed, there is nothing left to do.
            let _ = eprintln!(rt; "{error}");
            ExitCode::FAILURE
        }
    }
}

// Measures what the arguments ask for, and prints the time of a call. Without arguments it prints
// the usage.
fn measure(
    rt: &(impl Env + AllocGlobal + Print + Wait + Clock + Threads + Sync),
    alloc: Global,
) -> anyhow::Result<()> {
    let words: Vec<String> = env::args(rt)?.skip(1).collect(alloc)?;
    let (stores, rest) = match words.as_slice() {
        [first, rest @ ..] if first.as_str() == "unstored" => (false, rest),
        rest => (true, rest),
    };
    let Some(workload) = workload_of(rest) else {
        println!(rt; "{USAGE}")?;
        return Ok(());
    };
    let (title, operations, time) = match workload {
        Workload::Pair { rounds } => {
            (
                "pair",
                2 * u64::from(rounds),
                pair(rt, alloc, stores, rounds)?,
            )
        }
        Workload::Crowd { processes, rounds } => (
            "crowd",
            u64::from(processes) * u64::from(rounds),
            crowd(rt, alloc, stores, processes, rounds)?,
        ),
    };
    let tenths = each(time, operations);
    let (whole, tenth) = (tenths / 10, tenths % 10);
    println!(rt; "{title}: {operations} operations, {whole}.{tenth} ns each")?;
    Ok(())
}

// The workload that these words name, with sizes in their ranges.
fn workload_of(words: &[String]) -> Option<Workload> {
    match words {
        [name, rounds] if name.as_str() == "pair" => Some(Workload::Pair {
            rounds: count_of(MOST_ROUNDS, rounds.as_bytes())?,
        }),
        [name, processes, rounds] if name.as_str() == "crowd" => {
            let processes = count_of(32, processes.as_bytes())?;
            let rounds = count_of(MOST_ROUNDS, rounds.as_bytes())?;
            if processes % 2 == 0 {
                Some(Workload::Crowd { processes, rounds })
            } else {
                None
            }
        }
        _ => None,
    }
}

// The time of an operation in tenths of a nanosecond.
fn each(time: Duration, operations: u64) -> u128 {
    time.as_nanos().saturating_mul(10) / u128::from(operations.max(1))
}
