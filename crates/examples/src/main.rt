// Examples of the library, one per file. Each runs on its own and prints what it observed.
#![tactic(auto)]

mod by_priority;
mod deadlines;
mod journal;
mod nonblocking;
mod notice;
mod one_process;
mod real_time;
mod two_tools;
mod waiting;

use std::alloc::Global;
use std::io::Print;
use std::process::ExitCode;
use std::sync::Wait;
use std::thread::Threads;
use std::time::Clock;

fn run_all(rt: &(impl Print + Wait + Clock + Threads + Sync), alloc: Global) -> anyhow::Result<()> {
    one_process::run(rt, alloc)?;
    by_priority::run(rt, alloc)?;
    nonblocking::run(rt, alloc)?;
    notice::run(rt, alloc)?;
    waiting::run(rt, alloc)?;
    deadlines::run(rt, alloc)?;
    journal::run(rt, alloc)?;
    real_time::run(rt, alloc)?;
    two_tools::run(rt, alloc)
}

fn main(rt: HostRuntime) -> ExitCode {
    match run_all(&rt, rt.alloc()) {
        Ok(()) => ExitCode::SUCCESS,
        Err(error) => {
            // If this line cannot be printed, there is nothing left to do.
            let _ = eprintln!(rt; "{error}");
            ExitCode::FAILURE
        }
    }
}
