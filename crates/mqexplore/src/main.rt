//! Chooses the schedules under which a launcher runs a program. It reads traces from standard input
//! and writes requests to standard output.
#![tactic(auto)]

mod ask;
mod pipe;

use ask::options_of;
use exploration::explore::explore;
use exploration::fault::Fault;
use exploration::trace::Lines;
use pipe::{Pipe, summary_text};
use std::alloc::Global;
use std::io;
use std::io::{BufReader, Input, Print};
use std::process::ExitCode;

fn main(rt: HostRuntime) -> ExitCode {
    match run(&rt, rt.alloc()) {
        Ok(()) => ExitCode::SUCCESS,
        Err(fault) => {
            // If this cannot be written, there is nothing left to do.
            let _ = eprintln!(rt; "{fault}");
            ExitCode::from(2)
        }
    }
}

fn run(rt: &(impl Print + Input), alloc: Global) -> Result<(), Fault> {
    let Ok(input) = BufReader::new(alloc, rt.reader()) else {
        return Err(Fault::NoMemory);
    };
    let mut lines = Lines::new(alloc, input);
    if !lines.advance()? {
        return Err(Fault::Ended);
    }
    let Some(options) = options_of(alloc, lines.line())? else {
        return Err(lines.malformed());
    };
    let mut pipe = Pipe::new(alloc, lines, io::writer(rt), options.limits.steps);
    match explore(alloc, &mut pipe, options) {
        Ok(summary) => {
            let text = summary_text(alloc, &summary)?;
            pipe.say(&text)
        }
        Err(Fault::Unfit) => pipe.say("done unfit\n"),
        Err(fault) => Err(fault),
    }
}
