// Runs a script of message queue calls, from standard input to standard output.
#![tactic(auto)]

use fast_mutex::FastMutex;
use mq::Guarded;
use script_runner::{Plain, run_script};
use std::io;
use std::process::ExitCode;

fn main(rt: HostRuntime) -> ExitCode {
    let (mut input, mut output) = (rt.reader(), io::writer(&rt));
    let outcome = run_script::<FastMutex<Guarded>, _, _, _, _>(
        &rt,
        rt.alloc(),
        &mut input,
        &mut output,
        &Plain,
    );
    match outcome {
        Ok(()) => ExitCode::SUCCESS,
        Err(fault) => {
            // If this line cannot be written, there is nothing left to do.
            let _ = eprintln!(rt; "{fault}");
            ExitCode::from(fault.status())
        }
    }
}
