//! Dealing the calls of a phase to its processes.
ghost use Rattle.std.specs.Prelude.{◌≡◌, IfOk, map};
ghost use Rattle.std.specs.List.{All};
ghost use Rattle.script_runner.specs.Phase.{calls_in};
ghost use Rattle.script_runner.specs.Runs.{calls_of};
ghost use Rattle.script_text.specs.Script.{said_calls};

use crate::turns::{Share, Turn, Worked, turn_of};
use fast_mutex::Look;
use mq::{Guarded, Process};
use script_text::line::ScriptCall;
use std::alloc::{AllocError, Global};

/// Gives each process its calls of a phase. Takes all the memory that the calls need outside the
/// queues.
pub fn shares_of<'s, L: Look<Guarded>>(
    alloc: Global,
    processes: Vec<Process<L>>,
    calls: &[ScriptCall<&'s [u8]>],
) -> Result<Vec<Share<'s, Process<L>>>, AllocError>
    ensures processes { IfOk result (λ shares. map (λ share. share.process) shares.items ≡
        processes.items) }
    ensures calls { IfOk result (λ shares.
        All (λ share. calls_in share.turns.items ≡ calls_of share.process.number
        (said_calls calls.now)) shares.items) }
{
    let mut shares = Vec::with_capacity(alloc, processes.len())?;
    for process in processes {
        let share = share_of(alloc, process, calls)?;
        shares.push(share)?;
    }
    Ok(shares)
}

fn share_of<'s, L: Look<Guarded>>(
    alloc: Global,
    process: Process<L>,
    calls: &[ScriptCall<&'s [u8]>],
) -> Result<Share<'s, Process<L>>, AllocError>
    ensures process { IfOk result (λ share. share.process ≡ process) }
    ensures calls { IfOk result (λ share. calls_in share.turns.items ≡
        calls_of process.number (said_calls calls.now)) }
{
    let turns = turns_of(alloc, process.number(), calls)?;
    let completions = Vec::with_capacity(alloc, turns.len())?;
    Ok(Share {
        process,
        turns,
        completions,
    })
}

// The calls of a process, each with its buffer.
fn turns_of<'s>(
    alloc: Global,
    process: u32,
    calls: &[ScriptCall<&'s [u8]>],
) -> Result<Vec<Turn<'s>>, AllocError>
    ensures { IfOk result (λ turns.
        calls_in turns.items ≡ calls_of process (said_calls calls.now)) }
{
    let mut turns = Vec::new(alloc);
    for call in calls {
        if call.process == process {
            turns.push(turn_of(alloc, *call)?)?;
        }
    }
    Ok(turns)
}

/// The processes of a phase that has ended.
pub fn processes_of<L: Look<Guarded>>(
    alloc: Global,
    workers: Vec<Worked<Process<L>>>,
) -> Result<Vec<Process<L>>, AllocError>
    ensures { IfOk result (λ processes.
        processes.items ≡ map (λ worked. worked.process) workers.items) }
{
    let mut processes = Vec::with_capacity(alloc, workers.len())?;
    for worked in workers {
        processes.push(worked.process)?;
    }
    Ok(processes)
}
