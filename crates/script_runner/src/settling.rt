//! The calls of a phase that wait for ever, and their processes.
ghost use Rattle.std.specs.Prelude.{◌≡◌, IfOk};
ghost use Rattle.script_runner.specs.Stands.{blocked_lines, blocked_processes};

use crate::turns::Worked;
use fast_mutex::Look;
use mq::{Guarded, Process};
use std::alloc::{AllocError, Global};

/// The lines of the calls that wait.
pub fn lines_of<L: Look<Guarded>>(
    alloc: Global,
    workers: &[Worked<Process<L>>],
) -> Result<Vec<u64>, AllocError>
    ensures { IfOk result (λ lines. lines.items ≡ blocked_lines workers.now) }
{
    let mut lines = Vec::new(alloc);
    for worked in workers {
        match worked.blocked {
            Some(line) => lines.push(line)?,
            None => {}
        }
    }
    Ok(lines)
}

/// The processes that wait.
pub fn blocked_of<L: Look<Guarded>>(
    alloc: Global,
    workers: &[Worked<Process<L>>],
) -> Result<Vec<u32>, AllocError>
    ensures { IfOk result (λ processes. processes.items ≡ blocked_processes workers.now) }
{
    let mut processes = Vec::new(alloc);
    for worked in workers {
        match worked.blocked {
            Some(_) => processes.push(worked.process.number())?,
            None => {}
        }
    }
    Ok(processes)
}
