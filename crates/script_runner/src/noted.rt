//! What the calls of a phase returned, by process.
ghost use Rattle.std.specs.Prelude.{◌≡◌, ◌++◌, IfOk, OnOk};
ghost use Rattle.script_runner.specs.Notes.{is_refused, line_of, lines_of, some_refused};
ghost use Rattle.script_runner.specs.Phase.{text_in};
ghost use Rattle.script_text.specs.Replies.{reply_line};
ghost use Rattle.script_text.specs.ReplyLines.{reply_lines};

use crate::turns::Worked;
use fast_mutex::Look;
use mq::{Guarded, Process};
use mq_model::faults::Fault;
use script_text::reply::{Completion, Outcome};
use std::alloc::{AllocError, Global};

/// A process, and what a call of it returned.
#[derive(Drop)]
pub struct Noted {
    pub process: u32,
    pub completion: Completion,
}

/// Notes what the calls of a phase returned: those of the first process first, each process's in
/// order. A call that did not return is left out.
pub fn note_all<L: Look<Guarded>>(
    alloc: Global,
    noted: &mut Vec<Noted>,
    workers: &[Worked<Process<L>>],
) -> Result<(), AllocError>
    ensures { OnOk result (lines_of noted.new.items ≡
        lines_of noted.old.items ++ text_in workers.now) }
{
    for worked in workers {
        note_completions(
            alloc,
            noted,
            worked.process.number(),
            worked.completions.as_slice(),
        )?;
    }
    Ok(())
}

// Notes what the calls of one process returned.
fn note_completions(
    alloc: Global,
    noted: &mut Vec<Noted>,
    process: u32,
    completions: &[Completion],
) -> Result<(), AllocError>
    ensures { OnOk result (lines_of noted.new.items ≡
        lines_of noted.old.items ++ reply_lines process completions.now) }
{
    for completion in completions {
        noted.push(noted_of(alloc, process, completion)?)?;
    }
    Ok(())
}

fn noted_of(alloc: Global, process: u32, completion: &Completion) -> Result<Noted, AllocError>
    ensures { IfOk result (λ noted. line_of noted ≡
        reply_line process completion.now.outcome completion.now.buffer.items) }
{
    let buffer = completion.buffer.as_slice().to_vec(alloc)?;
    Ok(Noted {
        process,
        completion: Completion {
            outcome: completion.outcome,
            buffer,
        },
    })
}

/// Whether one of these calls failed with `NoMemory`.
pub fn some_refused(noted: &[Noted]) -> bool
    ensures { result ≡ some_refused noted.now }
{
    noted.iter().any(|one| is_refused(one.completion.outcome))
}

fn is_refused(outcome: Outcome) -> bool
    ensures { result ≡ is_refused outcome }
{
    match outcome {
        Outcome::Refused(Fault::NoMemory) => true,
        _ => false,
    }
}
