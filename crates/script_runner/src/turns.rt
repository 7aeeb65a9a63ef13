//! The calls of each process in a phase, and what they returned.
ghost use Rattle.std.specs.Prelude.{◌≡◌, ◌≤◌, [], IfOk, replicate, vec_len, vec_capacity};
ghost use Rattle.script_runner.specs.Buffer.{buffer_given};
ghost use Rattle.script_text.specs.Grammar.{said};

use script_text::command::Command;
use script_text::line::ScriptCall;
use script_text::reply::Completion;
use std::alloc::{AllocError, Global};

/// A call of a script with the buffer that a receive fills.
#[derive(Drop)]
pub struct Turn<'s> {
    pub call: ScriptCall<&'s [u8]>,
    pub buffer: Vec<u8>,
    ghost given: { buffer.items ≡ buffer_given (said call.command) },
}

/// A process with its calls of a phase, and room for what they return.
#[derive(Drop)]
pub struct Share<'s, P> {
    pub process: P,
    pub turns: Vec<Turn<'s>>,
    pub completions: Vec<Completion>,
    ghost none: { completions.items ≡ [] },
    ghost room: { vec_len turns ≤ vec_capacity completions },
}

/// A process that made its calls of a phase, with what they returned; or that made some of them,
/// and then waits for ever in the next one.
#[derive(Drop)]
pub struct Worked<P> {
    pub process: P,
    pub completions: Vec<Completion>,
    /// The line of the call that waits.
    pub blocked: Option<u64>,
}

/// A call with its buffer.
pub fn turn_of<'s>(alloc: Global, call: ScriptCall<&'s [u8]>) -> Result<Turn<'s>, AllocError>
    ensures { IfOk result (λ turn. turn.call ≡ call.entry) }
{
    let room = room_of(&call.command);
    let buffer = vec![in alloc; 0; room]?;
    Ok(Turn { call, buffer })
}

// The length of a call's buffer in bytes.
fn room_of(command: &Command<&[u8]>) -> usize
    ensures { replicate result 0 ≡ buffer_given (said command.now) }
{
    match command {
        Command::Receive { d: _, room } => *room,
        Command::TimedReceive {
            d: _,
            room,
            until: _,
        } => *room,
        _ => 0,
    }
}
