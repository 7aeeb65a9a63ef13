//! The lines of replies.
ghost use Rattle.std.specs.Prelude.{◌≡◌, ◌++◌, IfOk, OnOk, length, string_bytes, vec_len};
ghost use Rattle.script_text.specs.Replies.{HasMessage, message_received, outcome_text, reply_line};

use mq_model::entries::{Received, Status};
use mq_model::faults::Fault;
use std::alloc::{AllocError, Global};

/// What a call of a script returned.
#[derive(Clone, Copy, PartialEq, Eq)]
pub enum Outcome {
    Opened(u32),
    Done,
    Got(Received),
    Attrs(Status),
    Notice(Option<u64>),
    Refused(Fault),
}

/// What a call returned, with its buffer. A received message is at the start of the buffer.
#[derive(Drop)]
pub struct Completion {
    pub outcome: Outcome,
    pub buffer: Vec<u8>,
    ghost message: { HasMessage outcome (vec_len buffer) },
}

/// Appends the line of a reply. The message of a receive is at the start of its buffer.
pub fn push_reply(
    alloc: Global,
    text: &mut Vec<u8>,
    process: u32,
    outcome: &Outcome,
    buffer: &[u8],
) -> Result<(), AllocError>
    requires { HasMessage outcome.now (length buffer.now) }
    ensures { OnOk result (text.new.items ≡ text.old.items ++
        reply_line process outcome.now buffer.now) }
{
    let words = outcome_words(alloc, outcome)?;
    let line = format!(in alloc; "{process} {words}")?;
    text.extend_from_slice(line.as_bytes())?;
    let message = message_of(outcome, buffer);
    if !message.is_empty() {
        text.push(b' ')?;
        text.extend_from_slice(message)?;
    }
    text.push(b'\n')?;
    Ok(())
}

// The words after the process, without a received message.
fn outcome_words(alloc: Global, outcome: &Outcome) -> Result<String, AllocError>
    ensures { IfOk result (λ words. string_bytes words ≡ outcome_text outcome.now) }
{
    match *outcome {
        Outcome::Opened(d) => format!(in alloc; "fd {d}"),
        Outcome::Done => String::from_str(alloc, "ok"),
        Outcome::Got(received) => {
            let (prio, len) = (received.prio, received.len);
            format!(in alloc; "got {prio} {len}")
        }
        Outcome::Attrs(status) => {
            let nonblock = u8::from(status.nonblock);
            let (maxmsg, msgsize, curmsgs) = (status.maxmsg, status.msgsize, status.curmsgs);
            format!(in alloc; "attr {nonblock} {maxmsg} {msgsize} {curmsgs}")
        }
        Outcome::Notice(Some(value)) => format!(in alloc; "notice {value}"),
        Outcome::Notice(None) => String::from_str(alloc, "notice none"),
        Outcome::Refused(fault) => String::from_str(alloc, fault.name()),
    }
}

// The message that was received, or no bytes if none was.
fn message_of<'b>(outcome: &Outcome, buffer: &'b [u8]) -> &'b [u8]
    requires { HasMessage outcome.now (length buffer.now) }
    ensures { result.now ≡ message_received outcome.now buffer.now }
{
    match outcome {
        Outcome::Got(received) => &buffer[..received.len],
        _ => &[],
    }
}
