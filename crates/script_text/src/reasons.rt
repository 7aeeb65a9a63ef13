//! Why a line of a script is malformed, in words for the one who wrote it.
ghost use Rattle.std.specs.Prelude.{None};

use crate::command::command_of;
use crate::line::{clock_of, is_clock, is_skipped, processes_of};
use crate::script::MOST_BYTES;
use crate::verb::{Verb, verb_of};
use mq_model::limits::PROCESSES;
use std::alloc::{AllocError, Global};
use std::fmt;
use text_io::words::{count_of, small_number, words};

/// Why a line of a script is malformed.
#[derive(Clone, Copy, PartialEq, Eq)]
pub enum Reason {
    /// There is another line where `processes N` belongs, or none.
    NoProcesses,
    /// The N of `processes N` is this number, which is not from 1 to 32, or it is none.
    ProcessCount(Option<u32>),
    /// A `clock` line comes after a call of its phase.
    LateClock,
    /// A `clock` line is not as the grammar has it.
    Clock,
    /// The line begins with this number, which is not from 1 to the number of processes, or with
    /// none.
    Process(Option<u32>, u32),
    /// No call has this name.
    NoCall,
    /// The words after the name of a call are not as the grammar has them.
    Words(Verb),
    /// The script has more bytes than are allowed.
    TooLong,
    /// The script has more calls than are allowed.
    TooManyCalls,
}

/// The words of a call, as docs/formats.md has them.
fn usage(verb: Verb) -> &'static str {
    match verb {
        Verb::Open => "P open NAME FLAGS [MAXMSG MSGSIZE]",
        Verb::Close => "P close D",
        Verb::Unlink => "P unlink NAME",
        Verb::Send => "P send D PRIO [TEXT]",
        Verb::Receive => "P recv D LEN",
        Verb::TimedSend => "P tsend D PRIO SEC NSEC [TEXT]",
        Verb::TimedReceive => "P trecv D LEN SEC NSEC",
        Verb::Getattr => "P getattr D",
        Verb::Setattr => "P setattr D F",
        Verb::Notify => "P notify D VALUE",
        Verb::Notice => "P notice",
        Verb::Exit => "P exit",
        Verb::Collect | Verb::Withdraw => "",
    }
}

/// What else the words of a call have to be.
fn ranges(verb: Verb) -> &'static str {
    match verb {
        Verb::Open => ", with FLAGS one of r, w, b and then any of c, x, n, each at most once",
        Verb::Receive | Verb::TimedReceive => ", with LEN from 0 to 65536",
        Verb::Setattr => ", with F 0 or 1",
        Verb::Notify => ", with VALUE a number, or - to remove the registration",
        _ => "",
    }
}

impl fmt::Display for Reason {
    ghost output = { λ _. None };

    fn fmt<W: fmt::Write>(&self, f: &mut fmt::Formatter<W>) -> fmt::Result {
        match *self {
            Reason::NoProcesses => f.write_str("the first line has to be processes N"),
            Reason::ProcessCount(Some(count)) if count > PROCESSES => {
                write!(f, "{count} processes, at most {PROCESSES}")
            }
            Reason::ProcessCount(_) => write!(f, "processes N has N from 1 to {PROCESSES}"),
            Reason::LateClock => f.write_str("the clock is set before the calls of its phase"),
            Reason::Clock => f.write_str("as clock SEC NSEC, with NSEC from 0 to 999999999"),
            Reason::Process(Some(process), count) => {
                write!(f, "process {process}, and the script has processes {count}")
            }
            Reason::Process(None, count) => {
                write!(f, "a call begins with its process, from 1 to {count}")
            }
            Reason::NoCall => f.write_str("no call has this name"),
            Reason::Words(verb) => write!(f, "as {}{}", usage(verb), ranges(verb)),
            Reason::TooLong => write!(f, "a script has at most {MOST_BYTES} bytes"),
            Reason::TooManyCalls => f.write_str("a script has at most 1000 calls"),
        }
    }
}

/// Why this line of a script, counted from 1, is malformed, if it is the first one. Its text is the
/// same, or longer by what follows the line.
pub fn reason_of(alloc: Global, text: &[u8], number: u64) -> Result<Reason, AllocError> {
    let mut processes = None;
    let mut at: u64 = 0;
    let mut bytes: usize = 0;
    for line in text.split(|b| *b == b'\n') {
        at = at.saturating_add(1);
        bytes = bytes.saturating_add(line.len()).saturating_add(1);
        let words = words(alloc, line)?;
        if at == number {
            if bytes.min(text.len()) > MOST_BYTES {
                return Ok(Reason::TooLong);
            }
            return Ok(reason_in(processes, words.as_slice()));
        }
        if processes.is_none() && !is_skipped(words.as_slice()) {
            processes = processes_of(words.as_slice());
        }
    }
    Ok(Reason::NoProcesses)
}

// Why the first malformed line is so, given its words and the number of processes.
fn reason_in(processes: Option<u32>, words: &[&[u8]]) -> Reason {
    let Some(count) = processes else {
        return reason_of_first(words);
    };
    if is_clock(words) {
        return match clock_of(words) {
            Some(_) => Reason::LateClock,
            None => Reason::Clock,
        };
    }
    match words {
        [process, ..] if count_of(count, process).is_none() => {
            Reason::Process(small_number(process), count)
        }
        [_, call @ ..] => reason_of_call(call),
        [] => Reason::TooManyCalls,
    }
}

// Why the line that should give the number of processes does not.
fn reason_of_first(words: &[&[u8]]) -> Reason {
    match words {
        [word, count] if *word == b"processes".as_slice() => {
            Reason::ProcessCount(small_number(count))
        }
        [word, ..] if *word == b"processes".as_slice() => Reason::ProcessCount(None),
        _ => Reason::NoProcesses,
    }
}

// Why a call of a process that the script has is malformed.
fn reason_of_call(words: &[&[u8]]) -> Reason {
    let Some(word) = words.first() else {
        return Reason::NoCall;
    };
    match verb_of(word) {
        None | Some(Verb::Collect) | Some(Verb::Withdraw) => Reason::NoCall,
        Some(verb) if command_of(words).is_none() => Reason::Words(verb),
        Some(_) => Reason::TooManyCalls,
    }
}
