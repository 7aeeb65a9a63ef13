//! The codes that exports return, and what they write.
ghost use Rattle.std.specs.Prelude.{◌≡◌, Some, None};
ghost use Rattle.c_handles.specs.Codes.{code_of, written, given_code, given, notice_code, notice_given, sent_code, got_code, message_of, message_got, attributes_got, end_code, end_message};
ghost use Rattle.c_handles.specs.Endings.{look_code};

use crate::requests::{Attributes, Message};
use crate::tried::{Ending, Looked, Tried};
use mq::{Collected, Fault, Received, Status};

/// The call succeeded. The codes 1 to 13 are the numbers of errors.
pub const DONE: u32 = 0;

/// The lock is not acquired yet. Try again, best after yielding the processor.
pub const RETRY: u32 = 16;

/// The process now has an open wait, or still has it.
const WAITS: u32 = 17;

/// The handle is empty.
pub const EMPTY: u32 = 18;

/// The process has an open wait, and the call needs one without.
const WAITING: u32 = 19;

/// The process has no open wait.
const NOT_WAITING: u32 = 20;

/// The buffer is shorter than that of the waiting receive.
pub const SHORT: u32 = 21;

/// The wait has no deadline, or its deadline has not passed.
const EARLY: u32 = 22;

/// There is no notice.
const NO_NOTICE: u32 = 23;

/// A handle is not empty that must be.
pub const FULL: u32 = 24;

/// The journal has no entry with this sequence number.
pub const NO_ENTRY: u32 = 25;

/// Some process can still make a call.
pub const GOES_ON: u32 = 26;

/// The journal of the system is not stored, so it cannot be read.
pub const UNSTORED: u32 = 27;

/// A line of the text is not the line of an entry. (28 is used by the C functions over this
/// library.)
pub const BAD_LINE: u32 = 29;

/// An entry of the journal is not legal.
pub const ILLEGAL: u32 = 30;

/// An entry of the journal is of a process above the number of handles.
pub const FOREIGN: u32 = 31;

/// The code of a call that succeeds without a result, or fails.
pub fn done(tried: Option<Tried<Result<(), Fault>>>) -> u32
    ensures { result ≡ code_of given_code tried }
{
    match tried {
        None => EMPTY,
        Some(Tried::Retry) => RETRY,
        Some(Tried::Waiting) => WAITING,
        Some(Tried::Made(Ok(()))) => DONE,
        Some(Tried::Made(Err(fault))) => fault.number(),
    }
}

/// The code of an open, which writes the descriptor.
pub fn opened(tried: Option<Tried<Result<u32, Fault>>>, d: &mut u32) -> u32
    ensures code { result ≡ code_of given_code tried }
    ensures descriptor { d.new ≡ written (given d.old) d.old tried }
{
    match tried {
        None => EMPTY,
        Some(Tried::Retry) => RETRY,
        Some(Tried::Waiting) => WAITING,
        Some(Tried::Made(Ok(opened))) => {
            *d = opened;
            DONE
        }
        Some(Tried::Made(Err(fault))) => fault.number(),
    }
}

/// The code of a call that writes attributes.
pub fn attributes(tried: Option<Tried<Result<Status, Fault>>>, attributes: &mut Attributes) -> u32
    ensures code { result ≡ code_of given_code tried }
    ensures attributes { attributes.new ≡
        written (attributes_got attributes.old) attributes.old tried }
{
    match tried {
        None => EMPTY,
        Some(Tried::Retry) => RETRY,
        Some(Tried::Waiting) => WAITING,
        Some(Tried::Made(Ok(status))) => {
            *attributes = Attributes {
                maxmsg: status.maxmsg,
                msgsize: status.msgsize,
                curmsgs: status.curmsgs,
                nonblock: status.nonblock,
            };
            DONE
        }
        Some(Tried::Made(Err(fault))) => fault.number(),
    }
}

/// The code of the call for the oldest notice, which writes its value.
pub fn notice(tried: Option<Tried<Result<Option<u64>, Fault>>>, value: &mut u64) -> u32
    ensures code { result ≡ code_of notice_code tried }
    ensures value { value.new ≡ written (notice_given value.old) value.old tried }
{
    match tried {
        None => EMPTY,
        Some(Tried::Retry) => RETRY,
        Some(Tried::Waiting) => WAITING,
        Some(Tried::Made(Ok(Some(given)))) => {
            *value = given;
            DONE
        }
        Some(Tried::Made(Ok(None))) => NO_NOTICE,
        Some(Tried::Made(Err(fault))) => fault.number(),
    }
}

/// The code of a send.
pub fn sent(tried: Option<Tried<Result<bool, Fault>>>) -> u32
    ensures { result ≡ code_of sent_code tried }
{
    match tried {
        None => EMPTY,
        Some(Tried::Retry) => RETRY,
        Some(Tried::Waiting) => WAITING,
        Some(Tried::Made(Ok(true))) => DONE,
        Some(Tried::Made(Ok(false))) => WAITS,
        Some(Tried::Made(Err(fault))) => fault.number(),
    }
}

/// The code of a receive, which writes the length and priority of the message.
pub fn got(tried: Option<Tried<Result<Option<Received>, Fault>>>, message: &mut Message) -> u32
    ensures code { result ≡ code_of got_code tried }
    ensures message { message.new ≡ written (message_got message.old) message.old tried }
{
    match tried {
        None => EMPTY,
        Some(Tried::Retry) => RETRY,
        Some(Tried::Waiting) => WAITING,
        Some(Tried::Made(Ok(Some(received)))) => {
            *message = message_of(received);
            DONE
        }
        Some(Tried::Made(Ok(None))) => WAITS,
        Some(Tried::Made(Err(fault))) => fault.number(),
    }
}

/// The code of the end of a wait, which writes those of a received message.
pub fn ended(ending: Option<Ending>, message: &mut Message) -> u32
    ensures code { result ≡ end_code ending }
    ensures message { message.new ≡ end_message message.old ending }
{
    match ending {
        None => EMPTY,
        Some(Ending::Retry) => RETRY,
        Some(Ending::Unanswered) => WAITS,
        Some(Ending::NotWaiting) => NOT_WAITING,
        Some(Ending::Short) => SHORT,
        Some(Ending::TooEarly) => EARLY,
        Some(Ending::Withdrawn) => Fault::TimedOut.number(),
        Some(Ending::Came(Collected::Sent)) => DONE,
        Some(Ending::Came(Collected::Got(received))) => {
            *message = message_of(received);
            DONE
        }
    }
}

/// The code of a poll.
pub fn looked(looked: Option<Looked>) -> u32
    ensures { result ≡ look_code looked }
{
    match looked {
        None => EMPTY,
        Some(Looked::Answered) => DONE,
        Some(Looked::UnderWay) => RETRY,
        Some(Looked::Unanswered) => WAITS,
        Some(Looked::NotWaiting) => NOT_WAITING,
    }
}

fn message_of(received: Received) -> Message
    ensures { result ≡ message_of received }
{
    Message {
        len: received.len,
        prio: received.prio,
    }
}
