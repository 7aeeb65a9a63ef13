//! The outcome of an open wait.
ghost use Rattle.std.specs.Prelude.{◌≡◌, None};
ghost use Rattle.mq_model.specs.declared.entries.Reply.{Reply};

use crate::prefixes::Prefix;
use mq_model::entries::{Received, Reply};
use mq_model::faults::Fault;
use mq_model::journals::Journal;

/// The outcome of an open wait: its message was admitted, or a message was received.
#[derive(Clone, Copy, Debug, PartialEq, Eq)]
pub enum Collected {
    Sent,
    Got(Received),
}

/// The reply to a call, and if the call got a message, its length and priority.
#[derive(Clone, Copy, Debug, PartialEq, Eq)]
pub struct Answer {
    pub reply: Reply,
    pub received: Option<Received>,
}

impl Answer {
    /// The answer of a call that failed.
    pub(crate) fn refused(fault: Fault) -> Answer
        ensures { result ≡ record { reply = Reply.Refused fault; received = None } }
    {
        Answer {
            reply: Reply::Refused(fault),
            received: None,
        }
    }
}

ghost use Rattle.mq_state.specs.Buffers.{received_at};
ghost use Rattle.mq_ledger.specs.Ledgers.{CanRead};

/// The length and the priority of the message sent by entry `place`.
pub fn received(journal: &Journal, place: u64) -> Received
    ensures { result ≡ received_at journal.now.records place }
{
    received_from(&Prefix::of(journal), place)
}

/// The same, for a message that can be read.
#[inline(always)]
pub(crate) fn received_from(journal: &Prefix<'_>, place: u64) -> Received
    requires { CanRead journal.now place }
    ensures { result ≡ received_at journal.now.records place }
{
    let len = match journal.payload(place) {
        Some(message) => message.len(),
        None => 0,
    };
    Received {
        len,
        prio: journal.priority(place),
    }
}
