//! The text of the replies in a journal.
ghost use Rattle.std.specs.Prelude.{◌≡◌, ◌++◌, OnOk};
ghost use Rattle.script_orders.specs.Said.{said, said_of_collect, said_of_message};

use mq_model::entries::Reply;
use mq_model::journals::Journal;
use mq_state::collected::received;
use script_text::reply::{Outcome, push_reply};
use std::alloc::{AllocError, Global};

/// Appends the text of a reply to process p, the last in the journal: nothing if the call waits.
pub fn push_said(
    alloc: Global,
    text: &mut Vec<u8>,
    journal: &Journal,
    p: u32,
    reply: Reply,
) -> Result<(), AllocError>
    ensures { OnOk result (text.new.items ≡ text.old.items ++ said journal.now.records p reply) }
{
    match reply {
        Reply::Opened { d, created: _ } => push_reply(alloc, text, p, &Outcome::Opened(d), &[]),
        Reply::Queued { notified: _ } => push_reply(alloc, text, p, &Outcome::Done, &[]),
        Reply::Handed { wait: _ } => push_reply(alloc, text, p, &Outcome::Done, &[]),
        Reply::Got {
            place,
            admitted: _,
            notified: _,
        } => push_message(alloc, text, journal, p, place),
        Reply::Collected { by } => push_collected(alloc, text, journal, p, by),
        Reply::Attrs(status) => push_reply(alloc, text, p, &Outcome::Attrs(status), &[]),
        Reply::Notice(value) => push_reply(alloc, text, p, &Outcome::Notice(value), &[]),
        Reply::Done => push_reply(alloc, text, p, &Outcome::Done, &[]),
        Reply::Refused(fault) => push_reply(alloc, text, p, &Outcome::Refused(fault), &[]),
        Reply::Waits | Reply::Withdrawn { wait: _ } => Ok(()),
    }
}

// Appends the text for a receive of the message that the entry at `place` sent.
fn push_message(
    alloc: Global,
    text: &mut Vec<u8>,
    journal: &Journal,
    p: u32,
    place: u64,
) -> Result<(), AllocError>
    ensures { OnOk result (text.new.items ≡ text.old.items ++
        said_of_message journal.now.records p place) }
{
    let message = match journal.payload(place) {
        Some(message) => message,
        None => &[],
    };
    push_reply(
        alloc,
        text,
        p,
        &Outcome::Got(received(journal, place)),
        message,
    )
}

// Appends the text for a wait that the entry at `place` answered.
fn push_collected(
    alloc: Global,
    text: &mut Vec<u8>,
    journal: &Journal,
    p: u32,
    by: u64,
) -> Result<(), AllocError>
    ensures { OnOk result (text.new.items ≡ text.old.items ++
        said_of_collect journal.now.records p by) }
{
    let is_sent = match journal.entry(by) {
        Some(entry) => entry.call.is_send(),
        None => false,
    };
    if is_sent {
        push_message(alloc, text, journal, p, by)
    } else {
        push_reply(alloc, text, p, &Outcome::Done, &[])
    }
}
