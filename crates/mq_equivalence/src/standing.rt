//! The places of the messages in a queue, and of the sends and receives that wait on it.
#![tactic(auto, using(mq_model::proofs::Prefixes::prefixes))]

ghost use Rattle.std.specs.Prelude.{◌≡◌, ◌++◌, false, get_or, IfOk, IsTrue, length};
ghost use Rattle.std.specs.Option.{option_to_list};
ghost use Rattle.mq_model.specs.Descriptors.{alive};
ghost use Rattle.mq_model.specs.Messages.{blocks_receive, ends_receive, ends_send, is_in};
ghost use Rattle.mq_checker.specs.TakenTable.{marked};
ghost use Rattle.mq_equivalence.specs.Kinds.{AreMarked, ended, ends, in_order, standing};

use crate::lines::by_priority;
use mq_checker::scan_names::entry_at;
use mq_checker::taken::taken_by;
use mq_model::callers::WaitKind;
use mq_model::entries::{Call, Reply};
use mq_model::journals::Journal;
use mq_state::trail::Trail;
use std::alloc::{AllocError, Global};

/// What a queue has.
#[derive(Clone, Copy)]
pub enum Kind {
    /// Its messages.
    Messages,
    /// The sends that wait for room.
    Senders,
    /// The receives that wait for a message.
    Receivers,
}

/// Whether the reply of a receive is that it waits.
pub fn blocks_receive(call: Call, reply: Reply) -> bool
    ensures { result ≡ blocks_receive call reply }
{
    match reply {
        Reply::Waits => call.is_receive(),
        _ => false,
    }
}

fn ends_send(reply: Reply) -> Option<u64>
    ensures { result ≡ ends_send reply }
{
    match reply {
        Reply::Got {
            place: _,
            admitted,
            notified: _,
        } => admitted,
        Reply::Withdrawn { wait } => Some(wait),
        _ => None,
    }
}

fn ends_receive(reply: Reply) -> Option<u64>
    ensures { result ≡ ends_receive reply }
{
    match reply {
        Reply::Handed { wait } => Some(wait),
        Reply::Withdrawn { wait } => Some(wait),
        _ => None,
    }
}

// The place of this kind that the reply at place `here` removes.
fn ends(kind: Kind, here: u64, reply: Reply) -> Option<u64>
    ensures { result ≡ ends kind here reply }
{
    match kind {
        Kind::Messages => taken_by(here, reply),
        Kind::Senders => ends_send(reply),
        Kind::Receivers => ends_receive(reply),
    }
}

// Marks a place, if the table has it.
fn mark(marks: &mut [bool], place: Option<u64>)
    ensures { marks.new ≡ marked marks.old place }
{
    if let Some(m) = place {
        if m < marks.len() as u64 {
            marks[m as usize] = true;
        }
    }
}

/// Which places of a kind were removed.
pub fn gone(alloc: Global, journal: &Journal, kind: Kind) -> Result<Vec<bool>, AllocError>
    ensures { IfOk result (λ marks.
        AreMarked (length journal.now.records) (ended kind journal.now.records) marks.items) }
{
    let n = journal.len();
    let mut marks = vec![in alloc; false; n as usize]?;
    for i in 0..n {
        let entry = entry_at(journal, i);
        mark(&mut marks, ends(kind, i, entry.reply));
    }
    Ok(marks)
}

/// Whether the table has a place and says that it was removed.
pub fn is_marked(marks: &[bool], m: u64) -> bool
    ensures { result ≡ get_or marks.now m false }
{
    m < marks.len() as u64 && marks[m as usize]
}

/// Appends a place, if there is one.
pub fn add(places: &mut Vec<u64>, place: Option<u64>) -> Result<(), AllocError>
    ensures { IfOk result (λ _. places.new.items ≡ places.old.items ++ option_to_list place) }
{
    if let Some(m) = place {
        places.push(m)?;
    }
    Ok(())
}

/// The places of this kind that queue `q` has, which exists: messages in the order in which they
/// will be received, and waits with the latest first.
pub(crate) fn in_order(
    alloc: Global,
    trail: &Trail,
    kind: Kind,
    q: u64,
) -> Result<Vec<u64>, AllocError>
    requires { IsTrue (is_in (alive trail.now) q) }
    ensures { IfOk result (λ places. places.items ≡
        in_order kind trail.now (standing kind trail.now q)) }
{
    match kind {
        Kind::Messages => {
            let places = trail.messages(alloc, q)?;
            let line = by_priority(alloc, trail.journal(), &places)?;
            Ok(line)
        }
        Kind::Senders => trail.waiting(alloc, q, WaitKind::Send),
        Kind::Receivers => trail.waiting(alloc, q, WaitKind::Receive),
    }
}
