//! Copying messages from the journal into buffers.
ghost use Rattle.std.specs.Prelude.{◌≡◌, ◌≤◌, length};
ghost use Rattle.mq_ledger.specs.Ledgers.{CanRead, CanReadGiven};
ghost use Rattle.mq_state.specs.Buffers.{message_at, received_at, received_by, with_front, filled, Fits};

use mq_ledger::ledger::Ledger;
use mq_model::entries::{Received, Reply};

/// Copies the message sent by entry `place` to the start of the buffer, and returns its length and
/// priority.
#[inline]
pub fn put_message(journal: &Ledger, place: u64, buf: &mut [u8]) -> Received
    requires readable { CanRead journal.now place }
    requires room { length (message_at journal.now.records place) ≤ length buf.old }
    ensures buffer { buf.new ≡ with_front (message_at journal.now.records place) buf.old }
    ensures received { result ≡ received_at journal.now.records place }
{
    let (payload, prio) = journal.message(place);
    let Some(message) = payload else {
        return Received { len: 0, prio };
    };
    buf[..message.len()].copy_from_slice(message);
    Received {
        len: message.len(),
        prio,
    }
}

/// Copies the message that a reply hands out, if any, to the start of the buffer, and returns its
/// length and priority.
#[inline(always)]
pub fn fill(journal: &Ledger, reply: Reply, buf: &mut [u8]) -> Option<Received>
    requires readable { CanReadGiven journal.now reply }
    requires room { Fits journal.now.records reply (length buf.old) }
    ensures buffer { buf.new ≡ filled journal.now.records reply buf.old }
    ensures received { result ≡ received_by journal.now.records reply }
{
    match reply {
        Reply::Got {
            place,
            admitted: _,
            notified: _,
        } => Some(put_message(journal, place, buf)),
        _ => None,
    }
}
