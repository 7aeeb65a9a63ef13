//! What an entry changes, computed once for all tables.
ghost use Rattle.std.specs.Prelude.{◌≡◌};
ghost use Rattle.std.specs.Option.{option_map};
ghost use Rattle.mq_state.specs.Queues.{slot_of};
ghost use Rattle.mq_state.specs.Moves.{moves_of};
ghost use Rattle.mq_model.specs.Messages.{admits};
ghost use Rattle.mq_ledger.specs.Ledgers.{CanRead, CanReadAdmitted};

use crate::prefixes::Prefix;
use mq_model::entries::{Call, Entry, Reply};

/// What an entry changes in the row of its queue. A message is its priority and the sequence number
/// of its send.
#[derive(Clone, Copy)]
pub enum LineMove {
    /// Nothing.
    Rests,
    /// A message enters.
    Enters(u32, u64),
    /// The message of this send leaves, and if the receive admits a waiting send, the message of
    /// that one enters.
    Leaves(u64, Option<(u32, u64)>),
    /// The queue is no longer bound to its name.
    LosesName,
}

/// What an entry changes in the wait of its process.
#[derive(Clone, Copy)]
pub enum WaitMove {
    /// Nothing.
    Stays,
    /// It begins.
    Begins,
    /// It ends.
    Ends,
}

/// What an entry changes.
#[derive(Clone, Copy)]
pub struct Moves {
    /// In the row of its queue.
    pub line: LineMove,
    /// In the wait of its process.
    pub wait: WaitMove,
    /// Whether the registration on its queue is notified.
    pub notified: bool,
    /// Whether its process takes its oldest notice.
    pub given: bool,
    /// Whether its queue may have lost its last user.
    pub freed: bool,
}

// The message of the send that is admitted, as its priority and its sequence number.
#[inline(always)]
fn message(journal: &Prefix<'_>, admitted: Option<u64>) -> Option<(u32, u64)>
    requires { CanReadAdmitted journal.now admitted }
    ensures { result ≡ option_map (slot_of journal.now.records) admitted }
{
    match admitted {
        None => None,
        Some(place) => Some(slot_of(journal, place)),
    }
}

// The same for one send. Few receives admit one, so it is outlined to keep the others short.
#[inline(never)]
fn slot_of(journal: &Prefix<'_>, place: u64) -> (u32, u64)
    requires { CanRead journal.now place }
    ensures { result ≡ slot_of journal.now.records place }
{
    (journal.priority(place), place)
}

/// Whether the queue of an entry may have lost its last user: the entry is a successful unlink or
/// close.
#[inline]
pub fn frees(entry: Entry) -> bool {
    match entry.reply {
        Reply::Done => match entry.call {
            Call::MqUnlink | Call::MqClose { .. } => true,
            _ => false,
        },
        _ => false,
    }
}

/// What the next entry of a journal changes.
#[inline(always)]
pub fn moves_of(journal: &Prefix<'_>, entry: Entry) -> Moves
    requires { CanReadAdmitted journal.now (admits entry.reply) }
    ensures { result ≡ moves_of journal.now.records entry.call entry.reply }
{
    let mut moves = Moves {
        line: LineMove::Rests,
        wait: WaitMove::Stays,
        notified: false,
        given: false,
        freed: false,
    };
    match entry.reply {
        Reply::Queued { notified } => {
            moves.line = LineMove::Enters(entry.call.priority(), journal.len());
            moves.notified = notified.is_some();
        }
        Reply::Got {
            place,
            admitted,
            notified,
        } => {
            moves.line = LineMove::Leaves(place, message(journal, admitted));
            moves.notified = notified.is_some();
        }
        Reply::Waits => moves.wait = WaitMove::Begins,
        Reply::Collected { .. } | Reply::Withdrawn { .. } => moves.wait = WaitMove::Ends,
        Reply::Notice(value) => moves.given = value.is_some(),
        Reply::Done => match entry.call {
            Call::MqUnlink => {
                moves.line = LineMove::LosesName;
                moves.freed = true;
            }
            Call::MqClose { .. } => moves.freed = true,
            _ => {}
        },
        _ => {}
    }
    moves
}
