//! The form in which a journal stores an entry: 64 bytes, and 56 more for a call with a deadline or
//! limits.
ghost use Rattle.std.specs.Prelude.{◌≡◌, ℕ, ◌+◌, ◌++◌, ◌<◌, ◌≤◌, List, slice_index_or, length, vec_len, vec_capacity};
ghost use Rattle.mq_model.specs.Stored.{needs, call_of, kept_apart, reply_of};
ghost use Rattle.mq_model.specs.declared.entries.Call.{Call};

use crate::entries::{Call, OpenFlags, Reply, Status};
use crate::faults::Fault;

// One more than the greatest value of four bytes.
const HALF: u64 = 4_294_967_296;

/// A call in twelve bytes. A call that does not fit is kept in a separate list, and these two
/// halves are its index there. The length of a message is that of the payload.
#[derive(Clone, Copy, Debug)]
pub enum StoredCall {
    Open { flags: OpenFlags },
    Close { d: u32 },
    Unlink,
    Send { d: u32, prio: u32 },
    Receive { d: u32, room: u32 },
    Getattr { d: u32 },
    Setattr { d: u32, nonblock: bool },
    Removal { d: u32 },
    NextNotice,
    Collect,
    Apart { high: u32, low: u32 },
}

/// A reply in 32 bytes.
#[derive(Clone, Copy, Debug)]
pub enum StoredReply {
    Opened {
        created: bool,
        d: u32,
    },
    Queued,
    QueuedNotifying {
        notified: u64,
    },
    Handed {
        wait: u64,
    },
    Waits,
    Got {
        place: u64,
    },
    GotAdmitting {
        place: u64,
        admitted: u64,
    },
    GotNotifying {
        place: u64,
        notified: u64,
    },
    GotBoth {
        place: u64,
        admitted: u64,
        notified: u64,
    },
    Collected {
        by: u64,
    },
    Withdrawn {
        wait: u64,
    },
    Attrs {
        nonblock: bool,
        maxmsg: i64,
        msgsize: i64,
        curmsgs: i64,
    },
    NoNotice,
    Notice {
        value: u64,
    },
    Done,
    Refused {
        fault: Fault,
    },
}

/// An entry, and the range of its payload among the payload bytes.
#[derive(Clone, Copy, Debug)]
pub struct Stored {
    pub process: u32,
    pub call: StoredCall,
    pub reply: StoredReply,
    pub start: usize,
    pub end: usize,
}

// The form of a call that is kept in the separate list, at this index.
fn apart_at(index: usize) -> StoredCall
    ensures needs { needs result ≡ index + 1 }
    ensures call { (apart : List Call) → (len : ℕ) →
        call_of apart len result ≡ slice_index_or apart index Call.MqUnlink }
{
    let index = index as u64;
    StoredCall::Apart {
        high: (index / HALF) as u32,
        low: (index % HALF) as u32,
    }
}

// Keeps a call that does not fit in twelve bytes in the separate list. There must be room for it.
#[inline(always)]
fn keep_apart(apart: &mut Vec<Call>, call: Call) -> StoredCall
    requires room { vec_len apart.old < vec_capacity apart.old }
    ensures call { (len : ℕ) → call_of apart.new.items len result ≡ call }
    ensures needs { needs result ≤ vec_len apart.new }
    ensures apart { apart.new.items ≡ apart.old.items ++ kept_apart result call }
    ensures capacity { vec_capacity apart.old ≤ vec_capacity apart.new }
{
    let stored = apart_at(apart.len());
    apart.push_reserved(call);
    stored
}

/// Stores the call of an entry whose payload has this length, in the form that it returns or in the
/// separate list. There must be room for it.
#[inline(always)]
pub fn store_call(apart: &mut Vec<Call>, call: Call, len: usize) -> StoredCall
    requires room { vec_len apart.old < vec_capacity apart.old }
    ensures call { call_of apart.new.items len result ≡ call }
    ensures needs { needs result ≤ vec_len apart.new }
    ensures apart { apart.new.items ≡ apart.old.items ++ kept_apart result call }
    ensures capacity { vec_capacity apart.old ≤ vec_capacity apart.new }
{
    match call {
        Call::MqOpen { flags, attr: None } => StoredCall::Open { flags },
        Call::MqClose { d } => StoredCall::Close { d },
        Call::MqUnlink => StoredCall::Unlink,
        Call::MqSend { d, prio, len: l } if l == len as u64 => StoredCall::Send { d, prio },
        Call::MqReceive { d, room } if room < HALF => StoredCall::Receive {
            d,
            room: room as u32,
        },
        Call::MqGetattr { d } => StoredCall::Getattr { d },
        Call::MqSetattr { d, nonblock } => StoredCall::Setattr { d, nonblock },
        Call::MqNotify { d, value: None } => StoredCall::Removal { d },
        Call::NextNotice => StoredCall::NextNotice,
        Call::Collect => StoredCall::Collect,
        _ => keep_apart(apart, call),
    }
}

/// The call of a stored entry whose payload has this length.
#[inline(always)]
pub fn stored_call(apart: &[Call], stored: StoredCall, len: usize) -> Call
    requires { needs stored ≤ length apart.now }
    ensures { result ≡ call_of apart.now len stored }
{
    match stored {
        StoredCall::Open { flags } => Call::MqOpen { flags, attr: None },
        StoredCall::Close { d } => Call::MqClose { d },
        StoredCall::Unlink => Call::MqUnlink,
        StoredCall::Send { d, prio } => Call::MqSend {
            d,
            prio,
            len: len as u64,
        },
        StoredCall::Receive { d, room } => Call::MqReceive {
            d,
            room: u64::from(room),
        },
        StoredCall::Getattr { d } => Call::MqGetattr { d },
        StoredCall::Setattr { d, nonblock } => Call::MqSetattr { d, nonblock },
        StoredCall::Removal { d } => Call::MqNotify { d, value: None },
        StoredCall::NextNotice => Call::NextNotice,
        StoredCall::Collect => Call::Collect,
        StoredCall::Apart { high, low } => apart[high as usize * 4_294_967_296 + low as usize],
    }
}

/// The stored form of a reply.
#[inline(always)]
pub fn store_reply(reply: Reply) -> StoredReply
    ensures { reply_of result ≡ reply }
{
    match reply {
        Reply::Opened { d, created } => StoredReply::Opened { created, d },
        Reply::Queued { notified: None } => StoredReply::Queued,
        Reply::Queued {
            notified: Some(notified),
        } => StoredReply::QueuedNotifying { notified },
        Reply::Handed { wait } => StoredReply::Handed { wait },
        Reply::Waits => StoredReply::Waits,
        Reply::Got {
            place,
            admitted: None,
            notified: None,
        } => StoredReply::Got { place },
        Reply::Got {
            place,
            admitted: Some(admitted),
            notified: None,
        } => StoredReply::GotAdmitting { place, admitted },
        Reply::Got {
            place,
            admitted: None,
            notified: Some(notified),
        } => StoredReply::GotNotifying { place, notified },
        Reply::Got {
            place,
            admitted: Some(admitted),
            notified: Some(notified),
        } => StoredReply::GotBoth {
            place,
            admitted,
            notified,
        },
        Reply::Collected { by } => StoredReply::Collected { by },
        Reply::Withdrawn { wait } => StoredReply::Withdrawn { wait },
        Reply::Attrs(
            Status {
                nonblock,
                maxmsg,
                msgsize,
                curmsgs,
            },
        ) => StoredReply::Attrs {
            nonblock,
            maxmsg,
            msgsize,
            curmsgs,
        },
        Reply::Notice(None) => StoredReply::NoNotice,
        Reply::Notice(Some(value)) => StoredReply::Notice { value },
        Reply::Done => StoredReply::Done,
        Reply::Refused(fault) => StoredReply::Refused { fault },
    }
}

/// The reply of a stored form.
#[inline(always)]
pub fn stored_reply(stored: StoredReply) -> Reply
    ensures { result ≡ reply_of stored }
{
    match stored {
        StoredReply::Opened { created, d } => Reply::Opened { d, created },
        StoredReply::Queued => Reply::Queued { notified: None },
        StoredReply::QueuedNotifying { notified } => Reply::Queued {
            notified: Some(notified),
        },
        StoredReply::Handed { wait } => Reply::Handed { wait },
        StoredReply::Waits => Reply::Waits,
        StoredReply::Got { place } => Reply::Got {
            place,
            admitted: None,
            notified: None,
        },
        StoredReply::GotAdmitting { place, admitted } => Reply::Got {
            place,
            admitted: Some(admitted),
            notified: None,
        },
        StoredReply::GotNotifying { place, notified } => Reply::Got {
            place,
            admitted: None,
            notified: Some(notified),
        },
        StoredReply::GotBoth {
            place,
            admitted,
            notified,
        } => Reply::Got {
            place,
            admitted: Some(admitted),
            notified: Some(notified),
        },
        StoredReply::Collected { by } => Reply::Collected { by },
        StoredReply::Withdrawn { wait } => Reply::Withdrawn { wait },
        StoredReply::Attrs {
            nonblock,
            maxmsg,
            msgsize,
            curmsgs,
        } => Reply::Attrs(Status {
            nonblock,
            maxmsg,
            msgsize,
            curmsgs,
        }),
        StoredReply::NoNotice => Reply::Notice(None),
        StoredReply::Notice { value } => Reply::Notice(Some(value)),
        StoredReply::Done => Reply::Done,
        StoredReply::Refused { fault } => Reply::Refused(fault),
    }
}
