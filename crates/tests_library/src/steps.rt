//! Tables of steps: what a process asks, and the outcome it must have. The same tables are for the
//! queues of one thread (`books`) and for processes over a lock (`processes`). Contracts say each
//! reply exactly, so an outcome has only what a caller acts on.
use mq_model::entries::{Access, Attr, Deadline, OpenFlags, Status};
use mq_model::faults::Fault;
use mq_state::collected::Collected;

/// What a process asks. A call that would wait returns that it waits, unless it is a blocking one.
#[derive(Clone, Copy)]
pub enum Ask {
    Open(&'static [u8], OpenFlags, Option<Attr>),
    Unlink(&'static [u8]),
    Close(u32),
    Send(u32, &'static [u8], u32),
    Receive(u32),
    /// A send and a receive, with the time until which they may wait and the time of the call.
    TimedSend(u32, &'static [u8], u32, Deadline, Deadline),
    TimedReceive(u32, Deadline, Deadline),
    Notify(u32, Option<u64>),
    NextNotice,
    Getattr(u32),
    Setattr(u32, Status),
    Collect,
    Waiting,
    Answered,
    /// The first byte of the buffer.
    Front,
    /// The number of entries in the journal.
    Entries,
    /// These two only in one thread.
    Withdraw(Deadline),
    LowestOpen,
    /// These only over a lock. The last two wait for at most this number of milliseconds.
    Exit,
    ProcessNumber,
    AreBlocked(&'static [u32]),
    BlockingSend(u32, &'static [u8], u32),
    BlockingReceive(u32),
    BlockingTimedSend(u32, &'static [u8], u32, u64),
    BlockingTimedReceive(u32, u64),
}

/// The outcome.
#[derive(Clone, Copy, PartialEq, Eq)]
pub enum Outcome {
    /// Also a send that was admitted.
    Done,
    /// A message is in the buffer.
    Got,
    /// Also a collect of a wait that is not answered.
    Waits,
    /// A descriptor, the value of a notice, the length of a buffer, a byte, or a count.
    Number(Option<u64>),
    Attrs(Status),
    Refused(Fault),
    Is(bool),
    /// The process may not ask this now.
    Nothing,
}

use Ask::{
    Answered, Close, Collect, Entries, Front, Getattr, NextNotice, Notify, Open, Receive, Send,
    Setattr, TimedReceive, TimedSend, Unlink, Waiting,
};
use Outcome::{Attrs, Done, Got, Is, Number, Refused, Waits};

/// The process that asks, what it asks, and the outcome it must have.
pub type Step = (u32, Ask, Outcome);

/// For sending and receiving; creates the queue if there is none.
pub const CREATE: OpenFlags = OpenFlags {
    access: Access::Both,
    create: true,
    excl: false,
    nonblock: false,
};

/// For sending and receiving, to a queue that exists.
pub const OPEN: OpenFlags = OpenFlags {
    create: false,
    ..CREATE
};

/// The limits of a queue for one message.
pub const ONE: Option<Attr> = Some(Attr {
    maxmsg: 1,
    msgsize: 8,
});

/// The descriptor, the notice or the number 0.
pub const ZERO: Outcome = Number(Some(0));

/// No notice, no wait or no descriptor.
pub const NONE: Outcome = Number(None);

/// The outcome of a collect.
pub fn came(collected: Option<Collected>) -> Outcome {
    match collected {
        None => Waits,
        Some(Collected::Sent) => Done,
        Some(Collected::Got(_)) => Got,
    }
}

/// The outcome of a question whose answer is a length, if there is one.
pub fn length(found: Option<usize>) -> Outcome {
    match found {
        None => NONE,
        Some(length) => Number(Some(length as u64)),
    }
}

/// The first time of a test.
pub const START: Deadline = Deadline { sec: 0, nsec: 0 };

/// A later time.
pub const LATER: Deadline = Deadline { sec: 1, nsec: 0 };

/// Of a queue without a message.
pub const EMPTY: Status = Status {
    nonblock: false,
    maxmsg: 1,
    msgsize: 8,
    curmsgs: 0,
};

const FULL: Status = Status {
    curmsgs: 1,
    ..EMPTY
};

const NONBLOCKING: Status = Status {
    nonblock: true,
    ..EMPTY
};

/// Every call, and most of the outcomes that it can have. After the first 22 steps process 1 has a
/// wait that is answered.
pub static CALLS: [Step; 41] = [
    (1, Open(b"/q", CREATE, ONE), ZERO),
    (2, Open(b"/q", OPEN, None), ZERO),
    (2, Open(b"/r", CREATE, ONE), Number(Some(1))),
    (1, Notify(0, Some(7)), Done),
    (2, Send(0, b"ab", 3), Done),
    (1, NextNotice, Number(Some(7))),
    (1, NextNotice, NONE),
    (1, Getattr(0), Attrs(FULL)),
    (2, Send(0, b"c", 9), Waits),
    (2, Waiting, ZERO),
    (1, Receive(0), Got),
    (1, Front, Number(Some(b'a' as u64))),
    (2, Answered, Is(true)),
    (2, Collect, Done),
    (1, TimedReceive(0, START, START), Got),
    (1, Front, Number(Some(b'c' as u64))),
    (1, TimedReceive(0, LATER, START), Waits),
    (1, Answered, Is(false)),
    (1, Collect, Waits),
    (1, Waiting, Number(Some(8))),
    (2, TimedSend(0, b"d", 1, START, START), Done),
    (1, Answered, Is(true)),
    (1, Collect, Got),
    (1, Front, Number(Some(b'd' as u64))),
    (1, Waiting, NONE),
    (2, TimedSend(1, b"e", 1, START, START), Done),
    (
        2,
        TimedSend(1, b"f", 1, START, START),
        Refused(Fault::TimedOut),
    ),
    (1, Receive(0), Waits),
    (2, Send(0, b"g", 1), Done),
    (1, Collect, Got),
    (1, Setattr(0, NONBLOCKING), Attrs(EMPTY)),
    (1, Receive(0), Refused(Fault::Again)),
    (2, Close(0), Done),
    (2, Close(0), Refused(Fault::BadDescriptor)),
    (2, Close(1), Done),
    (1, Unlink(b"/q"), Done),
    (1, Unlink(b"/q"), Refused(Fault::NoEntry)),
    (2, Open(b"/q", OPEN, None), Refused(Fault::NoEntry)),
    (1, Send(0, b"nine long", 0), Refused(Fault::MessageSize)),
    (1, Close(0), Done),
    (1, Entries, Number(Some(30))),
];

/// Process 1 has a wait that is answered, process 2 one that is not.
pub static WAITING: [Step; 5] = [
    (1, Open(b"/q", CREATE, ONE), ZERO),
    (2, Open(b"/q", OPEN, None), ZERO),
    (1, Receive(0), Waits),
    (2, Send(0, b"hi", 4), Done),
    (2, TimedReceive(0, LATER, START), Waits),
];

/// Their ends, which take no memory.
pub static WITHOUT_MEMORY: [Step; 10] = [
    (1, Waiting, Number(Some(8))),
    (1, Answered, Is(true)),
    (1, Collect, Got),
    (1, Front, Number(Some(b'h' as u64))),
    (1, Waiting, NONE),
    (1, Answered, Is(false)),
    (2, Waiting, Number(Some(8))),
    (2, Answered, Is(false)),
    (2, Collect, Waits),
    (1, Entries, Number(Some(6))),
];

const NO_ROOM: Outcome = Refused(Fault::JournalFull);

/// Every call of a process that has no room for an entry.
pub static NOTHING_FITS: [Step; 11] = [
    (1, Open(b"/q", CREATE, ONE), NO_ROOM),
    (1, Unlink(b"/q"), NO_ROOM),
    (1, Close(0), NO_ROOM),
    (1, Send(0, b"", 0), NO_ROOM),
    (1, Receive(0), NO_ROOM),
    (1, TimedSend(0, b"", 0, LATER, LATER), NO_ROOM),
    (1, TimedReceive(0, LATER, LATER), NO_ROOM),
    (1, Notify(0, None), NO_ROOM),
    (1, NextNotice, NO_ROOM),
    (1, Getattr(0), NO_ROOM),
    (1, Setattr(0, EMPTY), NO_ROOM),
];

/// How a system keeps its journal: with bounds, these numbers of entries and of bytes.
#[derive(Clone, Copy)]
pub enum Kind {
    Stored,
    Bounded(u64, u64),
    Unstored,
    Prepaid,
}

/// Bounds that [`CALLS`] use up.
pub const EXACT: Kind = Kind::Bounded(30, 18);

/// Of each kind.
pub static KINDS: [Kind; 4] = [Kind::Stored, EXACT, Kind::Unstored, Kind::Prepaid];
