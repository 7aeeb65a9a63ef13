//! Processes of several threads: they share descriptors, registrations and notices, and each waits
//! by itself.
use super::{expect_legal, journal_of, made, take};
use crate::refusals::say_refused;
use crate::same::same;
use crate::steps::{Ask, CREATE, Kind, NONE, ONE, OPEN, Outcome, Step, WAITING, ZERO};
use Ask::{
    Close, Collect, Entries, Front, LowestOpen, NextNotice, Notify, Open, Receive, Send, Setattr,
    Waiting,
};
use Outcome::{Attrs, Done, Got, Number, Refused, Waits};
use mq_model::entries::Status;
use mq_model::faults::Fault;
use mq_state::books::Books;
use std::alloc::Global;
use std::io::Print;
use std::process::Abort;

// Callers 1, 33 and 65 are threads of process 1, and 2 and 34 of process 2. Two threads wait on one
// descriptor, a third sets its flag and closes it, and both waits are answered in their order.
static SHARED: [Step; 18] = [
    (33, Open(b"/q", CREATE, ONE), ZERO),
    (2, Open(b"/q", OPEN, None), ZERO),
    (65, Receive(0), Waits),
    (1, Receive(0), Waits),
    (33, Setattr(0, NONBLOCKING), Attrs(BLOCKING)),
    (33, Receive(0), Refused(Fault::Again)),
    (33, Close(0), Done),
    (65, LowestOpen, NONE),
    (1, Waiting, Number(Some(8))),
    (34, Send(0, b"for 65", 1), Done),
    (34, Send(0, b"or for 1", 1), Done),
    (1, Collect, Got),
    (1, Front, Number(Some(111))),
    (65, Collect, Got),
    (65, Front, Number(Some(102))),
    (1, Receive(0), Refused(Fault::BadDescriptor)),
    (2, LowestOpen, ZERO),
    (34, LowestOpen, ZERO),
];

const BLOCKING: Status = Status {
    nonblock: false,
    maxmsg: 1,
    msgsize: 8,
    curmsgs: 0,
};

const NONBLOCKING: Status = Status {
    nonblock: true,
    ..BLOCKING
};

// A registration is one of the process: another thread of it removes it, takes its notice, and can't
// register beside it.
static NOTIFIED: [Step; 10] = [
    (34, Notify(0, Some(7)), Done),
    (2, Notify(0, Some(8)), Refused(Fault::Busy)),
    (2, Notify(0, None), Done),
    (2, Notify(0, Some(9)), Done),
    (34, Send(0, b"message", 1), Done),
    (34, NextNotice, Number(Some(9))),
    (2, NextNotice, NONE),
    (1, NextNotice, NONE),
    (2, Receive(0), Got),
    (2, Entries, Number(Some(21))),
];

// The queues of two processes of three threads. One allocation may be made to fail from outside.
fn made_for_threads<A: Abort + Print>(rt: &A, alloc: Global) -> Books {
    match Books::threads(alloc, 2, 3) {
        Ok(books) => books,
        Err(_) => {
            say_refused(rt, "the making");
            Books::threads(alloc, 2, 3).expect(rt, "memory")
        }
    }
}

#[test]
fn threads_share_descriptors_and_notices_and_wait_each(rt: HostRuntime) {
    let mut books = made_for_threads(&rt, rt.alloc());
    take(&rt, &mut books, &SHARED);
    take(&rt, &mut books, &NOTIFIED);
    expect_legal(&rt, &journal_of(&rt, books), 21);
}

// The last caller of 32 processes of 64 threads, before it may call and after.
static NO_CALLER: [Step; 1] = [(2048, NextNotice, Outcome::Nothing)];

static LAST_CALLER: [Step; 3] = [
    (2048, Open(b"/last", CREATE, ONE), ZERO),
    (32, Send(0, b"message", 1), Done),
    (2048, Receive(0), Got),
];

#[test]
fn callers_are_added_while_others_wait(rt: HostRuntime) {
    let mut books = made(&rt, rt.alloc(), Kind::Stored);
    take(&rt, &mut books, &WAITING);
    take(&rt, &mut books, &NO_CALLER);
    let before = books.journal_len();
    if books.raise(2048).is_err() {
        same(&rt, books.processes(), 5, "the last caller");
        say_refused(&rt, "the raising");
        assert!(rt; books.raise(2048).is_ok(), "there is memory again");
    }
    same(&rt, books.journal_len(), before, "the length");
    same(&rt, books.processes(), 2048, "the last caller");
    take(&rt, &mut books, &LAST_CALLER);
    expect_legal(&rt, &journal_of(&rt, books), before.wrapping_add(3));
}
