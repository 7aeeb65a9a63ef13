//! Queues that continue from a journal: in place of those that made it, and from a short journal in
//! its place. They do not continue from a journal that does not fit.
use super::{asked, expect_legal, journal_of, made, take};
use crate::refusals::{refuse_all, say_refused};
use crate::same::same;
use crate::steps::{Ask, CALLS, CREATE, Kind, ONE, Outcome, Step, ZERO};
use Outcome::{Done, Got, Number, Waits};
use mq_model::bounds::Bounds;
use mq_model::faults::Fault;
use mq_model::journals::Journal;
use mq_state::books::{Books, Refused};
use mq_state::replay::Misfit;
use mq_state::rewriting::Unwritten;
use std::alloc::Global;
use std::io::Print;
use std::process::Abort;

// The queues of five processes that continue from a journal within bounds, or why they cannot. If
// memory is refused, the journal comes back and is used again.
fn resume<A: Print>(
    rt: &A,
    alloc: Global,
    bounds: Option<Bounds>,
    journal: Journal,
) -> Result<Books, Refused> {
    let refused = match Books::resume_within(alloc, 5, bounds, journal) {
        Ok(books) => return Ok(books),
        Err(refused) => refused,
    };
    if refused.why != Misfit::NoMemory {
        return Err(refused);
    }
    say_refused(rt, "a resumption");
    Books::resume_within(alloc, 5, bounds, refused.journal)
}

// Enough for each table of steps here.
const ENOUGH: Bounds = Bounds {
    entries: 100,
    bytes: 1_000,
};

#[test]
fn every_call_goes_on_from_every_journal(rt: HostRuntime) {
    expect_resumed(&rt, rt.alloc(), None, &CALLS);
    expect_resumed(&rt, rt.alloc(), Some(ENOUGH), &CALLS[..22]);
}

// Takes the steps in order. Before each, the queues are made again from their journal.
fn expect_resumed<A: Abort + Print>(rt: &A, alloc: Global, bounds: Option<Bounds>, steps: &[Step]) {
    let mut books = made(rt, alloc, Kind::Stored);
    let mut buf = [0; 8];
    for (number, step) in steps.iter().enumerate() {
        books = resume(rt, alloc, bounds, journal_of(rt, books))
            .ok()
            .expect(rt, "queues");
        let outcome = asked(rt, &mut books, *step, &mut buf);
        assert!(rt; outcome == step.2, "step {number}");
    }
}

// Two entries, two bytes, and an open wait, whose end has room.
static WAITS_ALONE: [Step; 2] = [
    (1, Ask::Open(b"/q", CREATE, ONE), ZERO),
    (1, Ask::Receive(0), Waits),
];

static IS_FULL: [Step; 2] = [
    (1, Ask::Waiting, Number(Some(8))),
    (2, Ask::Close(0), Outcome::Refused(Fault::JournalFull)),
];

#[test]
fn a_journal_that_is_too_long_comes_back(rt: HostRuntime) {
    let alloc = rt.alloc();
    let mut books = made(&rt, alloc, Kind::Stored);
    take(&rt, &mut books, &WAITS_ALONE);
    let mut journal = journal_of(&rt, books);
    for (entries, bytes) in [(2, 2), (3, 1)] {
        let refused = resume(&rt, alloc, Some(Bounds { entries, bytes }), journal).err();
        let refused = refused.expect(&rt, "a refusal");
        same(&rt, refused.why, Misfit::TooLong, "the bounds");
        journal = refused.journal;
    }
    let least = Some(Bounds {
        entries: 3,
        bytes: 2,
    });
    let mut books = resume(&rt, alloc, least, journal)
        .ok()
        .expect(&rt, "queues");
    refuse_all(&rt, alloc);
    take(&rt, &mut books, &IS_FULL);
}

// A short journal in place of that of the queues, which must be stored.
fn short<A: Abort + Print>(rt: &A, alloc: Global, books: &Books) -> Result<Journal, Unwritten> {
    assert!(rt; books.is_stored(), "the journal is stored");
    match books.rewritten(alloc) {
        Err(Unwritten::NoMemory) => {
            say_refused(rt, "a short journal");
            books.rewritten(alloc)
        }
        other => other,
    }
}

// The queues that continue from a short journal, which must have this number of entries.
fn shortened<A: Abort + Print>(rt: &A, alloc: Global, books: Books, entries: u64) -> Books {
    let journal = short(rt, alloc, &books).ok().expect(rt, "a short journal");
    expect_legal(rt, &journal, entries);
    resume(rt, alloc, None, journal).ok().expect(rt, "queues")
}

static OPENS: [Step; 1] = [(1, Ask::Open(b"/q", CREATE, ONE), ZERO)];

static SENDS: [Step; 1] = [(1, Ask::Send(0, b"message", 1), Done)];

static RECEIVES: [Step; 1] = [(1, Ask::Receive(0), Got)];

// With one message in the queue the short journal has six entries: the queue is created and closed,
// opened to send the message and closed, and opened by process 1. Without the message it has three.
#[test]
fn a_short_journal_has_what_is_alive(rt: HostRuntime) {
    let mut books = made(&rt, rt.alloc(), Kind::Stored);
    take(&rt, &mut books, &OPENS);
    for _ in 0..20 {
        take(&rt, &mut books, &SENDS);
        take(&rt, &mut books, &RECEIVES);
    }
    take(&rt, &mut books, &SENDS);
    books = shortened(&rt, rt.alloc(), books, 6);
    take(&rt, &mut books, &RECEIVES);
    books = shortened(&rt, rt.alloc(), books, 3);
    take(&rt, &mut books, &SENDS);
    take(&rt, &mut books, &RECEIVES);
}

#[test]
fn an_answered_wait_is_collected_before_a_short_journal(rt: HostRuntime) {
    let mut books = made(&rt, rt.alloc(), Kind::Stored);
    take(&rt, &mut books, &CALLS[..22]);
    let found = short(&rt, rt.alloc(), &books).err();
    same(&rt, found, Some(Unwritten::Answered), "the answer");
}
