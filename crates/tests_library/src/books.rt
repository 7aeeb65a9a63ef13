//! The queues of one thread. Each test takes steps of a table. It also passes if any one allocation
//! is made to fail from outside: the call that fails changes neither the journal nor the buffer,
//! and is repeated.
ghost use Rattle.std.specs.Prelude.{◌≡◌, ◌≤◌, None};
ghost use Rattle.mq_model.specs.Waits.{open_wait};

use crate::refusals::{refuse_all, say_refused};
use crate::same::same;
use crate::steps::{
    Ask, CALLS, EXACT, KINDS, Kind, LATER, NONE, NOTHING_FITS, Outcome, START, Step, WAITING,
    WITHOUT_MEMORY, ZERO, came, length,
};
use mq_checker::checker::check_history;
use mq_model::entries::Reply;
use mq_model::faults::Fault;
use mq_model::journals::Journal;
use mq_model::names::Name;
use mq_state::books::Books;
use mq_state::replay::replay;
use std::alloc::{AllocError, Global};
use std::io::Print;
use std::process::Abort;

mod flat;
mod resumed;
mod threads;

fn make(alloc: Global, kind: Kind) -> Result<Books, AllocError> {
    match kind {
        Kind::Stored => Books::new(alloc, 5),
        Kind::Bounded(entries, bytes) => Books::bounded(alloc, 5, entries, bytes),
        Kind::Unstored => Books::unstored(alloc, 5),
        Kind::Prepaid => Books::prepaid(alloc, 5),
    }
}

// The queues of five processes. One allocation may be made to fail from outside.
fn made<A: Abort + Print>(rt: &A, alloc: Global, kind: Kind) -> Books {
    match make(alloc, kind) {
        Ok(books) => books,
        Err(_) => {
            say_refused(rt, "the making");
            make(alloc, kind).expect(rt, "memory")
        }
    }
}

// The reply to a call. `None` if the name is invalid, or if this is not a call.
fn call(books: &mut Books, p: u32, ask: Ask, buf: &mut [u8]) -> Option<Reply>
    requires process { (1 ≤ p) × (p ≤ books.old.n) }
    requires free { open_wait books.old.records p ≡ None }
{
    Some(match ask {
        Ask::Open(name, flags, attr) => books.open(p, &Name::read(name).ok()?, flags, attr),
        Ask::Unlink(name) => books.unlink(p, &Name::read(name).ok()?),
        Ask::Close(d) => books.close(p, d),
        Ask::Send(d, bytes, prio) => books.send(p, d, bytes, prio),
        Ask::Receive(d) => books.receive(p, d, buf),
        Ask::TimedSend(d, bytes, prio, until, now) => {
            books.timed_send(p, d, bytes, prio, until, now)
        }
        Ask::TimedReceive(d, until, now) => books.timed_receive(p, d, buf, until, now),
        Ask::Notify(d, value) => books.notify(p, d, value),
        Ask::NextNotice => books.next_notice(p),
        Ask::Getattr(d) => books.getattr(p, d),
        Ask::Setattr(d, new) => books.setattr(p, d, new),
        _ => return None,
    })
}

fn told(reply: Reply) -> Outcome {
    match reply {
        Reply::Opened { d, .. } => Outcome::Number(Some(u64::from(d))),
        Reply::Got { .. } => Outcome::Got,
        Reply::Waits => Outcome::Waits,
        Reply::Notice(value) => Outcome::Number(value),
        Reply::Attrs(status) => Outcome::Attrs(status),
        Reply::Refused(fault) => Outcome::Refused(fault),
        _ => Outcome::Done,
    }
}

// The outcome of the wait of process p, if it has one that fits the buffer.
fn collect(books: &mut Books, p: u32, buf: &mut [u8]) -> Outcome
    requires process { (1 ≤ p) × (p ≤ books.old.n) }
{
    match books.waiting(p) {
        Some(room) if room <= buf.len() => came(books.collect(p, buf)),
        _ => Outcome::Nothing,
    }
}

fn lowest_open(books: &Books, p: u32) -> Outcome {
    match books.lowest_open(p) {
        None => NONE,
        Some(d) => Outcome::Number(Some(u64::from(d))),
    }
}

// The outcome of what a process asks, if there is such a process.
fn outcome_of(books: &mut Books, p: u32, ask: Ask, buf: &mut [u8; 8]) -> Outcome {
    if p < 1 || p > books.processes() {
        return Outcome::Nothing;
    }
    match ask {
        Ask::Waiting => length(books.waiting(p)),
        Ask::Answered => Outcome::Is(books.answered(p)),
        Ask::LowestOpen => lowest_open(books, p),
        Ask::Front => Outcome::Number(Some(u64::from(buf[0]))),
        Ask::Entries => Outcome::Number(Some(books.journal_len())),
        Ask::Collect => collect(books, p, buf),
        Ask::Withdraw(now) => Outcome::Is(books.withdraw(p, now)),
        _ if books.waiting(p).is_some() => Outcome::Nothing,
        _ => match call(books, p, ask, buf) {
            Some(reply) => told(reply),
            None => Outcome::Nothing,
        },
    }
}

// The outcome. If memory was refused, the buffer and the length of the journal are unchanged, and
// the same is asked again.
fn asked<A: Abort + Print>(
    rt: &A,
    books: &mut Books,
    (p, ask, _): Step,
    buf: &mut [u8; 8],
) -> Outcome {
    let before = (books.journal_len(), *buf);
    let outcome = outcome_of(books, p, ask, buf);
    if outcome != Outcome::Refused(Fault::NoMemory) {
        return outcome;
    }
    assert!(rt; (books.journal_len(), *buf) == before);
    say_refused(rt, "a call");
    outcome_of(books, p, ask, buf)
}

// Takes the steps in order, with one buffer.
fn take<A: Abort + Print>(rt: &A, books: &mut Books, steps: &[Step]) {
    let mut buf = [0; 8];
    for (number, step) in steps.iter().enumerate() {
        let outcome = asked(rt, books, *step, &mut buf);
        assert!(rt; outcome == step.2, "step {number}");
    }
}

#[test]
fn every_call_is_made_if_there_is_memory(rt: HostRuntime) {
    for kind in &KINDS {
        take(&rt, &mut made(&rt, rt.alloc(), *kind), &CALLS);
    }
}

#[test]
fn within_bounds_no_call_takes_memory(rt: HostRuntime) {
    let mut books = made(&rt, rt.alloc(), EXACT);
    refuse_all(&rt, rt.alloc());
    take(&rt, &mut books, &CALLS);
    take(&rt, &mut books, &NOTHING_FITS);
}

static WITHDRAWN: [Step; 7] = [
    (3, Ask::Waiting, NONE),
    (3, Ask::Withdraw(LATER), Outcome::Is(false)),
    (2, Ask::Withdraw(START), Outcome::Is(false)),
    (2, Ask::Withdraw(LATER), Outcome::Is(true)),
    (2, Ask::LowestOpen, ZERO),
    (3, Ask::LowestOpen, NONE),
    (3, Ask::Entries, Outcome::Number(Some(7))),
];

#[test]
fn waits_end_without_memory(rt: HostRuntime) {
    let mut books = made(&rt, rt.alloc(), Kind::Stored);
    take(&rt, &mut books, &WAITING);
    refuse_all(&rt, rt.alloc());
    take(&rt, &mut books, &WITHOUT_MEMORY);
    take(&rt, &mut books, &WITHDRAWN);
    expect_legal(&rt, &journal_of(&rt, books), 7);
}

// The journal, which must be stored.
fn journal_of<A: Abort>(rt: &A, books: Books) -> Journal {
    assert!(rt; books.is_stored(), "the journal is stored");
    books.into_journal()
}

/// The journal is legal and has this number of entries.
pub fn expect_legal<A: Abort>(rt: &A, journal: &Journal, entries: u64) {
    same(rt, journal.len(), entries, "the length");
    same(rt, check_history(journal), Ok(()), "the verdict");
}

#[test]
fn a_replay_that_is_refused_memory_reads_the_journal_again(rt: HostRuntime) {
    let alloc = rt.alloc();
    let mut books = made(&rt, alloc, Kind::Stored);
    take(&rt, &mut books, &CALLS);
    let journal = journal_of(&rt, books);
    let found = match replay(alloc, &journal) {
        Ok(found) => found,
        Err(_) => {
            say_refused(&rt, "a replay");
            replay(alloc, &journal).expect(&rt, "memory")
        }
    };
    same(&rt, found, None, "the departure");
}
