//! Memory that is used again: each test takes the same steps many times, while every allocation may
//! be made to fail from outside.
use super::{made, take};
use crate::refusals::refuse_all;
use crate::steps::{Ask, CREATE, Kind, LATER, ONE, OPEN, Outcome, START, Step, ZERO};
use Ask::{
    Close, Collect, Entries, NextNotice, Notify, Open, Receive, Send, TimedReceive, TimedSend,
    Unlink, Withdraw,
};
use Outcome::{Done, Got, Is, Number, Refused, Waits};
use mq_model::entries::Attr;
use mq_model::faults::Fault;
use std::alloc::Global;
use std::io::Print;
use std::process::Abort;

// Steps to begin with, a round that is taken many times, and the last step.
#[derive(Clone, Copy)]
struct Plan {
    kind: Kind,
    first: &'static [Step],
    round: &'static [Step],
    rounds: u32,
    last: Step,
}

// Takes the steps of a plan. After the first ones every allocation may be made to fail.
fn expect_flat<A: Abort + Print>(rt: &A, alloc: Global, plan: Plan) {
    let mut books = made(rt, alloc, plan.kind);
    take(rt, &mut books, plan.first);
    refuse_all(rt, alloc);
    for _ in 0..plan.rounds {
        take(rt, &mut books, plan.round);
    }
    take(rt, &mut books, &[plan.last]);
}

static FIRST: [Step; 5] = [
    (1, Open(b"/q", CREATE, ONE), ZERO),
    (1, Send(0, b"message", 1), Done),
    (1, Receive(0), Got),
    (1, Send(0, b"message", 1), Done),
    (1, Receive(0), Got),
];

static PASSES: [Step; 2] = [(1, Send(0, b"message", 1), Done), (1, Receive(0), Got)];

#[test]
fn ten_thousand_messages_need_the_memory_of_the_first(rt: HostRuntime) {
    let plan = Plan {
        kind: Kind::Unstored,
        first: &FIRST,
        round: &PASSES,
        rounds: 9_998,
        last: (1, Entries, Number(Some(20_001))),
    };
    expect_flat(&rt, rt.alloc(), plan);
}

static OPENS: [Step; 7] = [
    (1, Open(b"/q", CREATE, ONE), ZERO),
    (2, Open(b"/q", OPEN, None), ZERO),
    (3, Open(b"/q", OPEN, None), ZERO),
    (4, Open(b"/gone", CREATE, TWO), ZERO),
    (4, Close(0), Done),
    (4, Open(b"/r", CREATE, TWO), ZERO),
    (5, Open(b"/r", OPEN, None), ZERO),
];

const TWO: Option<Attr> = Some(Attr {
    maxmsg: 2,
    msgsize: 8,
});

// A message is handed to a waiting receive. The queue is full, and two more sends wait. A message
// notifies a process, which takes its notice. Of the calls with a deadline on the other queue two
// wait until it has passed.
static ROUND: [Step; 24] = [
    (1, Receive(0), Waits),
    (2, Send(0, b"message!", 3), Done),
    (1, Collect, Got),
    (2, Send(0, b"aaaaaaaa", 1), Done),
    (3, Send(0, b"bbbbbbbb", 9), Waits),
    (1, Send(0, b"cccccccc", 12), Waits),
    (2, Receive(0), Got),
    (2, Receive(0), Got),
    (3, Collect, Done),
    (1, Collect, Done),
    (2, Receive(0), Got),
    (1, Notify(0, Some(7)), Done),
    (2, Send(0, b"dddddddd", 3), Done),
    (1, NextNotice, Number(Some(7))),
    (3, Receive(0), Got),
    (5, TimedReceive(0, LATER, START), Waits),
    (5, Withdraw(LATER), Is(true)),
    (4, Send(0, b"eeeeeeee", 2), Done),
    (4, TimedSend(0, b"ffffffff", 2, LATER, START), Done),
    (5, TimedSend(0, b"gggggggg", 2, LATER, START), Waits),
    (5, Withdraw(LATER), Is(true)),
    (4, Receive(0), Got),
    (4, Receive(0), Got),
    (4, NextNotice, Number(None)),
];

#[test]
fn once_the_queues_of_a_prepaid_system_are_open_no_call_takes_memory(rt: HostRuntime) {
    let plan = Plan {
        kind: Kind::Prepaid,
        first: &OPENS,
        round: &ROUND,
        rounds: 1_000,
        last: (1, Entries, Number(Some(24_007))),
    };
    expect_flat(&rt, rt.alloc(), plan);
}

// The greatest limits of a queue. In each round below two queues with the same name come to exist
// and cease to.
const LARGEST: Option<Attr> = Some(Attr {
    maxmsg: 4096,
    msgsize: 65_536,
});

static COMES_AND_GOES: [Step; 7] = [
    (1, Open(b"/q", CREATE, LARGEST), ZERO),
    (1, Notify(0, Some(7)), Done),
    (1, Unlink(b"/q"), Done),
    (2, Open(b"/q", CREATE, LARGEST), ZERO),
    (2, Unlink(b"/q"), Done),
    (2, Close(0), Done),
    (1, Close(0), Done),
];

#[test]
fn orders_of_queues_that_are_gone_serve_queues_to_come(rt: HostRuntime) {
    let plan = Plan {
        kind: Kind::Bounded(700, 1_000),
        first: &[],
        round: &COMES_AND_GOES,
        rounds: 100,
        last: (1, NextNotice, Refused(Fault::JournalFull)),
    };
    expect_flat(&rt, rt.alloc(), plan);
}
