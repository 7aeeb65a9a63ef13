//! The end of a process with 1 to 16 descriptors, and that of a system with one process of two.
ghost use Rattle.std.specs.Prelude.{◌≡◌, []};

use super::calls::take;
use super::{Pair, finish, make_pair, room};
use crate::books::expect_legal;
use crate::steps::{Ask, CREATE, Kind, ONE, Outcome, Step, ZERO};
use fast_mutex::Missing;
use mq::{Call, FastMq, FastProcess, Journal, Reply};
use std::alloc::Global;
use std::io::Print;
use std::process::Abort;
use std::sync::Wait;
use std::time::Clock;

// The end with process 1 only: the system and the process come back, with the room for both.
fn finish_early<A: Abort>(
    rt: &A,
    mut processes: Vec<FastProcess>,
    mq: FastMq,
    one: FastProcess,
) -> (FastMq, FastProcess, Vec<FastProcess>)
    requires room { processes.items ≡ [] }
    requires made { one.lock ≡ mq }
    ensures { (result.0 ≡ mq) × (result.1.lock ≡ mq) × (result.2.items ≡ []) }
{
    processes.push(one).ok().expect(rt, "memory");
    assert!(rt; mq.is_stored(), "the journal is stored");
    let Err(Missing { whole, mut parts }) = mq.finish(processes) else {
        panic!(rt; "all handed back")
    };
    let one = parts.pop().expect(rt, "all handed back");
    (whole, one, parts)
}

// Two calls, an end without process 2, a call, and the end.
#[test]
fn what_an_early_end_hands_back_is_used_again(rt: HostRuntime) {
    let alloc = rt.alloc();
    let processes = room(&rt, alloc);
    let Pair {
        mq,
        mut one,
        mut two,
    } = make_pair(&rt, alloc, Kind::Stored);
    take(&rt, &mq, &mut one, &mut two, &SENT[..2]);
    let (mq, mut one, processes) = finish_early(&rt, processes, mq, one);
    take(&rt, &mq, &mut one, &mut two, &SENT[2..]);
    expect_legal(&rt, &finish(&rt, processes, mq, one, two), 3);
}

static SENT: [Step; 3] = [
    (1, Ask::Open(b"/q", CREATE, ONE), ZERO),
    (1, Ask::Send(0, b"a", 1), Outcome::Done),
    (1, Ask::Receive(0), Outcome::Got),
];

static OPENS: [Step; 16] = [
    (1, Ask::Open(b"/q", CREATE, ONE), Outcome::Number(Some(0))),
    (1, Ask::Open(b"/q", CREATE, ONE), Outcome::Number(Some(1))),
    (1, Ask::Open(b"/q", CREATE, ONE), Outcome::Number(Some(2))),
    (1, Ask::Open(b"/q", CREATE, ONE), Outcome::Number(Some(3))),
    (1, Ask::Open(b"/q", CREATE, ONE), Outcome::Number(Some(4))),
    (1, Ask::Open(b"/q", CREATE, ONE), Outcome::Number(Some(5))),
    (1, Ask::Open(b"/q", CREATE, ONE), Outcome::Number(Some(6))),
    (1, Ask::Open(b"/q", CREATE, ONE), Outcome::Number(Some(7))),
    (1, Ask::Open(b"/q", CREATE, ONE), Outcome::Number(Some(8))),
    (1, Ask::Open(b"/q", CREATE, ONE), Outcome::Number(Some(9))),
    (1, Ask::Open(b"/q", CREATE, ONE), Outcome::Number(Some(10))),
    (1, Ask::Open(b"/q", CREATE, ONE), Outcome::Number(Some(11))),
    (1, Ask::Open(b"/q", CREATE, ONE), Outcome::Number(Some(12))),
    (1, Ask::Open(b"/q", CREATE, ONE), Outcome::Number(Some(13))),
    (1, Ask::Open(b"/q", CREATE, ONE), Outcome::Number(Some(14))),
    (1, Ask::Open(b"/q", CREATE, ONE), Outcome::Number(Some(15))),
];

static EXITS: [Step; 1] = [(1, Ask::Exit, Outcome::Done)];

// The journal of a process that opens this number of descriptors and exits.
fn opened_and_exited<R: Wait + Clock + Abort + Print>(
    rt: &R,
    alloc: Global,
    count: u32,
) -> Journal {
    let Pair {
        mq,
        mut one,
        mut two,
    } = make_pair(rt, alloc, Kind::Stored);
    take(
        rt,
        &mq,
        &mut one,
        &mut two,
        &OPENS[..count.min(16) as usize],
    );
    take(rt, &mq, &mut one, &mut two, &EXITS);
    finish(rt, room(rt, alloc), mq, one, two)
}

// Each descriptor was closed once, the lowest first. An exit that is refused memory closes the
// lower ones, and the next exit the others.
fn expect_closes<A: Abort>(rt: &A, journal: &Journal, count: u32) {
    let mut d = 0u32;
    for place in 0..journal.len() {
        let entry = journal.entry(place).expect(rt, "an entry");
        if let Call::MqClose { d: of } = entry.call {
            assert_eq!(rt; (of, entry.reply), (d, Reply::Done));
            d = d.saturating_add(1);
        }
    }
    assert_eq!(rt; d, count);
    expect_legal(rt, journal, 2 * u64::from(count));
}

#[test]
fn an_exit_closes_all_descriptors_or_the_lower_ones(rt: HostRuntime) {
    for count in 1..=16 {
        expect_closes(&rt, &opened_and_exited(&rt, rt.alloc(), count), count);
    }
}
