//! Processes in threads of their own.
ghost use Rattle.std.specs.Prelude.{◌≡◌};
ghost use Rattle.mq.specs.Calls.{IsFree};

use super::{Pair, finish, make_pair, room};
use crate::books::expect_legal;
use crate::steps::{CREATE, Kind, ONE};
use mq::{FastMq, FastProcess, Monotonic, Name};
use std::process::Abort;
use std::sync::Wait;
use std::thread::{Threads, join};
use std::time::{Clock, Duration};

const MESSAGES: u8 = 200;

// Sends this number of messages, each with its number, through a queue that holds one. Whether each
// call succeeded.
fn send_all<R: Wait + Clock>(
    rt: &R,
    mq: &FastMq,
    mut p: FastProcess,
    name: &Name,
) -> (FastProcess, bool)
    requires { (p.lock ≡ mq.now) × IsFree p }
    ensures { result.0.lock ≡ p.lock }
{
    let mut all = p.open(rt, mq, name, CREATE, ONE) == Ok(0);
    'numbers: for number in 0..MESSAGES {
        all &= p.send(rt, mq, 0, &[number], 0).is_ok();
    }
    (p, all)
}

// Receives as many messages, every second one with a deadline that does not pass. Whether they came
// in the order of their numbers.
fn receive_all<R: Wait + Clock>(
    rt: &R,
    mq: &FastMq,
    mut p: FastProcess,
    name: &Name,
) -> (FastProcess, bool)
    requires { (p.lock ≡ mq.now) × IsFree p }
    ensures { result.0.lock ≡ p.lock }
{
    let Ok(clock) = Monotonic::start(rt) else {
        return (p, false);
    };
    let until = clock.after(Duration::from_secs(3_600));
    let mut all = p.open(rt, mq, name, CREATE, ONE) == Ok(0);
    let mut buf = [0; 8];
    'numbers: for number in 0..MESSAGES {
        let received = if number % 2 == 0 {
            p.receive(rt, mq, 0, &mut buf)
        } else {
            p.timed_receive(rt, mq, 0, &mut buf, until, &clock)
        };
        all &= received.is_ok() && buf[0] == number;
    }
    (p, all)
}

// One process sends and the other receives, each in a thread of its own.
fn pass_all<R: Wait + Clock + Threads + Abort + Sync>(
    rt: &R,
    queues: &FastMq,
    one: FastProcess,
    two: FastProcess,
    name: &Name,
) -> (FastProcess, FastProcess)
    requires one { (one.lock ≡ queues.now) × IsFree one }
    requires two { (two.lock ≡ queues.now) × IsFree two }
    ensures one { result.0.lock ≡ queues.now }
    ensures two { result.1.lock ≡ queues.now }
{
    let (sent, received) = join(
        rt,
        move || -> (FastProcess, bool)
            requires { (one.lock ≡ queues.now) × IsFree one }
            ensures { result.0.lock ≡ one.lock }
        { send_all(rt, queues, one, name) },
        move || -> (FastProcess, bool)
            requires { (two.lock ≡ queues.now) × IsFree two }
            ensures { result.0.lock ≡ two.lock }
        { receive_all(rt, queues, two, name) },
    );
    assert!(rt; sent.1);
    assert!(rt; received.1);
    (sent.0, received.0)
}

// An open of each process, and at least 400 entries of calls, since a call that waited has two.
#[test]
fn a_sender_and_a_receiver_in_threads_pass_all_messages_in_order(rt: HostRuntime) {
    let Pair { mq, one, two } = make_pair(&rt, rt.alloc(), Kind::Stored);
    let name = Name::read(b"/q").ok().expect(&rt, "a name");
    let (one, two) = pass_all(&rt, &mq, one, two, &name);
    let journal = finish(&rt, room(&rt, rt.alloc()), mq, one, two);
    assert!(rt; journal.len() >= 402);
    expect_legal(&rt, &journal, journal.len());
}
