//! What two processes ask, and what they are told. The lock is a type parameter: over a known lock a
//! check takes longer.
ghost use Rattle.std.specs.Prelude.{◌≡◌};
ghost use Rattle.mq.specs.Calls.{IsFree};

use crate::refusals::say_refused;
use crate::steps::{Ask, Outcome, Step, came, length};
use fast_mutex::Look;
use mq::{Fault, Guarded, Monotonic, Mq, Name, Process, Received, Status};
use std::io::Print;
use std::process::Abort;
use std::sync::Wait;
use std::time::{Clock, Duration};

// The calls of a process that has no open wait.
fn call<L: Look<Guarded>, R: Wait + Clock>(
    rt: &R,
    mq: &Mq<L>,
    p: &mut Process<L>,
    ask: Ask,
    buf: &mut [u8; 8],
) -> Outcome
    requires made { p.old.lock ≡ mq.now }
    requires free { IsFree p.old }
    ensures { p.new.lock ≡ mq.now }
{
    match ask {
        Ask::Open(name, ..) | Ask::Unlink(name) => named_call(rt, mq, p, ask, name),
        Ask::Close(d) => done(p.close(rt, mq, d)),
        Ask::Exit => done(p.exit(rt, mq)),
        Ask::Send(d, bytes, prio) => sent(p.start_send(rt, mq, d, bytes, prio)),
        Ask::Receive(d) => got(p.start_receive(rt, mq, d, buf)),
        Ask::TimedSend(d, bytes, prio, until, now) => {
            sent(p.start_timed_send(rt, mq, d, bytes, prio, until, now))
        }
        Ask::TimedReceive(d, until, now) => {
            got(p.start_timed_receive(rt, mq, d, buf, until, now))
        }
        Ask::Notify(d, value) => done(p.notify(rt, mq, d, value)),
        Ask::NextNotice => notice(p.next_notice(rt, mq)),
        Ask::Getattr(d) => attributes(p.getattr(rt, mq, d)),
        Ask::Setattr(d, new) => attributes(p.setattr(rt, mq, d, new)),
        _ => blocking_call(rt, mq, p, ask, buf),
    }
}

// An open or an unlink.
fn named_call<L: Look<Guarded>, R: Wait>(
    rt: &R,
    mq: &Mq<L>,
    p: &mut Process<L>,
    ask: Ask,
    name: &[u8],
) -> Outcome
    requires made { p.old.lock ≡ mq.now }
    requires free { IsFree p.old }
    ensures { p.new.lock ≡ mq.now }
{
    match (Name::read(name), ask) {
        (Ok(name), Ask::Open(_, flags, attr)) => opened(p.open(rt, mq, &name, flags, attr)),
        (Ok(name), _) => done(p.unlink(rt, mq, &name)),
        (Err(fault), _) => Outcome::Refused(fault),
    }
}

// The calls that may wait.
fn blocking_call<L: Look<Guarded>, R: Wait + Clock>(
    rt: &R,
    mq: &Mq<L>,
    p: &mut Process<L>,
    ask: Ask,
    buf: &mut [u8; 8],
) -> Outcome
    requires made { p.old.lock ≡ mq.now }
    requires free { IsFree p.old }
    ensures { p.new.lock ≡ mq.now }
{
    let Ok(clock) = Monotonic::start(rt) else {
        return Outcome::Nothing;
    };
    match ask {
        Ask::BlockingSend(d, bytes, prio) => done(p.send(rt, mq, d, bytes, prio)),
        Ask::BlockingReceive(d) => received(p.receive(rt, mq, d, buf)),
        Ask::BlockingTimedSend(d, bytes, prio, most) => {
            let until = clock.after(Duration::from_millis(most));
            done(p.timed_send(rt, mq, d, bytes, prio, until, &clock))
        }
        Ask::BlockingTimedReceive(d, most) => {
            let until = clock.after(Duration::from_millis(most));
            received(p.timed_receive(rt, mq, d, buf, until, &clock))
        }
        _ => Outcome::Nothing,
    }
}

fn done(told: Result<(), Fault>) -> Outcome {
    match told {
        Ok(()) => Outcome::Done,
        Err(fault) => Outcome::Refused(fault),
    }
}

fn opened(told: Result<u32, Fault>) -> Outcome {
    match told {
        Ok(d) => Outcome::Number(Some(u64::from(d))),
        Err(fault) => Outcome::Refused(fault),
    }
}

fn notice(told: Result<Option<u64>, Fault>) -> Outcome {
    match told {
        Ok(value) => Outcome::Number(value),
        Err(fault) => Outcome::Refused(fault),
    }
}

fn attributes(told: Result<Status, Fault>) -> Outcome {
    match told {
        Ok(status) => Outcome::Attrs(status),
        Err(fault) => Outcome::Refused(fault),
    }
}

fn sent(told: Result<bool, Fault>) -> Outcome {
    match told {
        Ok(true) => Outcome::Done,
        Ok(false) => Outcome::Waits,
        Err(fault) => Outcome::Refused(fault),
    }
}

fn got(told: Result<Option<Received>, Fault>) -> Outcome {
    match told {
        Ok(Some(_)) => Outcome::Got,
        Ok(None) => Outcome::Waits,
        Err(fault) => Outcome::Refused(fault),
    }
}

fn received(told: Result<Received, Fault>) -> Outcome {
    match told {
        Ok(_) => Outcome::Got,
        Err(fault) => Outcome::Refused(fault),
    }
}

// The outcome of the open wait, if there is one that fits the buffer.
fn collect<L: Look<Guarded>, R: Wait>(
    rt: &R,
    mq: &Mq<L>,
    p: &mut Process<L>,
    buf: &mut [u8; 8],
) -> Outcome
    requires { p.old.lock ≡ mq.now }
    ensures { p.new.lock ≡ mq.now }
{
    match p.waiting() {
        Some(room) if room <= buf.len() => came(p.collect(rt, mq, buf)),
        _ => Outcome::Nothing,
    }
}

// What a process is told.
fn outcome_of<L: Look<Guarded>, R: Wait + Clock>(
    rt: &R,
    mq: &Mq<L>,
    p: &mut Process<L>,
    ask: Ask,
    buf: &mut [u8; 8],
) -> Outcome
    requires { p.old.lock ≡ mq.now }
    ensures { p.new.lock ≡ mq.now }
{
    match ask {
        Ask::ProcessNumber => Outcome::Number(Some(u64::from(p.number()))),
        Ask::Waiting => length(p.waiting()),
        Ask::Answered => Outcome::Is(p.answered(mq)),
        Ask::Front => Outcome::Number(Some(u64::from(buf[0]))),
        Ask::Collect => collect(rt, mq, p, buf),
        Ask::AreBlocked(processes) => Outcome::Is(p.are_blocked(rt, mq, processes)),
        Ask::Entries => Outcome::Number(Some(p.journal_len(rt, mq))),
        _ if p.waiting().is_some() => Outcome::Nothing,
        _ => call(rt, mq, p, ask, buf),
    }
}

// What a process is told. If an allocation failed, the buffer is unchanged, and the same is asked
// again.
fn asked<L: Look<Guarded>, R: Wait + Clock + Print>(
    rt: &R,
    mq: &Mq<L>,
    p: &mut Process<L>,
    ask: Ask,
    buf: &mut [u8; 8],
) -> Outcome
    requires { p.old.lock ≡ mq.now }
    ensures { p.new.lock ≡ mq.now }
{
    let lent = *buf;
    let outcome = outcome_of(rt, mq, p, ask, buf);
    if outcome != Outcome::Refused(Fault::NoMemory) || *buf != lent {
        return outcome;
    }
    say_refused(rt, "a call");
    outcome_of(rt, mq, p, ask, buf)
}

/// Two processes take the steps in order, with one buffer.
pub fn take<L: Look<Guarded>, R: Wait + Clock + Abort + Print>(
    rt: &R,
    mq: &Mq<L>,
    one: &mut Process<L>,
    two: &mut Process<L>,
    steps: &[Step],
)
    requires one { one.old.lock ≡ mq.now }
    requires two { two.old.lock ≡ mq.now }
    ensures one { one.new.lock ≡ mq.now }
    ensures two { two.new.lock ≡ mq.now }
{
    let mut buf = [0; 8];
    'steps: for (number, step) in steps.iter().enumerate() {
        let (process, ask, wanted) = *step;
        let found = if process == 1 {
            asked(rt, mq, one, ask, &mut buf)
        } else {
            asked(rt, mq, two, ask, &mut buf)
        };
        assert!(rt; found == wanted, "step {number}");
    }
}
