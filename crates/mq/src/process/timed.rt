//! Sending and receiving with a deadline.

use super::{Process, arrive};
use crate::guarded::Guarded;
use crate::sleep_times::SleepTimes;
use crate::system::Mq;
use fast_mutex::Look;
use mq_model::entries::{Deadline, Received};
use mq_model::faults::Fault;
use mq_model::{clock, error_order};
use mq_state::collected::Collected;
use std::sync::Wait;
use std::time::Duration;

// The shortest sleep before a deadline, in nanoseconds. It is about what the operating system adds
// to each sleep.
const SHORTEST_NAP: u64 = 50_000;

impl<L: Look<Guarded>> Process<L> {
    ghost use Rattle.std.specs.Prelude.{◌≡◌, ◌≤◌, true, false, Some, None, IsSome, IfSome, IfNone, IfOk, Ok, length, []};
    ghost use Rattle.mq_model.specs.Deadlines.{is_over};
    ghost use Rattle.mq_model.specs.Waits.{wait_deadline};
    ghost use Rattle.mq_state.specs.Buffers.{waiting_room};
    ghost use Rattle.mq.specs.Says.{FitsIn};
    ghost use Rattle.mq.specs.Calls.{IsFree, Collects, WithdrawsAt, Withdraws, TimedSend, TimedReceive};

    // Ends the open wait, whose deadline has passed at the time `now`: collects it if it is
    // answered, else withdraws it.
    fn end_wait<R: Wait>(
        &mut self,
        rt: &R,
        mq: &Mq<L>,
        buf: &mut [u8],
        now: Deadline,
    ) -> Option<Collected>
        requires made { self.old.lock ≡ mq.now }
        requires wait { IsSome (waiting_room self.old.left self.old.number) }
        requires room { IfSome (waiting_room self.old.left self.old.number)
            (λ room. room ≤ length buf.old) }
        requires over { is_over (wait_deadline self.old.left self.old.number) now ≡ true }
        ensures some { IfSome result (λ outcome.
            Collects self.old self.new outcome buf.old buf.new) }
        ensures none { IfNone result (WithdrawsAt now self.old self.new) }
        ensures same { IfNone result (buf.new ≡ buf.old) }
        ensures fits { IfSome result (λ outcome. FitsIn outcome (length buf.old)) }
        ensures free { IsFree self.new }
    {
        in_one_stay!(self, rt, mq, |guard| guard.end_wait(mq, buf, now))
    }

    // Polls until the wait is answered or its deadline has passed. In the second case it returns
    // the time at which it found that.
    fn look_until<R: Wait, C: clock::Clock>(
        &mut self,
        rt: &R,
        mq: &Mq<L>,
        until: Deadline,
        clock: &C,
    ) -> Option<Deadline>
        requires made { self.old.lock ≡ mq.now }
        requires wait { IsSome (waiting_room self.old.left self.old.number) }
        ensures ticket { self.new ≡ record self.old { told = self.new.told } }
        ensures answered { result ≡ None → self.new.told ≡ true }
        ensures over { IfSome result (λ now. is_over (Some until) now ≡ true) }
        ensures moment { IfSome result (λ now. C.gives clock.now now) }
    {
        let mut sleep_times = SleepTimes::new();
        let mut passed = None;
        'looks: for _ in rt.forever() {
            if self.answered(mq) {
                break;
            }
            let now = clock.now();
            if error_order::is_over(Some(until), now) {
                passed = Some(now);
                break;
            }
            let delay = sleep_times.next().min(time_left(until, now));
            if self.await_answer(rt, mq, delay) {
                break;
            }
        }
        passed
    }

    // Waits until the wait is answered, and collects it, or until its deadline has passed, and
    // withdraws it.
    fn await_until<R: Wait, C: clock::Clock>(
        &mut self,
        rt: &R,
        mq: &Mq<L>,
        until: Deadline,
        clock: &C,
        buf: &mut [u8],
    ) -> Option<Collected>
        requires made { self.old.lock ≡ mq.now }
        requires wait { IsSome (waiting_room self.old.left self.old.number) }
        requires room { IfSome (waiting_room self.old.left self.old.number)
            (λ room. room ≤ length buf.old) }
        requires deadline { wait_deadline self.old.left self.old.number ≡ Some until }
        ensures some { IfSome result (λ outcome.
            Collects self.old self.new outcome buf.old buf.new) }
        ensures none { IfNone result (Withdraws (C.gives clock.now) self.old self.new) }
        ensures same { IfNone result (buf.new ≡ buf.old) }
        ensures fits { IfSome result (λ outcome. FitsIn outcome (length buf.old)) }
        ensures free { IsFree self.new }
    {
        match self.look_until(rt, mq, until, clock) {
            None => self.collect(rt, mq, buf),
            Some(now) => self.end_wait(rt, mq, buf, now),
        }
    }

    /// Sends a message of this priority (`mq_timedsend`). If the queue is full, it waits until the
    /// message is admitted, or until the clock reaches `until`. Then it fails with `TimedOut`, and
    /// the message is not sent. A message that can be sent at once is sent, whatever the deadline.
    /// Fails as [`send`](Process::send), and if it would wait, with `Invalid` if the nanoseconds of
    /// `until` are not from 0 to 999,999,999.
    pub fn timed_send<R: Wait, C: clock::Clock>(
        &mut self,
        rt: &R,
        mq: &Mq<L>,
        d: u32,
        bytes: &[u8],
        prio: u32,
        until: Deadline,
        clock: &C,
    ) -> Result<(), Fault>
        requires made { self.old.lock ≡ mq.now }
        requires free { IsFree self.old }
        ensures call { TimedSend (C.gives clock.now) self.old self.new d bytes.now prio
            until result }
        ensures free { IsFree self.new }
    {
        match self.start_timed_send(rt, mq, d, bytes, prio, until, clock.now()) {
            Ok(true) => Ok(()),
            Ok(false) => match self.await_until(rt, mq, until, clock, &mut []) {
                Some(_) => Ok(()),
                None => Err(Fault::TimedOut),
            },
            Err(fault) => Err(fault),
        }
    }

    /// Receives the oldest message of the highest priority to the start of the buffer
    /// (`mq_timedreceive`). If there is none, it waits for one, or until the clock reaches `until`.
    /// Then it fails with `TimedOut`, and the buffer is unchanged. If there is a message it is
    /// received, whatever the deadline. Fails as [`receive`](Process::receive), and if it would
    /// wait, with `Invalid` if the nanoseconds of `until` are not from 0 to 999,999,999.
    pub fn timed_receive<R: Wait, C: clock::Clock>(
        &mut self,
        rt: &R,
        mq: &Mq<L>,
        d: u32,
        buf: &mut [u8],
        until: Deadline,
        clock: &C,
    ) -> Result<Received, Fault>
        requires made { self.old.lock ≡ mq.now }
        requires free { IsFree self.old }
        ensures call { TimedReceive (C.gives clock.now) self.old self.new d buf.old buf.new
            until result }
        ensures fits { IfOk result (λ received. received.len ≤ length buf.old) }
        ensures free { IsFree self.new }
    {
        match self.start_timed_receive(rt, mq, d, buf, until, clock.now()) {
            Ok(Some(received)) => Ok(received),
            Ok(None) => match self.await_until(rt, mq, until, clock, buf) {
                Some(Collected::Got(received)) => Ok(received),
                Some(Collected::Sent) => unreachable!(),
                None => Err(Fault::TimedOut),
            },
            Err(fault) => Err(fault),
        }
    }
}

// The time from `now` to `until`, and at least the shortest sleep. The clock that the caller lends
// need not run in real time, so this only bounds a sleep.
fn time_left(until: Deadline, now: Deadline) -> Duration {
    let seconds = until.sec.saturating_sub(now.sec);
    let nanos = seconds
        .saturating_mul(1_000_000_000)
        .saturating_add(until.nsec.saturating_sub(now.nsec));
    Duration::from_nanos(u64::try_from(nanos).unwrap_or(0).max(SHORTEST_NAP))
}
