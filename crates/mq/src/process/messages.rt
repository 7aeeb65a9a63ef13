//! Sending and receiving, which may wait.

use super::{Process, arrive};
use crate::guarded::Guarded;
use crate::system::Mq;
use fast_mutex::{AwaitAnswer, Look};
use mq_model::entries::{Call, Received};
use mq_model::faults::Fault;
use mq_state::collected::Collected;
use std::sync::Wait;
use std::time::Duration;

// The longest sleep of a wait without a deadline, in seconds: for ever. The call that answers the
// wait wakes the thread.
const LONGEST_SLEEP: u64 = u32::MAX as u64;

// The four calls that start a send or a receive have the body of `Process::make` in place. It is
// too long to be inlined into them, and would find out the kind of the call only at run time.
impl<L: Look<Guarded>> Process<L> {
    ghost use Rattle.std.specs.Prelude.{◌≡◌, ◌≢◌, ◌≤◌, ◌||◌, true, false, Some, None, IsSome, IfSome, IfNone, IfOk, Ok, length, []};
    ghost use Rattle.mq_model.specs.Legality.{Legal};
    ghost use Rattle.mq_model.specs.Waits.{is_answered};
    ghost use Rattle.mq_model.specs.declared.entries.Call.{Call};
    ghost use Rattle.mq_state.specs.Buffers.{waiting_room};
    ghost use Rattle.mq.specs.Says.{start_send_says, start_receive_says, FitsIn};
    ghost use Rattle.mq.specs.Calls.{IsFree, OneCall, ReceiveCall, SendCall, WholeReceive, WaitsIn, Collects, StillWaits};

    /// Starts to send a message, without waiting for its admission. True if the queue or a waiting
    /// receive took it, false if the process now has an open wait. Fails as [`Process::send`].
    pub fn start_send<R: Wait>(
        &mut self,
        rt: &R,
        mq: &Mq<L>,
        d: u32,
        bytes: &[u8],
        prio: u32,
    ) -> Result<bool, Fault>
        requires made { self.old.lock ≡ mq.now }
        requires free { IsFree self.old }
        ensures call { OneCall start_send_says self.old self.new
            (Call.MqSend d prio (length bytes.now)) bytes.now result }
        ensures waits { result ≡ Ok false →
            WaitsIn self.new (Call.MqSend d prio (length bytes.now)) }
        ensures free { result ≢ Ok false → IsFree self.new }
    {
        let len = bytes.len() as u64;
        let call = Call::MqSend { d, prio, len };
        in_one_stay!(self, rt, mq, |guard| guard.make(mq, call, bytes, &mut []))
    }

    /// Receives the oldest message of the highest priority to the start of the buffer. If there is
    /// none it returns `None`, and the process has an open wait. Fails as [`Process::receive`].
    pub fn start_receive<R: Wait>(
        &mut self,
        rt: &R,
        mq: &Mq<L>,
        d: u32,
        buf: &mut [u8],
    ) -> Result<Option<Received>, Fault>
        requires made { self.old.lock ≡ mq.now }
        requires free { IsFree self.old }
        ensures call { ReceiveCall start_receive_says self.old self.new
            (Call.MqReceive d (length buf.old)) buf.old buf.new result }
        ensures fits { IfOk result (λ got. IfSome got (λ received. received.len ≤ length buf.old)) }
        ensures waits { result ≡ Ok None → WaitsIn self.new (Call.MqReceive d (length buf.old)) }
        ensures free { result ≢ Ok None → IsFree self.new }
    {
        let room = buf.len() as u64;
        let call = Call::MqReceive { d, room };
        in_one_stay!(self, rt, mq, |guard| guard.make(mq, call, &[], buf))
    }

    /// Ends the open wait if it is answered, and returns its outcome. A received message is at the
    /// start of the buffer. Takes no memory.
    pub fn collect<R: Wait>(&mut self, rt: &R, mq: &Mq<L>, buf: &mut [u8]) -> Option<Collected>
        requires made { self.old.lock ≡ mq.now }
        requires wait { IsSome (waiting_room self.old.left self.old.number) }
        requires room { IfSome (waiting_room self.old.left self.old.number)
            (λ room. room ≤ length buf.old) }
        ensures none { IfNone result (StillWaits self.old self.new) }
        ensures same { IfNone result (buf.new ≡ buf.old) }
        ensures some { IfSome result (λ outcome.
            Collects self.old self.new outcome buf.old buf.new) }
        ensures free { IfSome result (λ outcome. IsFree self.new) }
        ensures fits { IfSome result (λ outcome. FitsIn outcome (length buf.old)) }
        ensures told { self.old.told ≡ true → IsSome result }
    {
        in_one_stay!(self, rt, mq, |guard| guard.collect(mq, buf))
    }

    /// Whether the open wait is answered, by one poll from outside the lock. It never waits. If it
    /// is true, the next `collect` returns `Some`. It is false without an open wait. It is true if
    /// an earlier poll in this wait was true, or if the journal that the process last left answers
    /// the wait.
    #[tactic(auto, using(crate::proofs::Answering::unanswered))]
    pub fn answered(&mut self, mq: &Mq<L>) -> bool
        requires made { self.old.lock ≡ mq.now }
        ensures ticket { self.new ≡ record self.old { told = self.old.told || result } }
        ensures free { waiting_room self.old.left self.old.number ≡ None → result ≡ false }
        ensures left { is_answered self.old.left self.old.number ≡ true → result ≡ true }
        ensures again { self.old.told ≡ true → IsSome (waiting_room self.old.left self.old.number) →
            result ≡ true }
    {
        if self.waits.is_none() {
            return false;
        }
        let Some(seat) = &mut self.seat else {
            unreachable!()
        };
        mq.lock().answered(seat)
    }

    /// Polls until [`answered`](Process::answered) is true, for about `at_most` at the longest. It
    /// polls a few times, and then sleeps until the call that answers the wait wakes it. Without an
    /// open wait it returns false at once.
    #[tactic(auto, using(crate::proofs::Answering::unanswered))]
    pub fn await_answer<R: Wait>(&mut self, rt: &R, mq: &Mq<L>, at_most: Duration) -> bool
        requires made { self.old.lock ≡ mq.now }
        ensures ticket { self.new ≡ record self.old { told = self.old.told || result } }
        ensures free { waiting_room self.old.left self.old.number ≡ None → result ≡ false }
        ensures left { is_answered self.old.left self.old.number ≡ true → result ≡ true }
        ensures again { self.old.told ≡ true → IsSome (waiting_room self.old.left self.old.number) →
            result ≡ true }
    {
        if self.waiting().is_none() {
            return false;
        }
        let Some(seat) = &mut self.seat else {
            unreachable!()
        };
        mq.lock().await_answer(rt, seat, at_most)
    }

    // Polls until the wait is answered, and then acquires the lock and collects.
    fn await_outcome<R: Wait>(&mut self, rt: &R, mq: &Mq<L>, buf: &mut [u8]) -> Collected
        requires made { self.old.lock ≡ mq.now }
        requires wait { IsSome (waiting_room self.old.left self.old.number) }
        requires room { IfSome (waiting_room self.old.left self.old.number)
            (λ room. room ≤ length buf.old) }
        requires legal { Legal self.old.left }
        ensures some { Collects self.old self.new result buf.old buf.new }
        ensures fits { FitsIn result (length buf.old) }
        ensures free { IsFree self.new }
    {
        'looks: for _ in rt.forever() {
            if self.await_answer(rt, mq, Duration::from_secs(LONGEST_SLEEP)) {
                break;
            }
        }
        match self.collect(rt, mq, buf) {
            Some(outcome) => outcome,
            None => unreachable!(),
        }
    }

    /// Sends a message of this priority (`mq_send`). If the queue is full, it waits until the
    /// message is admitted, unless the descriptor is nonblocking. Fails with `BadDescriptor`,
    /// `Invalid`, `MessageSize`, `Again`, `NoMemory` or `JournalFull`.
    pub fn send<R: Wait>(
        &mut self,
        rt: &R,
        mq: &Mq<L>,
        d: u32,
        bytes: &[u8],
        prio: u32,
    ) -> Result<(), Fault>
        requires made { self.old.lock ≡ mq.now }
        requires free { IsFree self.old }
        ensures call { SendCall self.old self.new d bytes.now prio result }
        ensures free { IsFree self.new }
    {
        let len = bytes.len() as u64;
        let call = Call::MqSend { d, prio, len };
        let sent = in_one_stay!(self, rt, mq, |guard| guard.make(mq, call, bytes, &mut []));
        match sent {
            Ok(true) => Ok(()),
            Ok(false) => {
                self.await_outcome(rt, mq, &mut []);
                Ok(())
            }
            Err(fault) => Err(fault),
        }
    }

    /// Receives the oldest message of the highest priority to the start of the buffer
    /// (`mq_receive`). If there is none, it waits for one, unless the descriptor is nonblocking.
    /// Fails with `BadDescriptor`, `MessageSize`, `Again`, `NoMemory` or `JournalFull`.
    pub fn receive<R: Wait>(
        &mut self,
        rt: &R,
        mq: &Mq<L>,
        d: u32,
        buf: &mut [u8],
    ) -> Result<Received, Fault>
        requires made { self.old.lock ≡ mq.now }
        requires free { IsFree self.old }
        ensures call { WholeReceive self.old self.new d buf.old buf.new result }
        ensures fits { IfOk result (λ received. received.len ≤ length buf.old) }
        ensures free { IsFree self.new }
    {
        let room = buf.len() as u64;
        let call = Call::MqReceive { d, room };
        let got = in_one_stay!(self, rt, mq, |guard| guard.make(mq, call, &[], buf));
        match got {
            Ok(Some(received)) => Ok(received),
            Ok(None) => match self.await_outcome(rt, mq, buf) {
                Collected::Got(received) => Ok(received),
                Collected::Sent => unreachable!(),
            },
            Err(fault) => Err(fault),
        }
    }
}
