//! Whether processes are deadlocked, how much room the journal has, and timed calls that do not
//! block.

use super::{Process, arrive};
use crate::guarded::Guarded;
use crate::system::Mq;
use fast_mutex::Look;
use mq_model::bounds::Bounds;
use mq_model::entries::{Call, Deadline, Received};
use mq_model::faults::Fault;
use std::sync::Wait;

impl<L: Look<Guarded>> Process<L> {
    ghost use Rattle.std.specs.Prelude.{◌≡◌, ◌≢◌, ◌≤◌, ◌↔◌, IsTrue, false, None, IfOk, IfSome, Ok, length, []};
    ghost use Rattle.std.specs.List.{list_all};
    ghost use Rattle.mq_model.specs.declared.entries.Call.{Call};
    ghost use Rattle.mq_state.specs.Buffers.{waiting_room};
    ghost use Rattle.mq.specs.Blocked.{is_blocked};
    ghost use Rattle.mq_state.specs.Room.{NobodyCanCall, room_left};
    ghost use Rattle.mq.specs.Calls.{Calls, KeepsAnswered, IsFree, OneCall, ReceiveCall, WaitsIn, bounds_of};
    ghost use Rattle.mq.specs.Says.{start_send_says, start_receive_says};

    /// Whether each of these processes is blocked: it has an open wait that no entry serves. It
    /// acquires the lock once and changes nothing. The calling process may have an open wait, and
    /// keeps it. Takes no memory. If it is true for all processes that may still call, none of them
    /// ever continues, except by a deadline.
    pub fn are_blocked<R: Wait>(&mut self, rt: &R, mq: &Mq<L>, processes: &[u32]) -> bool
        requires made { self.old.lock ≡ mq.now }
        ensures blocked { result ≡ list_all (is_blocked self.new.left) processes.now }
        ensures calls { Calls self.old self.new [] }
        ensures wait { waiting_room self.new.left self.new.number ≡
            waiting_room self.old.left self.old.number }
        ensures told { KeepsAnswered self.old self.new }
    {
        in_one_stay!(self, rt, mq, |guard| guard.are_blocked(mq, processes))
    }

    /// Whether no process can make a call any more: each process either has an open wait, without a
    /// deadline and not answered, or finds the journal full. It acquires the lock as
    /// [`Process::are_blocked`] does. Once true it stays true, and a blocked call never returns.
    pub fn nobody_can_call<R: Wait>(&mut self, rt: &R, mq: &Mq<L>) -> bool
        requires made { self.old.lock ≡ mq.now }
        ensures nobody { IsTrue result ↔ NobodyCanCall
            (bounds_of self.old) self.new.left self.old.lock.count }
        ensures calls { Calls self.old self.new [] }
        ensures wait { waiting_room self.new.left self.new.number ≡
            waiting_room self.old.left self.old.number }
        ensures told { KeepsAnswered self.old self.new }
    {
        in_one_stay!(self, rt, mq, |guard| guard.nobody_can_call(mq))
    }

    /// The number of entries and of payload bytes for which the journal still has room; `None`
    /// without bounds. Room that is kept for the ends of open waits does not count. A send or a
    /// receive needs room for two entries, because it may wait, and any other call for one.
    pub fn room<R: Wait>(&mut self, rt: &R, mq: &Mq<L>) -> Option<Bounds>
        requires made { self.old.lock ≡ mq.now }
        ensures room { result ≡ room_left (bounds_of self.old) self.new.left }
        ensures calls { Calls self.old self.new [] }
        ensures wait { waiting_room self.new.left self.new.number ≡
            waiting_room self.old.left self.old.number }
        ensures told { KeepsAnswered self.old self.new }
    {
        in_one_stay!(self, rt, mq, |guard| guard.room(mq))
    }

    /// The number of entries in the journal. It acquires the lock as [`Process::are_blocked`] does.
    pub fn journal_len<R: Wait>(&mut self, rt: &R, mq: &Mq<L>) -> u64
        requires made { self.old.lock ≡ mq.now }
        ensures count { result ≡ length self.new.left }
        ensures calls { Calls self.old self.new [] }
        ensures wait { waiting_room self.new.left self.new.number ≡
            waiting_room self.old.left self.old.number }
        ensures told { KeepsAnswered self.old self.new }
    {
        in_one_stay!(self, rt, mq, |guard| guard.journal_len(mq))
    }

    /// Starts a send with a deadline, at the time `now`, without waiting for its admission. True if
    /// the queue or a waiting receive took the message, false if the process now has an open wait.
    /// Fails as [`Process::timed_send`].
    pub fn start_timed_send<R: Wait>(
        &mut self,
        rt: &R,
        mq: &Mq<L>,
        d: u32,
        bytes: &[u8],
        prio: u32,
        until: Deadline,
        now: Deadline,
    ) -> Result<bool, Fault>
        requires made { self.old.lock ≡ mq.now }
        requires free { IsFree self.old }
        ensures call { OneCall start_send_says self.old self.new (Call.MqTimedSend d prio
            (length bytes.now) until now) bytes.now result }
        ensures waits { result ≡ Ok false →
            WaitsIn self.new (Call.MqTimedSend d prio (length bytes.now) until now) }
        ensures free { result ≢ Ok false → IsFree self.new }
    {
        let call = Call::MqTimedSend {
            d,
            prio,
            len: bytes.len() as u64,
            until,
            now,
        };
        self.make(rt, mq, call, bytes, &mut [])
    }

    /// Starts a receive with a deadline, at the time `now`. `None` if the process now has an open
    /// wait; otherwise the message is at the start of the buffer. Fails as
    /// [`Process::timed_receive`].
    pub fn start_timed_receive<R: Wait>(
        &mut self,
        rt: &R,
        mq: &Mq<L>,
        d: u32,
        buf: &mut [u8],
        until: Deadline,
        now: Deadline,
    ) -> Result<Option<Received>, Fault>
        requires made { self.old.lock ≡ mq.now }
        requires free { IsFree self.old }
        ensures call { ReceiveCall start_receive_says self.old self.new (Call.MqTimedReceive d
            (length buf.old) until now) buf.old buf.new result }
        ensures fits { IfOk result (λ got. IfSome got (λ received. received.len ≤ length buf.old)) }
        ensures waits { result ≡ Ok None →
            WaitsIn self.new (Call.MqTimedReceive d (length buf.old) until now) }
        ensures free { result ≢ Ok None → IsFree self.new }
    {
        let call = Call::MqTimedReceive {
            d,
            room: buf.len() as u64,
            until,
            now,
        };
        self.make(rt, mq, call, &[], buf)
    }
}
