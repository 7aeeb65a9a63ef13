//! A process with its queues, and the tries of its calls.
ghost use Rattle.std.specs.Prelude.{◌≡◌, true, IsSome};
ghost use Rattle.mq.specs.Calls.{WaitsIn};
ghost use Rattle.std.specs.Arc.{arc_value};
ghost use Rattle.mq_model.specs.Waits.{wait_deadline};
ghost use Rattle.mq_state.specs.Buffers.{waiting_room};
ghost use Rattle.c_handles.specs.Standings.{ticket_of, is_there};

use crate::standing;
use crate::standing::{Standing, arrive, at_rest, look, set_out, settle, waiting, walk_on};
use crate::tried::{Ending, Looked, Tried};
use mq::{Bounds, Call, Deadline, Entry, FastMq, FastProcess, Fault, Received, Returned};
use mq_model::error_order;
use std::alloc::{AllocError, Global};
use std::sync::Arc;

/// A process with its queues. Between two tries an acquisition of the lock may be in progress.
#[derive(Drop)]
pub struct Member {
    mq: Arc<FastMq, Global>,
    standing: Standing,
    // the deadline of its open wait, if it has one
    until: Option<Deadline>,
    ghost there: { is_there standing ≡ true },
    ghost made: { (ticket_of standing).lock ≡ arc_value mq },
    ghost deadline: { until ≡ wait_deadline (ticket_of standing).left (ticket_of standing).number },
}

impl Member {
    ghost use Rattle.std.specs.Prelude.{◌≡◌, IfNone, IfSome, [], length};
    ghost use Rattle.std.specs.Arc.{arc_value};
    ghost use Rattle.mq_state.specs.Requests.{Brings};
    ghost use Rattle.mq_model.specs.declared.entries.Call.{Call};
    ghost use Rattle.mq.specs.Calls.{Exits, OneCall, ReceiveCall};
    ghost use Rattle.mq.specs.Kinds.{IsOf, IsCall};
    ghost use Rattle.mq.specs.Says.{start_send_says, start_receive_says};
    ghost use Rattle.c_handles.specs.Standings.{ticket_of};
    ghost use Rattle.c_handles.specs.Tries.{Tries, TriesWith};

    /// A process without an acquisition in progress, its queues, and the deadline of its open wait.
    pub fn new(mq: Arc<FastMq, Global>, process: FastProcess, until: Option<Deadline>) -> Member
        requires made { process.lock ≡ arc_value mq }
        requires deadline { until ≡ wait_deadline process.left process.number }
        ensures { ticket_of result.standing ≡ process }
    {
        Member {
            mq,
            standing: at_rest(process),
            until,
        }
    }

    /// The number of its process.
    pub fn number(&self) -> u32 {
        standing::number(&self.standing)
    }

    /// The processes whose waits its last call answered: bit p - 1 stands for process p. It is a
    /// hint.
    pub fn answered_others(&self) -> u32 {
        standing::answered_others(&self.standing)
    }

    /// The futex words of its system.
    pub fn futex_words(&self) -> Option<*const u64> {
        self.mq.futex_words()
    }

    /// The futex word on which its process sleeps now, or `u32::MAX` if it has to try again. It is
    /// a hint.
    pub fn futex_word(&self) -> u32 {
        standing::futex_word(&self.standing)
    }

    /// Tries to make a call of any kind. `given` is its name or its message, or empty, and `buf`
    /// the buffer that a receive fills. A send or a receive may start to wait.
    #[inline(never)]
    pub fn make<A: Returned>(&mut self, call: Call, given: &[u8], buf: &mut [u8]) -> Tried<A>
        requires brings { Brings call given.now (length buf.old) }
        requires kind { IsOf A.kind call }
        ensures { let kind = A.kind in TriesWith (buf.new ≡ buf.old) (λ old new result.
            IsCall kind.says old new call given.now buf.old buf.new result)
            (ticket_of self.old.standing) (ticket_of self.new.standing) result }
    {
        if waiting(&self.standing).is_some() {
            return Tried::Waiting;
        }
        let Some(guard) = arrive(&self.mq, &mut self.standing) else {
            return Tried::Retry;
        };
        let (departed, returned) = guard.make(&self.mq, call, given, buf);
        let process = departed.into_process();
        self.until = until_of(&process, call);
        settle(&mut self.standing, process);
        Tried::Made(returned)
    }

    /// Tries to send, as [`make`](Member::make) does, if its process has no acquisition in progress
    /// and no open wait, and the fast path acquires the lock. Then the compiler knows each step.
    /// Otherwise the result is `None`, and an acquisition may be in progress.
    #[tactic(auto, using(crate::proofs::Members::no_deadline))]
    #[inline(always)]
    pub fn send_at_once(
        &mut self,
        d: u32,
        bytes: &[u8],
        prio: u32,
    ) -> Option<Tried<Result<bool, Fault>>>
        ensures none { IfNone result (ticket_of self.new.standing ≡ ticket_of self.old.standing) }
        ensures sent { IfSome result (λ tried. Tries (λ old new result.
            OneCall start_send_says old new (Call.MqSend d prio (length bytes.now)) bytes.now
            result) (ticket_of self.old.standing) (ticket_of self.new.standing) tried) }
    {
        if !standing::is_idle(&self.standing) {
            return None;
        }
        match set_out(&self.mq, &mut self.standing) {
            Ok(guard) => {
                let len = bytes.len() as u64;
                let call = Call::MqSend { d, prio, len };
                let (departed, sent) = guard.make(&self.mq, call, bytes, &mut []);
                settle(&mut self.standing, departed.into_process());
                Some(Tried::Made(sent))
            }
            Err(acquisition) => {
                walk_on(&mut self.standing, acquisition);
                None
            }
        }
    }

    /// Tries to receive, in the same way.
    #[tactic(auto, using(crate::proofs::Members::no_deadline))]
    #[inline(always)]
    pub fn receive_at_once(
        &mut self,
        d: u32,
        buf: &mut [u8],
    ) -> Option<Tried<Result<Option<Received>, Fault>>>
        ensures none { IfNone result (ticket_of self.new.standing ≡ ticket_of self.old.standing) }
        ensures same { IfNone result (buf.new ≡ buf.old) }
        ensures got { IfSome result (λ tried. TriesWith (buf.new ≡ buf.old) (λ old new result.
            ReceiveCall start_receive_says old new (Call.MqReceive d (length buf.old)) buf.old
            buf.new result) (ticket_of self.old.standing) (ticket_of self.new.standing) tried) }
    {
        if !standing::is_idle(&self.standing) {
            return None;
        }
        match set_out(&self.mq, &mut self.standing) {
            Ok(guard) => {
                let room = buf.len() as u64;
                let call = Call::MqReceive { d, room };
                let (departed, got) = guard.make(&self.mq, call, &[], buf);
                settle(&mut self.standing, departed.into_process());
                Some(Tried::Made(got))
            }
            Err(acquisition) => {
                walk_on(&mut self.standing, acquisition);
                None
            }
        }
    }

    /// Tries to close all descriptors.
    #[tactic(auto, using(crate::proofs::Members::no_deadline))]
    pub fn exit(&mut self) -> Tried<Result<(), Fault>>
        ensures { Tries (λ old new result. Exits old new result) (ticket_of self.old.standing)
            (ticket_of self.new.standing) result }
    {
        if waiting(&self.standing).is_some() {
            return Tried::Waiting;
        }
        let Some(guard) = arrive(&self.mq, &mut self.standing) else {
            return Tried::Retry;
        };
        let (departed, closed) = guard.exit(&self.mq);
        settle(&mut self.standing, departed.into_process());
        self.until = None;
        Tried::Made(closed)
    }
}

impl Member {
    ghost use Rattle.std.specs.Prelude.{◌≡◌, ◌↔◌, true, None, Some, IfNone, IfSome, OnSome, IfOk, IsOk, IsTrue};
    ghost use Rattle.std.specs.Option.{option_map};
    ghost use Rattle.mq_model.specs.Record.{record_at};
    ghost use Rattle.mq_state.specs.Room.{NobodyCanCall, room_left};
    ghost use Rattle.mq.specs.Calls.{bounds_of, stored_in};
    ghost use Rattle.mq.specs.Readings.{record_of};
    ghost use Rattle.c_handles.specs.Standings.{ticket_of, is_under_way};
    ghost use Rattle.c_handles.specs.Endings.{Ends, Looks};
    ghost use Rattle.c_handles.specs.Readings.{Reads};

    /// Whether the journal of the system is stored.
    pub fn is_stored(&self) -> bool
        ensures { result ≡ stored_in (ticket_of self.now.standing).lock.fixed }
    {
        self.mq.is_stored()
    }

    /// Tries to check the stored journal. `None` if the lock is not acquired yet.
    pub fn check(&mut self, alloc: Global) -> Option<Result<(), u64>>
        requires stored { stored_in (ticket_of self.old.standing).lock.fixed ≡ true }
        ensures none { IfNone result (ticket_of self.new.standing ≡ ticket_of self.old.standing) }
        ensures legal { IfSome result (λ checked. IsOk checked ×
            Reads (ticket_of self.old.standing) (ticket_of self.new.standing)) }
    {
        let guard = arrive(&self.mq, &mut self.standing)?;
        let (departed, checked) = guard.check(alloc, &self.mq);
        settle(&mut self.standing, departed.into_process());
        Some(checked)
    }

    /// Tries to read an entry of the stored journal with its payload. `None` if the lock is not
    /// acquired yet.
    pub fn record(
        &mut self,
        alloc: Global,
        place: u64,
    ) -> Option<Result<Option<(Entry, Vec<u8>)>, AllocError>>
        requires stored { stored_in (ticket_of self.old.standing).lock.fixed ≡ true }
        ensures none { IfNone result (ticket_of self.new.standing ≡ ticket_of self.old.standing) }
        ensures record { IfSome result (λ read. IfOk read (λ found. option_map record_of found ≡
            record_at (ticket_of self.new.standing).left place)) }
        ensures calls { OnSome result (Reads (ticket_of self.old.standing)
            (ticket_of self.new.standing)) }
    {
        let guard = arrive(&self.mq, &mut self.standing)?;
        let (departed, read) = guard.record(alloc, &self.mq, place);
        settle(&mut self.standing, departed.into_process());
        Some(read)
    }

    /// Tries to find out how much room the journal still has. `None` if the lock is not acquired
    /// yet.
    pub fn room(&mut self) -> Option<Option<Bounds>>
        ensures none { IfNone result (ticket_of self.new.standing ≡ ticket_of self.old.standing) }
        ensures room { IfSome result (λ room.
            room ≡ room_left (bounds_of (ticket_of self.old.standing))
            (ticket_of self.new.standing).left) }
        ensures calls { OnSome result (Reads (ticket_of self.old.standing)
            (ticket_of self.new.standing)) }
    {
        let guard = arrive(&self.mq, &mut self.standing)?;
        let (departed, room) = guard.room(&self.mq);
        settle(&mut self.standing, departed.into_process());
        Some(room)
    }

    /// Tries to find out whether no process can make a call any more. `None` if the lock is not
    /// acquired yet.
    pub fn nobody_can_call(&mut self) -> Option<bool>
        ensures none { IfNone result (ticket_of self.new.standing ≡ ticket_of self.old.standing) }
        ensures nobody { IfSome result (λ nobody.
            IsTrue nobody ↔ NobodyCanCall (bounds_of (ticket_of self.old.standing))
            (ticket_of self.new.standing).left (ticket_of self.old.standing).lock.count) }
        ensures calls { OnSome result (Reads (ticket_of self.old.standing)
            (ticket_of self.new.standing)) }
    {
        let guard = arrive(&self.mq, &mut self.standing)?;
        let (departed, nobody) = guard.nobody_can_call(&self.mq);
        settle(&mut self.standing, departed.into_process());
        Some(nobody)
    }

    /// Polls from outside the lock whether the open wait is answered.
    pub fn answered(&mut self) -> Looked
        ensures look { Looks (is_under_way self.old.standing) (ticket_of self.old.standing)
            (ticket_of self.new.standing) result }
        ensures under_way { is_under_way self.new.standing ≡ is_under_way self.old.standing }
    {
        if waiting(&self.standing).is_none() {
            return Looked::NotWaiting;
        }
        match look(&self.mq, &mut self.standing) {
            None => Looked::UnderWay,
            Some(true) => Looked::Answered,
            Some(false) => Looked::Unanswered,
        }
    }

    /// Tries to end the open wait if it is answered.
    pub fn collect(&mut self, buf: &mut [u8]) -> Ending
        ensures { Ends None (ticket_of self.old.standing)
            (ticket_of self.new.standing) buf.old buf.new result }
    {
        let Some(room) = waiting(&self.standing) else {
            return Ending::NotWaiting;
        };
        if buf.len() < room {
            return Ending::Short;
        }
        let Some(guard) = arrive(&self.mq, &mut self.standing) else {
            return Ending::Retry;
        };
        let (departed, outcome) = guard.collect(&self.mq, buf);
        settle(&mut self.standing, departed.into_process());
        match outcome {
            None => Ending::Unanswered,
            Some(outcome) => {
                self.until = None;
                Ending::Came(outcome)
            }
        }
    }

    /// Tries to end the open wait, whose deadline has passed at the time `now`.
    #[tactic(auto, using(crate::proofs::Members::no_deadline))]
    pub fn end_wait(&mut self, buf: &mut [u8], now: Deadline) -> Ending
        ensures { Ends (Some now) (ticket_of self.old.standing)
            (ticket_of self.new.standing) buf.old buf.new result }
    {
        let Some(room) = waiting(&self.standing) else {
            return Ending::NotWaiting;
        };
        if buf.len() < room {
            return Ending::Short;
        }
        if !error_order::is_over(self.until, now) {
            return Ending::TooEarly;
        }
        let Some(guard) = arrive(&self.mq, &mut self.standing) else {
            return Ending::Retry;
        };
        let (departed, outcome) = guard.end_wait(&self.mq, buf, now);
        settle(&mut self.standing, departed.into_process());
        self.until = None;
        match outcome {
            None => Ending::Withdrawn,
            Some(outcome) => Ending::Came(outcome),
        }
    }
}

// The deadline of a process that has made this call, if it waits in it.
#[tactic(auto, using(crate::proofs::Members::no_deadline))]
fn until_of(process: &FastProcess, call: Call) -> Option<Deadline>
    requires { IsSome (waiting_room process.now.left process.now.number) →
        WaitsIn process.now call }
    ensures { result ≡ wait_deadline process.now.left process.now.number }
{
    match process.waiting() {
        None => None,
        Some(_) => call.deadline(),
    }
}
