//! A process and its calls.
ghost use Rattle.std.specs.Prelude.{◌≡◌, Some, IsSome};
ghost use Rattle.mq_state.specs.Buffers.{waiting_room};
ghost use Rattle.mq.specs.Calls.{ticket_of};

// Makes a call with the lock held: acquires the lock with the seat of the process, evaluates
// `$made` with the guard, stores the process back, and wakes the threads that this call concerns.
macro_rules! in_one_stay {
    ($process:ident, $rt:ident, $mq:ident, |$guard:ident| $made:expr) => {{
        let $guard = arrive($rt, $mq, &mut $process.seat, $process.waits);
        let (departed, made) = $made;
        *$process = departed.wake_others($mq);
        made
    }};
}

mod blocked;
mod exits;
mod messages;
mod timed;

use crate::guard::Guard;
use crate::guarded::Guarded;
use crate::returned::Returned;
use crate::system::Mq;
use fast_mutex::Look;
use mq_model::entries::{Attr, Call, OpenFlags, Status};
use mq_model::faults::Fault;
use mq_model::names::Name;
use std::marker::Model;
use std::sync::Wait;

/// One process. Contracts see its lock, its number, and the journal that it last left.
#[derive(Drop)]
pub struct Process<L: Look<Guarded>> {
    pub(crate) seat: Option<L::Seat>,
    pub(crate) waits: Option<usize>,
}

impl<L: Look<Guarded>> Model for Process<L> {
    ghost use Rattle.std.specs.Prelude.{◌≡◌, IsSome};
    ghost use Rattle.fast_mutex.specs.Items.{Ticket};
    ghost use Rattle.mq_model.specs.Record.{Record};
    ghost use Rattle.mq_state.specs.Buffers.{waiting_room};
    ghost use Rattle.mq.specs.Calls.{ticket_of};

    ghost Value = { Ticket Record };

    ghost view = { λ p. ticket_of L.ticket p.seat };

    ghost invariant = { λ p. IsSome p.seat ×
        (p.waits ≡ waiting_room (ticket_of L.ticket p.seat).left
        (ticket_of L.ticket p.seat).number) };
}

/// The process of a seat. `waits` is the buffer length that its open wait needs.
#[inline(always)]
pub(crate) fn process_of<L: Look<Guarded>>(seat: L::Seat, waits: Option<usize>) -> Process<L>
    requires { waits ≡ waiting_room (L.ticket seat).left (L.ticket seat).number }
    ensures { result ≡ L.ticket seat }
{
    Process {
        seat: Some(seat),
        waits,
    }
}

/// The seat of a process.
pub(crate) fn seat_of<L: Look<Guarded>>(process: Process<L>) -> L::Seat
    ensures { L.ticket result ≡ process }
{
    process.seat.unwrap()
}

impl<L: Look<Guarded>> Process<L> {
    ghost use Rattle.std.specs.Prelude.{◌≡◌, Some, None, IsSome, length, []};
    ghost use Rattle.mq_model.specs.declared.entries.Call.{Call};
    ghost use Rattle.mq_state.specs.Buffers.{waiting_room};
    ghost use Rattle.mq_state.specs.Requests.{Brings};
    ghost use Rattle.mq.specs.Kinds.{IsOf, IsCall, IsWaiting, IsOver};
    ghost use Rattle.mq.specs.Says.{open_says, done_says, attributes_says, notice_says};
    ghost use Rattle.mq.specs.Calls.{IsFree, OneCall, WaitsIn};

    /// The number of the process.
    pub fn number(&self) -> u32
        ensures { result ≡ self.now.number }
    {
        match &self.seat {
            Some(seat) => L::number(seat),
            None => unreachable!(),
        }
    }

    /// `None` if the process has no open wait. Otherwise the buffer length of the waiting receive,
    /// or 0 for a send. It does not access the lock.
    pub fn waiting(&self) -> Option<usize>
        ensures room { result ≡ waiting_room self.now.left self.now.number }
        ensures free { result ≡ None → IsFree self.now }
    {
        self.waits
    }

    /// The processes whose waits the last call of this process answered, as bits: bit p - 1 stands
    /// for process p. [`Departed::wake_others`](crate::departed::Departed::wake_others) wakes them,
    /// beside threads that wait for the lock. It is a hint: no contract says that it is right.
    pub fn answered_others(&self) -> u32 {
        match &self.seat {
            Some(seat) => L::answered_by(seat),
            None => unreachable!(),
        }
    }

    /// The futex word on which a thread outside Rattle sleeps until the open wait is answered (see
    /// [`Mq::futex_words`]).
    pub fn futex_word(&self) -> u32 {
        self.number().saturating_add(32)
    }

    /// Makes one call of any kind, in one critical section. `given` is the name or the message, or
    /// empty, and `buf` the buffer that a receive fills. The result and the errors are those of the
    /// method of the same name; sends and receives are as `start_send` and `start_receive`.
    #[inline(always)]
    pub fn make<R: Wait, A: Returned>(
        &mut self,
        rt: &R,
        mq: &Mq<L>,
        call: Call,
        given: &[u8],
        buf: &mut [u8],
    ) -> A
        requires made { self.old.lock ≡ mq.now }
        requires free { IsFree self.old }
        requires brings { Brings call given.now (length buf.old) }
        requires kind { IsOf A.kind call }
        ensures call { let kind = A.kind in
            IsCall kind.says self.old self.new call given.now buf.old buf.new result }
        ensures waits { let kind = A.kind in IsWaiting kind.waiting result → WaitsIn self.new call }
        ensures free { let kind = A.kind in IsOver kind.waiting result → IsFree self.new }
        ensures begun { IsSome (waiting_room self.new.left self.new.number) →
            WaitsIn self.new call }
    {
        in_one_stay!(self, rt, mq, |guard| guard.make(mq, call, given, buf))
    }

    /// Opens the queue of that name (`mq_open`) and returns the lowest free descriptor. Fails with
    /// `Exists`, `NoEntry`, `Invalid`, `TooManyOpen`, `NoSpace`, `NoMemory` or `JournalFull`.
    pub fn open<R: Wait>(
        &mut self,
        rt: &R,
        mq: &Mq<L>,
        name: &Name,
        flags: OpenFlags,
        attr: Option<Attr>,
    ) -> Result<u32, Fault>
        requires made { self.old.lock ≡ mq.now }
        requires free { IsFree self.old }
        ensures call { OneCall open_says self.old self.new
            (Call.MqOpen flags attr) name.now result }
        ensures free { IsFree self.new }
    {
        self.make(rt, mq, Call::MqOpen { flags, attr }, name.bytes(), &mut [])
    }

    /// Closes descriptor d (`mq_close`). Fails with `BadDescriptor`, `NoMemory` or `JournalFull`.
    pub fn close<R: Wait>(&mut self, rt: &R, mq: &Mq<L>, d: u32) -> Result<(), Fault>
        requires made { self.old.lock ≡ mq.now }
        requires free { IsFree self.old }
        ensures call { OneCall done_says self.old self.new (Call.MqClose d) [] result }
        ensures free { IsFree self.new }
    {
        self.make(rt, mq, Call::MqClose { d }, &[], &mut [])
    }

    /// Unbinds a name from its queue (`mq_unlink`). Fails with `NoEntry`, `NoMemory` or
    /// `JournalFull`.
    pub fn unlink<R: Wait>(&mut self, rt: &R, mq: &Mq<L>, name: &Name) -> Result<(), Fault>
        requires made { self.old.lock ≡ mq.now }
        requires free { IsFree self.old }
        ensures call { OneCall done_says self.old self.new (Call.MqUnlink) name.now result }
        ensures free { IsFree self.new }
    {
        self.make(rt, mq, Call::MqUnlink, name.bytes(), &mut [])
    }

    /// Registers the process on the queue of descriptor d, with the value of the notice, or removes
    /// its registration (`mq_notify`). Fails with `BadDescriptor`, `Busy`, `NoMemory` or
    /// `JournalFull`, and a removal also with `Invalid`.
    pub fn notify<R: Wait>(
        &mut self,
        rt: &R,
        mq: &Mq<L>,
        d: u32,
        value: Option<u64>,
    ) -> Result<(), Fault>
        requires made { self.old.lock ≡ mq.now }
        requires free { IsFree self.old }
        ensures call { OneCall done_says self.old self.new (Call.MqNotify d value) [] result }
        ensures free { IsFree self.new }
    {
        self.make(rt, mq, Call::MqNotify { d, value }, &[], &mut [])
    }

    /// The attributes of descriptor d (`mq_getattr`). Fails with `BadDescriptor`, `NoMemory` or
    /// `JournalFull`.
    pub fn getattr<R: Wait>(&mut self, rt: &R, mq: &Mq<L>, d: u32) -> Result<Status, Fault>
        requires made { self.old.lock ≡ mq.now }
        requires free { IsFree self.old }
        ensures call { OneCall attributes_says self.old self.new (Call.MqGetattr d) [] result }
        ensures free { IsFree self.new }
    {
        self.make(rt, mq, Call::MqGetattr { d }, &[], &mut [])
    }

    /// Sets the nonblocking flag of descriptor d and returns the attributes from before
    /// (`mq_setattr`). Only the field `nonblock` of `new` is used. Fails with `BadDescriptor`,
    /// `NoMemory` or `JournalFull`.
    pub fn setattr<R: Wait>(
        &mut self,
        rt: &R,
        mq: &Mq<L>,
        d: u32,
        new: Status,
    ) -> Result<Status, Fault>
        requires made { self.old.lock ≡ mq.now }
        requires free { IsFree self.old }
        ensures call { OneCall attributes_says self.old self.new
            (Call.MqSetattr d new.nonblock) [] result }
        ensures free { IsFree self.new }
    {
        let nonblock = new.nonblock;
        self.make(rt, mq, Call::MqSetattr { d, nonblock }, &[], &mut [])
    }

    /// Takes the oldest notice of the process and returns its value; `None` if there is none. Fails
    /// with `NoMemory` or `JournalFull`.
    pub fn next_notice<R: Wait>(&mut self, rt: &R, mq: &Mq<L>) -> Result<Option<u64>, Fault>
        requires made { self.old.lock ≡ mq.now }
        requires free { IsFree self.old }
        ensures call { OneCall notice_says self.old self.new Call.NextNotice [] result }
        ensures free { IsFree self.new }
    {
        self.make(rt, mq, Call::NextNotice, &[], &mut [])
    }
}

// Acquires the lock with the seat of a process, waiting while another process holds it.
#[inline(always)]
fn arrive<L: Look<Guarded>, R: Wait>(
    rt: &R,
    mq: &Mq<L>,
    seat: &mut Option<L::Seat>,
    waits: Option<usize>,
) -> Guard<L>
    requires some { IsSome seat.old }
    requires made { (ticket_of L.ticket seat.old).lock ≡ mq.now }
    requires waits { waits ≡ waiting_room (ticket_of L.ticket seat.old).left
        (ticket_of L.ticket seat.old).number }
    ensures { result.process ≡ ticket_of L.ticket seat.old }
{
    let process = process_of(seat.take().unwrap(), waits);
    process.acquisition(mq).come_in(rt, mq)
}
