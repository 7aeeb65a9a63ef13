//! The queues of one thread, with the journal of the calls made on them.
//!
//! Each call is made by a caller p from 1 to n that has no open wait: a process, or another thread of
//! one. It appends exactly one entry, the call with the reply that the definitions give, and
//! returns that reply. A call that replies `Refused(NoMemory)` or `Refused(JournalFull)` has no
//! entry and changes nothing. `NoMemory` means that memory was refused, and never occurs with
//! bounds. `JournalFull` occurs if and only if there are bounds and the call finds the journal full.
ghost use Rattle.std.specs.Prelude.{◌≡◌, ◌≢◌, ◌<◌, ◌≤◌, ◌+◌, ◌-◌, ◌*◌, OnOk, OnErr, IfOk, IfErr, IfSome, IsSome, IsTrue, ◌↔◌, Some, None, length, [], All, true, false, ◌&&◌, is_none};
ghost use Rattle.mq_model.specs.Deadlines.{is_over};
ghost use Rattle.mq_model.specs.Waits.{open_wait, wait_deadline, answered_by, is_answered};
ghost use Rattle.mq_model.specs.Descriptors.{lowest_held};
ghost use Rattle.mq_model.specs.Legality.{Appends, Legal, may_call};
ghost use Rattle.mq_state.specs.Buffers.{filled, collected, collected_into, collected_by, into_by, waiting_call, waiting_room, room_of, FitsOutcome, received_by};
ghost use Rattle.mq_ledger.specs.Ledgers.{CanRead};
ghost use Rattle.mq_state.specs.Kept.{AreThoseOf, IsKeptBy, IsMade, IsWhole, HasNotices, HasRoomWithin};
ghost use Rattle.mq_state.specs.Pool.{IsPooled};
ghost use Rattle.mq_state.specs.Requests.{Brings};
ghost use Rattle.mq_state.specs.Room.{NobodyCanCall, room_left};
ghost use Rattle.mq_model.specs.Messages.{is_send, is_receive};
ghost use Rattle.mq_state.specs.Replays.{IsMisfit, is_too_long};

use crate::buffers;
use crate::collected::{Answer, Collected};
use crate::prefixes::Prefix;
use crate::replay::{Misfit, follow_all};
use crate::rewriting::{Unwritten, rewrite};
use crate::tables::Tables;
use mq_ledger::history::History;
use mq_ledger::ledger::Ledger;
use mq_ledger::unstored::Unstored;
use mq_model::bounds::Bounds;
use mq_model::entries::{Attr, Call, Deadline, OpenFlags, Reply, Status};
use mq_model::faults::Fault;
use mq_model::journals::Journal;
use mq_model::names::Name;
use std::alloc::{AllocError, Global};
use std::marker::Model;

/// The queues of one thread. The value is one word, so it is cheap to hand over, as a lock does.
#[derive(Drop)]
pub struct Books {
    inner: Box<Inner>,
}

/// The queues cannot continue from this journal. It comes back unchanged, with the cause.
#[derive(Debug, Drop)]
pub struct Refused {
    pub journal: Journal,
    pub why: Misfit,
}

/// The inner state of a `Books`.
#[derive(Drop)]
struct Inner {
    journal: Ledger,
    tables: Tables,
}

impl Model for Books {
    ghost use Rattle.mq_state.specs.Kept.{Kept};

    ghost Value = { Kept };

    ghost use Rattle.mq_state.specs.BooksModel.{kept, IsKept};

    ghost view = { kept };

    ghost invariant = { IsKept };
}

impl Books {
    fn start(alloc: Global, n: u32, bounds: Option<Bounds>) -> Result<Books, AllocError>
        requires { (1 ≤ n) × (n ≤ 32) }
        ensures empty { IfOk result (λ b. b.records ≡ []) }
        ensures processes { IfOk result (λ b. b.n ≡ n) }
        ensures bounds { IfOk result (λ b. b.bounds ≡ bounds) }
        ensures stored { IfOk result (λ b. b.stored ≡ true) }
    {
        let inner = Inner {
            journal: Ledger::stored(empty_journal(alloc, bounds)?),
            tables: Tables::new(alloc, n, bounds, false)?,
        };
        Ok(Books {
            inner: Box::new(alloc, inner)?,
        })
    }

    fn start_unstored(alloc: Global, n: u32, is_prepaid: bool) -> Result<Books, AllocError>
        requires { (1 ≤ n) × (n ≤ 32) }
        ensures empty { IfOk result (λ b. b.records ≡ []) }
        ensures processes { IfOk result (λ b. b.n ≡ n) }
        ensures bounds { IfOk result (λ b. b.bounds ≡ None) }
        ensures stored { IfOk result (λ b. b.stored ≡ false) }
    {
        let inner = Inner {
            journal: Ledger::unstored(Unstored::new(alloc)),
            tables: Tables::new(alloc, n, None, is_prepaid)?,
        };
        Ok(Books {
            inner: Box::new(alloc, inner)?,
        })
    }

    /// The queues of n processes: there are none yet, and the journal is empty.
    pub fn new(alloc: Global, n: u32) -> Result<Books, AllocError>
        requires { (1 ≤ n) × (n ≤ 32) }
        ensures empty { IfOk result (λ b. b.records ≡ []) }
        ensures processes { IfOk result (λ b. b.n ≡ n) }
        ensures bounds { IfOk result (λ b. b.bounds ≡ None) }
        ensures stored { IfOk result (λ b. b.stored ≡ true) }
    {
        Books::start(alloc, n, None)
    }

    /// The queues of n processes, with a journal of at most `entries` entries and `bytes` payload
    /// bytes, those of names and messages. It takes all the memory that later calls need. Fails if
    /// memory was refused.
    pub fn bounded(alloc: Global, n: u32, entries: u64, bytes: u64) -> Result<Books, AllocError>
        requires { (1 ≤ n) × (n ≤ 32) }
        ensures empty { IfOk result (λ b. b.records ≡ []) }
        ensures processes { IfOk result (λ b. b.n ≡ n) }
        ensures bounds { IfOk result (λ b.
            b.bounds ≡ Some (record { entries = entries; bytes = bytes })) }
        ensures stored { IfOk result (λ b. b.stored ≡ true) }
    {
        Books::start(alloc, n, Some(Bounds { entries, bytes }))
    }

    /// The queues of n processes whose journal is a history variable: contracts speak of it, and no
    /// byte of it is stored. It keeps only what later replies depend on, and uses that memory
    /// again: the names of the queues that exist, and the messages that are present, wait to be
    /// accepted, or were handed over and not yet collected. It has no bounds.
    pub fn unstored(alloc: Global, n: u32) -> Result<Books, AllocError>
        requires { (1 ≤ n) × (n ≤ 32) }
        ensures empty { IfOk result (λ b. b.records ≡ []) }
        ensures processes { IfOk result (λ b. b.n ≡ n) }
        ensures bounds { IfOk result (λ b. b.bounds ≡ None) }
        ensures stored { IfOk result (λ b. b.stored ≡ false) }
    {
        Books::start_unstored(alloc, n, false)
    }

    /// The same, but an open that creates a queue also takes the memory that later calls on it
    /// need: for as many messages of the greatest size as the queue can hold, for one more for each
    /// process, which waits to send or to collect it, and for notices. The open replies
    /// `Refused(NoMemory)` if that is refused. Then no send, receive, notify, collect or withdraw
    /// takes memory. Tests show this; no contract says it.
    pub fn prepaid(alloc: Global, n: u32) -> Result<Books, AllocError>
        requires { (1 ≤ n) × (n ≤ 32) }
        ensures empty { IfOk result (λ b. b.records ≡ []) }
        ensures processes { IfOk result (λ b. b.n ≡ n) }
        ensures bounds { IfOk result (λ b. b.bounds ≡ None) }
        ensures stored { IfOk result (λ b. b.stored ≡ false) }
    {
        Books::start_unstored(alloc, n, true)
    }

    /// The queues of n processes after the calls of a journal. Later calls extend it, as if its
    /// calls had been made here. Fails if the journal is not legal, if it has an entry of a process
    /// above n, or if memory was refused. Then the journal comes back.
    pub fn resume(alloc: Global, n: u32, journal: Journal) -> Result<Books, Refused>
        requires { (1 ≤ n) × (n ≤ 32) }
        ensures records { IfOk result (λ b. b.records ≡ journal.records) }
        ensures processes { IfOk result (λ b. b.n ≡ n) }
        ensures bounds { IfOk result (λ b. b.bounds ≡ None) }
        ensures stored { IfOk result (λ b. b.stored ≡ true) }
        ensures back { IfErr result (λ r. r.journal.records ≡ journal.records) }
        ensures why { IfErr result (λ r. IsMisfit journal.records n None r.why) }
    {
        Books::resume_within(alloc, n, None, journal)
    }

    /// The same with bounds, if there are any. They hold for the whole journal: its entries, those
    /// that end its open waits, and those of later calls. It also fails if the journal is too long
    /// for the bounds. It takes all the memory that later calls need within the bounds.
    pub fn resume_within(
        alloc: Global,
        n: u32,
        bounds: Option<Bounds>,
        journal: Journal,
    ) -> Result<Books, Refused>
        requires { (1 ≤ n) × (n ≤ 32) }
        ensures records { IfOk result (λ b. b.records ≡ journal.records) }
        ensures processes { IfOk result (λ b. b.n ≡ n) }
        ensures bounds { IfOk result (λ b. b.bounds ≡ bounds) }
        ensures stored { IfOk result (λ b. b.stored ≡ true) }
        ensures within { IfOk result (λ b. is_too_long bounds journal.records ≡ false) }
        ensures back { IfErr result (λ r. r.journal.records ≡ journal.records) }
        ensures why { IfErr result (λ r. IsMisfit journal.records n bounds r.why) }
    {
        let Ok(inner) = empty_inner(alloc, n, bounds) else {
            return Err(Refused {
                journal,
                why: Misfit::NoMemory,
            });
        };
        match restock(inner, journal) {
            Ok(inner) => Ok(Books { inner }),
            Err(refused) => Err(refused),
        }
    }

    /// The queues of n processes of t threads each, with a stored journal without bounds. The first
    /// thread of process o is caller o, and the others are the callers o + 32, o + 64, .. They share
    /// the descriptors, registrations and notices of the process, and each of them can wait. Fails
    /// if memory was refused.
    pub fn threads(alloc: Global, n: u32, t: u32) -> Result<Books, AllocError>
        requires processes { (1 ≤ n) × (n ≤ 32) }
        requires threads { (1 ≤ t) × (t ≤ 64) }
        ensures empty { IfOk result (λ b. b.records ≡ []) }
        ensures callers { IfOk result (λ b. b.n ≡ n + 32 * (t - 1)) }
        ensures bounds { IfOk result (λ b. b.bounds ≡ None) }
        ensures stored { IfOk result (λ b. b.stored ≡ true) }
    {
        let mut books = Books::new(alloc, n)?;
        books.raise(n + 32 * (t - 1))?;
        Ok(books)
    }

    /// Lets the callers up to n make calls, if they could not: the callers to n + 32 * (t - 1) are
    /// those of n processes of t threads. If it fails, memory was refused, and nothing changes.
    pub fn raise(&mut self, n: u32) -> Result<(), AllocError>
        requires { n ≤ 2048 }
        ensures records { self.new.records ≡ self.old.records }
        ensures more { self.old.n ≤ self.new.n }
        ensures enough { OnOk result (n ≤ self.new.n) }
        ensures exact { OnOk result (self.old.n ≤ n → self.new.n ≡ n) }
        ensures err { OnErr result (self.new ≡ self.old) }
        ensures bounds { self.new.bounds ≡ self.old.bounds }
        ensures byte_room { self.new.byte_room ≡ self.old.byte_room }
        ensures stored { self.new.stored ≡ self.old.stored }
    {
        self.inner.tables.raise(n)
    }

    /// Makes a call of process p, of any kind. `given` is its name or its message, or empty, and
    /// `buf` the buffer that a receive fills. The reply is that of the method of the same name
    /// below, with the length and the priority of the message that a receive got. A wait is ended
    /// by [`collect`](Books::collect) or [`withdraw`](Books::withdraw).
    pub fn ask(&mut self, p: u32, call: Call, given: &[u8], buf: &mut [u8]) -> Answer
        requires process { (1 ≤ p) × (p ≤ self.old.n) }
        requires no_wait { open_wait self.old.records p ≡ None }
        requires brings { Brings call given.now (length buf.old) }
        ensures made { IsMade self.old self.new p call given.now result.reply }
        ensures received { result.received ≡ received_by self.old.records result.reply }
        ensures buffer { is_receive call ≡ true →
            buf.new ≡ filled self.old.records result.reply buf.old }
        ensures refused { is_send call ≡ true → (fault : Fault) →
            result.reply ≡ Reply.Refused fault → fault ≢ Fault.NoMemory →
            self.new.byte_room ≡ self.old.byte_room }
    {
        let Inner { journal, tables } = &mut *self.inner;
        tables.make(journal, p, call, given, buf)
    }

    /// The same, and returns only the reply.
    pub fn make(&mut self, p: u32, call: Call, given: &[u8], buf: &mut [u8]) -> Reply
        requires process { (1 ≤ p) × (p ≤ self.old.n) }
        requires no_wait { open_wait self.old.records p ≡ None }
        requires brings { Brings call given.now (length buf.old) }
        ensures made { IsMade self.old self.new p call given.now result }
        ensures buffer { is_receive call ≡ true → buf.new ≡ filled self.old.records result buf.old }
        ensures refused { is_send call ≡ true → (fault : Fault) → result ≡ Reply.Refused fault →
            fault ≢ Fault.NoMemory → self.new.byte_room ≡ self.old.byte_room }
    {
        self.ask(p, call, given, buf).reply
    }

    /// Opens a queue by its name (`mq_open`). Replies `Opened`, or fails with `Exists`, `NoEntry`,
    /// `Invalid`, `TooManyOpen` or `NoSpace`.
    pub fn open(&mut self, p: u32, name: &Name, flags: OpenFlags, attr: Option<Attr>) -> Reply
        requires process { (1 ≤ p) × (p ≤ self.old.n) }
        requires no_wait { open_wait self.old.records p ≡ None }
        ensures { IsMade self.old self.new p (Call.MqOpen flags attr) name.now result }
    {
        self.make(p, Call::MqOpen { flags, attr }, name.bytes(), &mut [])
    }

    /// Closes descriptor d (`mq_close`). Replies `Done`, or fails with `BadDescriptor`.
    pub fn close(&mut self, p: u32, d: u32) -> Reply
        requires process { (1 ≤ p) × (p ≤ self.old.n) }
        requires no_wait { open_wait self.old.records p ≡ None }
        ensures { IsMade self.old self.new p (Call.MqClose d) [] result }
    {
        self.make(p, Call::MqClose { d }, &[], &mut [])
    }

    /// Unlinks a name (`mq_unlink`). Replies `Done`, or fails with `NoEntry`.
    pub fn unlink(&mut self, p: u32, name: &Name) -> Reply
        requires process { (1 ≤ p) × (p ≤ self.old.n) }
        requires no_wait { open_wait self.old.records p ≡ None }
        ensures { IsMade self.old self.new p Call.MqUnlink name.now result }
    {
        self.make(p, Call::MqUnlink, name.bytes(), &mut [])
    }

    /// The attributes of descriptor d (`mq_getattr`). Replies `Attrs`, or fails with
    /// `BadDescriptor`.
    pub fn getattr(&mut self, p: u32, d: u32) -> Reply
        requires process { (1 ≤ p) × (p ≤ self.old.n) }
        requires no_wait { open_wait self.old.records p ≡ None }
        ensures { IsMade self.old self.new p (Call.MqGetattr d) [] result }
    {
        self.make(p, Call::MqGetattr { d }, &[], &mut [])
    }

    /// Sets the nonblocking flag of descriptor d (`mq_setattr`). Only the field `nonblock` of `new`
    /// is used. Replies with the `Attrs` from before, or fails with `BadDescriptor`.
    pub fn setattr(&mut self, p: u32, d: u32, new: Status) -> Reply
        requires process { (1 ≤ p) × (p ≤ self.old.n) }
        requires no_wait { open_wait self.old.records p ≡ None }
        ensures { IsMade self.old self.new p (Call.MqSetattr d new.nonblock) [] result }
    {
        let nonblock = new.nonblock;
        self.make(p, Call::MqSetattr { d, nonblock }, &[], &mut [])
    }

    /// Registers process p on the queue of descriptor d, with the value of its notice, or removes
    /// its registration (`mq_notify`). Replies `Done`, or fails with `BadDescriptor` or `Busy`, and
    /// a removal with `Invalid`.
    pub fn notify(&mut self, p: u32, d: u32, value: Option<u64>) -> Reply
        requires process { (1 ≤ p) × (p ≤ self.old.n) }
        requires no_wait { open_wait self.old.records p ≡ None }
        ensures { IsMade self.old self.new p (Call.MqNotify d value) [] result }
    {
        self.make(p, Call::MqNotify { d, value }, &[], &mut [])
    }

    /// Takes the oldest notice of process p. Replies `Notice`.
    pub fn next_notice(&mut self, p: u32) -> Reply
        requires process { (1 ≤ p) × (p ≤ self.old.n) }
        requires no_wait { open_wait self.old.records p ≡ None }
        ensures { IsMade self.old self.new p Call.NextNotice [] result }
    {
        self.make(p, Call::NextNotice, &[], &mut [])
    }

    /// Sends a message to the queue of descriptor d (`mq_send`). Replies `Queued`, `Handed` or
    /// `Waits`, or fails with `BadDescriptor`, `Invalid`, `MessageSize` or `Again`. A send that
    /// fails takes no room for the bytes of its message.
    #[inline(always)]
    pub fn ask_send(&mut self, p: u32, d: u32, bytes: &[u8], prio: u32) -> Answer
        requires process { (1 ≤ p) × (p ≤ self.old.n) }
        requires no_wait { open_wait self.old.records p ≡ None }
        ensures made { IsMade self.old self.new p
            (Call.MqSend d prio (length bytes.now)) bytes.now result.reply }
        ensures received { result.received ≡ received_by self.old.records result.reply }
        ensures refused { (fault : Fault) → result.reply ≡ Reply.Refused fault →
            fault ≢ Fault.NoMemory → self.new.byte_room ≡ self.old.byte_room }
    {
        let Inner { journal, tables } = &mut *self.inner;
        tables.send(journal, p, d, bytes, prio)
    }

    /// The same, and returns only the reply.
    pub fn send(&mut self, p: u32, d: u32, bytes: &[u8], prio: u32) -> Reply
        requires process { (1 ≤ p) × (p ≤ self.old.n) }
        requires no_wait { open_wait self.old.records p ≡ None }
        ensures made { IsMade self.old self.new p
            (Call.MqSend d prio (length bytes.now)) bytes.now result }
        ensures refused { (fault : Fault) → result ≡ Reply.Refused fault → fault ≢ Fault.NoMemory →
            self.new.byte_room ≡ self.old.byte_room }
    {
        self.ask_send(p, d, bytes, prio).reply
    }

    /// Receives a message from the queue of descriptor d (`mq_receive`). Replies `Got`, with the
    /// message at the start of the buffer, or `Waits`; or fails with `BadDescriptor`, `MessageSize`
    /// or `Again`.
    #[inline(always)]
    pub fn ask_receive(&mut self, p: u32, d: u32, buf: &mut [u8]) -> Answer
        requires process { (1 ≤ p) × (p ≤ self.old.n) }
        requires no_wait { open_wait self.old.records p ≡ None }
        ensures made { IsMade self.old self.new p
            (Call.MqReceive d (length buf.old)) [] result.reply }
        ensures received { result.received ≡ received_by self.old.records result.reply }
        ensures buffer { buf.new ≡ filled self.old.records result.reply buf.old }
    {
        let Inner { journal, tables } = &mut *self.inner;
        tables.receive(journal, p, d, buf)
    }

    /// The same, and returns only the reply.
    pub fn receive(&mut self, p: u32, d: u32, buf: &mut [u8]) -> Reply
        requires process { (1 ≤ p) × (p ≤ self.old.n) }
        requires no_wait { open_wait self.old.records p ≡ None }
        ensures made { IsMade self.old self.new p (Call.MqReceive d (length buf.old)) [] result }
        ensures buffer { buf.new ≡ filled self.old.records result buf.old }
    {
        self.ask_receive(p, d, buf).reply
    }

    /// Sends a message to the queue of descriptor d (`mq_timedsend`). The call is made at the time
    /// `now` and may wait until the time `until`. Replies and fails as [`send`](Books::send). If
    /// that would wait, it also fails with `Invalid` if the nanoseconds of `until` are out of
    /// range, and with `TimedOut` if `until` is `now` or earlier.
    pub fn timed_send(
        &mut self,
        p: u32,
        d: u32,
        bytes: &[u8],
        prio: u32,
        until: Deadline,
        now: Deadline,
    ) -> Reply
        requires process { (1 ≤ p) × (p ≤ self.old.n) }
        requires no_wait { open_wait self.old.records p ≡ None }
        ensures made { IsMade self.old self.new p (Call.MqTimedSend d prio
            (length bytes.now) until now) bytes.now result }
        ensures refused { (fault : Fault) → result ≡ Reply.Refused fault → fault ≢ Fault.NoMemory →
            self.new.byte_room ≡ self.old.byte_room }
    {
        let call = Call::MqTimedSend {
            d,
            prio,
            len: bytes.len() as u64,
            until,
            now,
        };
        self.make(p, call, bytes, &mut [])
    }

    /// Receives a message from the queue of descriptor d (`mq_timedreceive`). The call is made at
    /// the time `now` and may wait until the time `until`. Replies and fails as
    /// [`receive`](Books::receive). If that would wait, it also fails with `Invalid` if the
    /// nanoseconds of `until` are out of range, and with `TimedOut` if `until` is `now` or earlier.
    pub fn timed_receive(
        &mut self,
        p: u32,
        d: u32,
        buf: &mut [u8],
        until: Deadline,
        now: Deadline,
    ) -> Reply
        requires process { (1 ≤ p) × (p ≤ self.old.n) }
        requires no_wait { open_wait self.old.records p ≡ None }
        ensures made { IsMade self.old self.new p (Call.MqTimedReceive d
            (length buf.old) until now) [] result }
        ensures buffer { buf.new ≡ filled self.old.records result buf.old }
    {
        let call = Call::MqTimedReceive {
            d,
            room: buf.len() as u64,
            until,
            now,
        };
        self.make(p, call, &[], buf)
    }

    /// `None` if process p has no open wait. Otherwise the buffer length of the waiting receive, or
    /// 0 for a send.
    pub fn waiting(&self, p: u32) -> Option<usize>
        ensures { result ≡ waiting_room self.now.records p }
    {
        let Inner { journal, tables } = &*self.inner;
        match tables.wait(p) {
            None => None,
            Some(_) => Some(room_of(waiting_call(journal, tables, p))),
        }
    }

    /// Whether process p has an open wait that a later entry answers.
    pub fn answered(&self, p: u32) -> bool
        ensures { result ≡ is_answered self.now.records p }
    {
        self.inner.tables.answer(p).is_some()
    }

    /// Ends the open wait of process p if it is answered, and returns its outcome. A received
    /// message is at the start of the buffer. Takes no memory.
    pub fn collect(&mut self, p: u32, buf: &mut [u8]) -> Option<Collected>
        requires process { (1 ≤ p) × (p ≤ self.old.n) }
        requires wait { IsSome (open_wait self.old.records p) }
        requires room { room_of (waiting_call self.old.records p) ≤ length buf.old }
        ensures some { IsSome result ↔ IsSome (answered_by self.old.records p) }
        ensures value { result ≡ collected self.old.records p }
        ensures entry { IfSome (answered_by self.old.records p) (λ by.
            Appends self.old.records self.new.records p Call.Collect [] (Reply.Collected by)) }
        ensures none { result ≡ None → self.new ≡ self.old }
        ensures buffer { buf.new ≡ collected_into self.old.records p buf.old }
        ensures processes { self.new.n ≡ self.old.n }
        ensures bounds { self.new.bounds ≡ self.old.bounds }
        ensures stored { self.new.stored ≡ self.old.stored }
    {
        let Inner { journal, tables } = &mut *self.inner;
        let by = tables.answer(p)?;
        let call = waiting_call(journal, tables, p);
        let outcome = outcome(journal, call, by, buf);
        tables.end_wait(journal, p, Call::Collect);
        Some(outcome)
    }

    /// Ends the open wait of process p without an answer, and returns true, if a timed call began
    /// it, no entry answers it, and its deadline has passed at the time `now`. Otherwise it returns
    /// false and changes nothing. Takes no memory.
    pub fn withdraw(&mut self, p: u32, now: Deadline) -> bool
        requires process { (1 ≤ p) × (p ≤ self.old.n) }
        ensures value { result ≡ (is_none (answered_by self.old.records p) && is_over
            (wait_deadline self.old.records p) now) }
        ensures entry { IsTrue result →
            IfSome (open_wait self.old.records p) (λ wait.
            Appends self.old.records self.new.records p (Call.Withdraw now) []
            (Reply.Withdrawn wait)) }
        ensures waited { IsTrue result → IsSome (open_wait self.old.records p) }
        ensures none { result ≡ false → self.new ≡ self.old }
        ensures processes { self.new.n ≡ self.old.n }
        ensures bounds { self.new.bounds ≡ self.old.bounds }
        ensures stored { self.new.stored ≡ self.old.stored }
    {
        let Inner { journal, tables } = &mut *self.inner;
        let call = Call::Withdraw { now };
        if !may_withdraw(journal, tables, p, call) {
            return false;
        }
        tables.end_wait(journal, p, call);
        true
    }

    /// The lowest descriptor that process p holds.
    pub fn lowest_open(&self, p: u32) -> Option<u32>
        ensures { result ≡ lowest_held self.now.records p }
    {
        self.inner.tables.lowest_open(p)
    }

    /// Whether no process can make any call, at whatever time: each either has an open wait,
    /// without a deadline and not answered, or finds the journal full. Then no process ever can.
    pub fn nobody_can_call(&self) -> bool
        ensures { IsTrue result ↔ NobodyCanCall self.now.bounds self.now.records self.now.n }
    {
        let Inner { journal, tables } = &*self.inner;
        tables.nobody_can_call(journal)
    }

    /// The number of entries and of payload bytes for which the journal still has room; `None`
    /// without bounds. Room that is kept for the ends of open waits does not count.
    pub fn room(&self) -> Option<Bounds>
        ensures { result ≡ room_left self.now.bounds self.now.records }
    {
        let Inner { journal, tables } = &*self.inner;
        tables.room(journal)
    }

    /// The number of entries in the journal, stored or not.
    pub fn journal_len(&self) -> u64
        ensures count { result ≡ length self.now.records }
        ensures legal { Legal self.now.records }
        ensures processes { All (λ r. r.entry.process ≤ self.now.n) self.now.records }
    {
        self.inner.journal.len()
    }

    /// Whether the journal is stored.
    pub fn is_stored(&self) -> bool
        ensures { result ≡ self.now.stored }
    {
        self.inner.journal.is_stored()
    }

    /// The stored journal.
    pub fn journal(&self) -> &Journal
        requires { self.now.stored ≡ true }
        ensures value { result.now.records ≡ self.now.records }
        ensures legal { Legal result.now.records }
        ensures processes { All (λ r. r.entry.process ≤ self.now.n) result.now.records }
    {
        self.inner.journal.journal()
    }

    /// A short journal that leads to the same state of the queues, up to the numbers of entries and
    /// queues. Its length depends on what exists now, not on how many calls were made. Fails with
    /// `Answered` if a process has not yet collected a wait that is answered.
    pub fn rewritten(&self, alloc: Global) -> Result<Journal, Unwritten>
        requires { self.now.stored ≡ true }
        ensures { IfOk result (λ journal. Legal journal.records) }
    {
        let Inner { journal, tables } = &*self.inner;
        rewrite(alloc, journal.journal(), tables)
    }

    /// The number of processes.
    pub fn processes(&self) -> u32
        ensures { result ≡ self.now.n }
    {
        self.inner.tables.processes()
    }

    /// Drops the queues and returns the stored journal.
    pub fn into_journal(self) -> Journal
        requires { self.stored ≡ true }
        ensures value { result.records ≡ self.records }
        ensures legal { Legal result.records }
        ensures processes { All (λ r. r.entry.process ≤ self.n) result.records }
    {
        Box::into_inner(self.inner).journal.into_journal()
    }

    /// Drops the queues and returns the history of a journal that is not stored. It has no bytes;
    /// contracts say what it is.
    pub fn into_history(self) -> History
        requires { self.stored ≡ false }
        ensures value { result.past ≡ self.records }
        ensures legal { Legal result.past }
        ensures processes { All (λ r. r.entry.process ≤ self.n) result.past }
    {
        Box::into_inner(self.inner).journal.into_history()
    }
}

// The queues of n processes before any call. There is no room in their journal yet.
fn empty_inner(alloc: Global, n: u32, bounds: Option<Bounds>) -> Result<Box<Inner>, AllocError>
    requires { (1 ≤ n) × (n ≤ 32) }
    ensures tables { IfOk result (λ s. AreThoseOf [] s.value.tables) }
    ensures pool { IfOk result (λ s. IsPooled None s.value.tables) }
    ensures notices { IfOk result (λ s. HasNotices bounds 0 n s.value.tables.inboxes.items) }
    ensures processes { IfOk result (λ s. s.value.tables.n ≡ n) }
    ensures bounds { IfOk result (λ s. s.value.tables.bounds ≡ bounds) }
{
    let inner = Inner {
        journal: Ledger::stored(Journal::new(alloc)),
        tables: Tables::new(alloc, n, bounds, false)?,
    };
    Ok(Box::new(alloc, inner)?)
}

// The same after the calls of a journal.
fn restock(mut inner: Box<Inner>, mut journal: Journal) -> Result<Box<Inner>, Refused>
    requires tables { AreThoseOf [] inner.value.tables }
    requires pool { IsPooled None inner.value.tables }
    requires notices { HasNotices inner.value.tables.bounds 0 inner.value.tables.n
        inner.value.tables.inboxes.items }
    ensures whole { IfOk result (λ s. IsWhole s.value.journal s.value.tables) }
    ensures records { IfOk result (λ s. s.value.journal.records ≡ journal.records) }
    ensures processes { IfOk result (λ s. s.value.tables.n ≡ inner.value.tables.n) }
    ensures bounds { IfOk result (λ s. s.value.tables.bounds ≡ inner.value.tables.bounds) }
    ensures stored { IfOk result (λ s. s.value.journal.stored ≡ true) }
    ensures within { IfOk result (λ s.
        is_too_long inner.value.tables.bounds journal.records ≡ false) }
    ensures back { IfErr result (λ r. r.journal.records ≡ journal.records) }
    ensures why { IfErr result (λ r. IsMisfit journal.records inner.value.tables.n
        inner.value.tables.bounds r.why) }
{
    if let Err(why) = follow_all(&mut inner.tables, &journal) {
        return Err(Refused { journal, why });
    }
    let Some((entries, bytes)) = inner.tables.room_to_go_on(&journal) else {
        return Err(Refused {
            journal,
            why: Misfit::TooLong,
        });
    };
    if journal.reserve(entries, bytes).is_err() {
        return Err(Refused {
            journal,
            why: Misfit::NoMemory,
        });
    }
    inner.journal = Ledger::stored(journal);
    Ok(inner)
}

// An empty journal, with room for everything that the bounds allow.
fn empty_journal(alloc: Global, bounds: Option<Bounds>) -> Result<Journal, AllocError>
    ensures empty { IfOk result (λ j. j.records ≡ []) }
    ensures room { IfOk result (λ j. HasRoomWithin bounds (record {
      records = j.records;
      entry_room = j.entry_room;
      byte_room = j.byte_room;
      stored = true;
      places = [];
    })) }
{
    match bounds {
        None => Ok(Journal::new(alloc)),
        Some(b) => Journal::with_room(alloc, b.entries as usize, b.bytes as usize),
    }
}

// Whether process p may withdraw its wait by this call.
fn may_withdraw(journal: &Ledger, tables: &Tables, p: u32, call: Call) -> bool
    requires { IsKeptBy journal.now tables.now }
    ensures { result ≡ may_call journal.now.records p call }
{
    tables.may_call(&Prefix::whole(journal), p, call)
}

fn room_of(call: Call) -> usize
    ensures { result ≡ room_of call }
{
    match call {
        Call::MqReceive { d: _, room } => room as usize,
        Call::MqTimedReceive {
            d: _,
            room,
            until: _,
            now: _,
        } => room as usize,
        _ => 0,
    }
}

fn waiting_call(journal: &Ledger, tables: &Tables, p: u32) -> Call
    requires { IsKeptBy journal.now tables.now }
    ensures { result ≡ waiting_call journal.now.records p }
{
    match tables.wait(p) {
        None => Call::Collect,
        Some(_) => tables.waiting_call(p),
    }
}

// The outcome of a wait in this call, given that the entry with sequence number `by` answers it.
fn outcome(journal: &Ledger, call: Call, by: u64, buf: &mut [u8]) -> Collected
    requires readable { is_receive call ≡ true → CanRead journal.now by }
    requires room { FitsOutcome journal.now.records call by (length buf.old) }
    ensures value { Some result ≡ collected_by journal.now.records call (Some by) }
    ensures buffer { buf.new ≡ into_by journal.now.records call (Some by) buf.old }
{
    if !call.is_receive() {
        return Collected::Sent;
    }
    Collected::Got(buffers::put_message(journal, by, buf))
}
