//! The calls. Each makes room, works out its reply, and appends its entry, for which it updates the
//! tables.
ghost use Rattle.std.specs.Prelude.{◌≡◌, ◌<◌, ◌≤◌, ◌+◌, ◌^◌, IfOk, OnOk, OnErr, Err, IsTrue, Some, None, true, false, ℕ, length, [], ◌∷◌, vec_len, vec_capacity, slice_index_or};
ghost use Rattle.mq_model.specs.Names.{creates};
ghost use Rattle.mq_model.specs.Threads.{owner_of};
ghost use Rattle.mq_model.specs.Legality.{Appends, reply_to, may_call, is_payload, payload_of, IsLegalNext};
ghost use Rattle.std.specs.Option.{option_map};
ghost use Rattle.mq_model.specs.Callers.{waits_count, answer_in, wait_in};
ghost use Rattle.mq_model.specs.Owners.{lowest_held_in};
ghost use Rattle.mq_model.specs.Messages.{is_send, is_receive};
ghost use Rattle.mq_model.specs.CallersNoted.{noted_waits};
ghost use Rattle.mq_state.specs.Buffers.{filled, received_by};
ghost use Rattle.mq_state.specs.Tables.{entry_queue, HasRoomToRegister, BringsOrder, CreatesWithin};
ghost use Rattle.mq_model.specs.Record.{payload_bytes};
ghost use Rattle.mq_model.specs.Bounds.{open_waits, exceeds, entries_needed, bytes_needed};
ghost use Rattle.mq_state.specs.Inboxes.{room_in};
ghost use Rattle.mq_state.specs.Pool.{IsPooled};
ghost use Rattle.mq_ledger.specs.Ledgers.{IsReadable};
ghost use Rattle.mq_state.specs.Kept.{AreThoseOf, SaysSame, IsKeptBy, HasEntryRoom, MayCall, IsCalled, IsRoomRefused, SparesBytes};
ghost use Rattle.mq_state.specs.Requests.{Brings};
ghost use Rattle.mq_state.specs.Room.{ends_wait};

use crate::collected::Answer;
use crate::prefixes::Prefix;
use crate::tables::facts::by_deadline;
use crate::tables::{Tables, queue_of, waiting};
use crate::{buffers, moves, notices, queues};
use mq_ledger::ledger::Ledger;
use mq_model::entries::{Call, Entry, Reply};
use mq_model::faults::Fault;
use mq_model::{bounds, callers, error_order, owners};
use mq_slots::Slots;
use std::alloc::{AllocError, Global};

// The payload of a call with these bytes.
#[inline]
pub(crate) fn payload_of(call: Call, reply: Reply, given: &[u8]) -> &[u8]
    ensures value { result.now ≡ payload_of call reply given.now }
    ensures bound { length result.now ≤ length given.now }
{
    match call {
        Call::MqOpen { .. } | Call::MqUnlink => given,
        Call::MqSend { .. } | Call::MqTimedSend { .. } => match reply {
            Reply::Refused(_) => &[],
            _ => given,
        },
        _ => &[],
    }
}

// The number of entries that a call needs room for: its own, and if the call may wait, also the one
// that ends the wait.
#[inline(always)]
fn entries_needed(call: Call) -> usize
    ensures value { result ≡ entries_needed call }
    ensures few { result ≤ 2 }
{
    match call {
        Call::MqSend { .. }
        | Call::MqReceive { .. }
        | Call::MqTimedSend { .. }
        | Call::MqTimedReceive { .. } => 2,
        Call::Collect | Call::Withdraw { .. } => 0,
        _ => 1,
    }
}

impl Tables {
    // Whether this many more entries and payload bytes, with the entries that end the open waits,
    // exceed the bounds.
    #[inline]
    pub(super) fn exceeds(&self, journal: &Ledger, entries: usize, bytes: usize) -> bool
        requires kept { IsKeptBy journal.now self.now }
        requires few { entries ≤ 2 }
        requires slice { bytes < 2 ^ 63 }
        ensures { result ≡ exceeds self.now.bounds
            (length journal.now.records + open_waits journal.now.records + entries)
            (payload_bytes journal.now.records + bytes) }
    {
        if self.bounds.is_none() {
            return false;
        }
        let entries = journal.len() + (self.open_waits() + entries) as u64;
        let bytes = journal.payload_bytes() + bytes as u64;
        bounds::exceeds(self.bounds, entries, bytes)
    }

    // Makes room for the entries of a call and the `most` payload bytes that it keeps if it does
    // not fail, besides the entries that end the open waits. Fails with the error of the call if
    // there is none.
    #[inline(always)]
    fn make_room(
        &self,
        journal: &mut Ledger,
        entries: usize,
        most: usize,
        bytes: usize,
    ) -> Result<(), Fault>
        requires kept { IsKeptBy journal.old self.now }
        requires few { entries ≤ 2 }
        requires slice { most < 2 ^ 63 }
        requires within { bytes ≤ most }
        ensures records { journal.new.records ≡ journal.old.records }
        ensures kept { IsKeptBy journal.new self.now }
        ensures room { OnOk result ((waits_count self.now.callers.items + entries ≤
            journal.new.entry_room) × (bytes ≤ journal.new.byte_room)) }
        ensures full { IsRoomRefused self.now.bounds
            (length journal.old.records + open_waits journal.old.records + entries)
            (payload_bytes journal.old.records + most) result }
        ensures same { result ≡ Err Fault.JournalFull → journal.new ≡ journal.old }
        ensures no_less { journal.old.byte_room ≤ journal.new.byte_room }
        ensures enough { bytes ≤ journal.old.byte_room →
            journal.new.byte_room ≡ journal.old.byte_room }
        ensures stored { journal.new.stored ≡ journal.old.stored }
    {
        if self.exceeds(journal, entries, most) {
            return Err(Fault::JournalFull);
        }
        if journal.reserve(self.open_waits() + entries, bytes).is_err() {
            return Err(Fault::NoMemory);
        }
        Ok(())
    }

    // Whether there is room for the entries of a send or a receive and its payload bytes, besides
    // the entries that end the open waits.
    #[inline(always)]
    fn has_room(&self, journal: &Ledger, bytes: usize) -> bool
        requires kept { IsKeptBy journal.now self.now }
        requires slice { bytes < 2 ^ 63 }
        ensures within { IsTrue result → exceeds self.now.bounds
            (length journal.now.records + open_waits journal.now.records + 2)
            (payload_bytes journal.now.records + bytes) ≡ false }
        ensures room { IsTrue result → (waits_count self.now.callers.items + 2 ≤
            journal.now.entry_room) × (bytes ≤ journal.now.byte_room) }
        ensures always { exceeds self.now.bounds
            (length journal.now.records + open_waits journal.now.records + 2)
            (payload_bytes journal.now.records + bytes) ≡ false →
            waits_count self.now.callers.items + 2 ≤ journal.now.entry_room →
            bytes ≤ journal.now.byte_room → IsTrue result }
    {
        !self.exceeds(journal, 2, bytes) && journal.has_room(self.open_waits() + 2, bytes)
    }

    /// The number of callers with an open wait.
    pub fn open_waits(&self) -> usize
        requires { self.now.waits ≡ waits_count self.now.callers.items }
        ensures count { result ≡ waits_count self.now.callers.items }
        ensures bound { result ≤ length self.now.callers.items }
    {
        self.waits
    }

    // Updates the tables for the next entry of a journal, made on queue q.
    #[inline(always)]
    pub(crate) fn note_next(
        &mut self,
        journal: &Prefix<'_>,
        entry: Entry,
        payload: &[u8],
        q: u64,
        fresh: Option<Slots>,
        hint: usize,
    )
        requires readable { IsReadable journal.now }
        requires queue { q ≡ entry_queue journal.now.records entry.process entry.call payload.now }
        requires tables { AreThoseOf journal.now.records self.old }
        requires next { IsLegalNext journal.now.records
            (record { entry = entry; payload = payload.now }) }
        requires at_most { entry.process ≤ self.old.n }
        requires registration { HasRoomToRegister self.old.queues.items self.old.inboxes.items
            entry.process entry.call entry.reply }
        requires brings { BringsOrder entry.call entry.reply (vec_len self.old.queues)
            (vec_capacity self.old.queues) fresh }
        requires pool { IsPooled fresh self.old }
        ensures tables { AreThoseOf (record { entry = entry; payload = payload.now } ∷
            journal.now.records) self.new }
        ensures callers { self.new.callers.items ≡ noted_waits self.old.callers.items
            (length journal.now.records) entry.process entry.call entry.reply q }
        ensures notice_room { (k : ℕ) →
            room_in self.old.inboxes.items k ≤ room_in self.new.inboxes.items k + 1 }
        ensures pool { IsPooled None self.new }
        ensures n { self.new.n ≡ self.old.n }
        ensures bounds { self.new.bounds ≡ self.old.bounds }
    {
        let here = journal.len();
        let moves = moves::moves_of(journal, entry);
        let moved = waiting::moved_queue(&self.callers, entry.process, moves.wait, q);
        self.note_notices(entry.process, q, moves);
        self.note_process(here, entry, q, moves.wait);
        self.note_queues(here, entry, q, moves, fresh, hint);
        self.note_waiting(moved);
    }

    // Makes the room that the next entry of a journal needs, and updates the tables for it.
    pub(crate) fn follow(
        &mut self,
        journal: &Prefix<'_>,
        entry: Entry,
        payload: &[u8],
    ) -> Result<(), AllocError>
        requires readable { IsReadable journal.now }
        requires tables { AreThoseOf journal.now.records self.old }
        requires next { IsLegalNext journal.now.records
            (record { entry = entry; payload = payload.now }) }
        requires at_most { entry.process ≤ self.old.n }
        requires pool { IsPooled None self.old }
        ensures tables { OnOk result (AreThoseOf (record { entry = entry; payload = payload.now } ∷
            journal.now.records) self.new) }
        ensures notice_room { OnOk result ((k : ℕ) →
            room_in self.old.inboxes.items k ≤ room_in self.new.inboxes.items k + 1) }
        ensures pool { OnOk result (IsPooled None self.new) }
        ensures err { OnErr result (AreThoseOf journal.now.records self.new) }
        ensures n { self.new.n ≡ self.old.n }
        ensures bounds { self.new.bounds ≡ self.old.bounds }
    {
        self.make_notice_room(entry.process, entry.call, entry.reply)?;
        let fresh = self.fresh_slots(entry.call, entry.reply)?;
        let q = self.entry_queue(journal, entry.process, entry.call, payload);
        self.note_next(journal, entry, payload, q, fresh, self.hint(q));
        Ok(())
    }

    // Appends the entry of a call on queue q that gets its reply, with its payload.
    #[inline(always)]
    fn append(
        &mut self,
        journal: &mut Ledger,
        entry: Entry,
        payload: &[u8],
        q: u64,
        fresh: Option<Slots>,
        hint: usize,
    )
        requires queue { q ≡ entry_queue journal.old.records entry.process entry.call payload.now }
        requires kept { IsKeptBy journal.old self.old }
        requires next { IsLegalNext journal.old.records
            (record { entry = entry; payload = payload.now }) }
        requires at_most { entry.process ≤ self.old.n }
        requires registration { HasRoomToRegister self.old.queues.items self.old.inboxes.items
            entry.process entry.call entry.reply }
        requires brings { BringsOrder entry.call entry.reply (vec_len self.old.queues)
            (vec_capacity self.old.queues) fresh }
        requires bytes { length payload.now ≤ journal.old.byte_room }
        requires entries { HasEntryRoom entry.reply
            (waits_count self.old.callers.items) journal.old.entry_room }
        requires pool { IsPooled fresh self.old }
        ensures records { journal.new.records ≡ record { entry = entry; payload = payload.now } ∷
            journal.old.records }
        ensures no_bytes { payload.now ≡ [] → journal.new.byte_room ≡ journal.old.byte_room }
        ensures kept { IsKeptBy journal.new self.new }
        ensures pool { IsPooled None self.new }
        ensures n { self.new.n ≡ self.old.n }
        ensures bounds { self.new.bounds ≡ self.old.bounds }
        ensures stored { journal.new.stored ≡ journal.old.stored }
    {
        self.note_next(&Prefix::whole(journal), entry, payload, q, fresh, hint);
        journal.push(entry, payload, q);
    }

    // Appends the entry of a call on queue q with these bytes.
    #[inline(always)]
    fn record(
        &mut self,
        journal: &mut Ledger,
        entry: Entry,
        given: &[u8],
        q: u64,
        fresh: Option<Slots>,
        hint: usize,
    )
        requires queue { q ≡ entry_queue journal.old.records entry.process entry.call given.now }
        requires kept { IsKeptBy journal.old self.old }
        requires process { (1 ≤ entry.process) × (entry.process ≤ self.old.n) }
        requires turn { IsTrue (may_call journal.old.records entry.process entry.call) }
        requires replies { entry.reply ≡
            reply_to journal.old.records entry.process entry.call given.now }
        requires payload { IsTrue (is_payload entry.call entry.reply
            (payload_of entry.call entry.reply given.now)) }
        requires registration { HasRoomToRegister self.old.queues.items self.old.inboxes.items
            entry.process entry.call entry.reply }
        requires brings { BringsOrder entry.call entry.reply (vec_len self.old.queues)
            (vec_capacity self.old.queues) fresh }
        requires bytes { length (payload_of entry.call entry.reply given.now) ≤
            journal.old.byte_room }
        requires entries { HasEntryRoom entry.reply
            (waits_count self.old.callers.items) journal.old.entry_room }
        requires pool { IsPooled fresh self.old }
        ensures appends { Appends journal.old.records journal.new.records entry.process
            entry.call given.now entry.reply }
        ensures no_bytes { payload_of entry.call entry.reply given.now ≡ [] →
            journal.new.byte_room ≡ journal.old.byte_room }
        ensures kept { IsKeptBy journal.new self.new }
        ensures pool { IsPooled None self.new }
        ensures n { self.new.n ≡ self.old.n }
        ensures bounds { self.new.bounds ≡ self.old.bounds }
        ensures stored { journal.new.stored ≡ journal.old.stored }
    {
        let payload = payload_of(entry.call, entry.reply, given);
        self.append(journal, entry, payload, q, fresh, hint);
        if moves::frees(entry) {
            self.forget(journal, q);
        }
    }

    // Drops from the ledger what is lost with queue q, if it no longer exists.
    #[inline(never)]
    fn forget(&self, journal: &mut Ledger, q: u64)
        requires { IsKeptBy journal.old self.now }
        ensures records { journal.new.records ≡ journal.old.records }
        ensures kept { IsKeptBy journal.new self.now }
        ensures byte_room { journal.new.byte_room ≡ journal.old.byte_room }
        ensures stored { journal.new.stored ≡ journal.old.stored }
    {
        if let None = queues::find(&self.queues, q) {
            journal.forget(q);
        }
    }

    /// Makes a call of process p. `given` is its name or its message, or empty, and `buf` the
    /// buffer that a receive fills.
    pub fn make(
        &mut self,
        journal: &mut Ledger,
        p: u32,
        call: Call,
        given: &[u8],
        buf: &mut [u8],
    ) -> Answer
        requires may_call { MayCall journal.old self.old p }
        requires brings { Brings call given.now (length buf.old) }
        ensures called { IsCalled journal.old journal.new self.old self.new p call
            given.now result.reply }
        ensures received { result.received ≡ received_by journal.old.records result.reply }
        ensures buffer { is_receive call ≡ true →
            buf.new ≡ filled journal.old.records result.reply buf.old }
        ensures refused { is_send call ≡ true → SparesBytes journal.old journal.new result.reply }
    {
        let past = Prefix::whole(journal);
        let plain = self.plain_reply(&past, p, call, given);
        let reply = by_deadline(call, plain);
        let q = self.entry_queue(&past, p, call, given);
        let most = payload_of(call, plain, given).len();
        let kept = payload_of(call, reply, given).len();
        let entries = entries_needed(call);
        if let Err(fault) = self.make_room_for(journal, call, reply, entries, most, kept) {
            return Answer::refused(fault);
        }
        if self.make_notice_room(p, call, reply).is_err() {
            return Answer::refused(Fault::NoMemory);
        }
        let Ok(fresh) = self.fresh_slots(call, reply) else {
            return Answer::refused(Fault::NoMemory);
        };
        let received = buffers::fill(journal, reply, buf);
        let entry = Entry {
            process: p,
            call,
            reply,
        };
        self.record(journal, entry, given, q, fresh, self.hint(q));
        Answer { reply, received }
    }

    // Finishes a send or a receive on queue q that keeps all bytes that it is given, and for which
    // there is room: fills the buffer if it gets a message, and appends its entry.
    #[inline(always)]
    fn settle(
        &mut self,
        journal: &mut Ledger,
        p: u32,
        call: Call,
        reply: Reply,
        given: &[u8],
        buf: &mut [u8],
        q: u64,
        hint: usize,
    ) -> Answer
        requires queue { q ≡ entry_queue journal.old.records p call given.now }
        requires may_call { MayCall journal.old self.old p }
        requires brings { Brings call given.now (length buf.old) }
        requires replies { reply ≡ reply_to journal.old.records p call given.now }
        requires entries { entries_needed call ≡ 2 }
        requires bytes { bytes_needed journal.old.records p call given.now ≡ length given.now }
        requires within { exceeds self.old.bounds
            (length journal.old.records + open_waits journal.old.records + 2)
            (payload_bytes journal.old.records + length given.now) ≡ false }
        requires room { (waits_count self.old.callers.items + 2 ≤ journal.old.entry_room) ×
            (length given.now ≤ journal.old.byte_room) }
        requires creates { creates call reply ≡ false }
        requires registration { HasRoomToRegister self.old.queues.items self.old.inboxes.items
            p call reply }
        ensures called { IsCalled journal.old journal.new self.old self.new p call
            given.now result.reply }
        ensures received { result.received ≡ received_by journal.old.records result.reply }
        ensures buffer { buf.new ≡ filled journal.old.records result.reply buf.old }
        ensures refused { is_send call ≡ true → SparesBytes journal.old journal.new result.reply }
    {
        let received = buffers::fill(journal, reply, buf);
        let entry = Entry {
            process: p,
            call,
            reply,
        };
        self.record(journal, entry, given, q, None, hint);
        Answer { reply, received }
    }

    /// Sends a message (`mq_send`). Most are queued and notify nobody, and the compiler gets a
    /// separate path for these.
    #[inline(always)]
    pub fn send(&mut self, journal: &mut Ledger, p: u32, d: u32, bytes: &[u8], prio: u32) -> Answer
        requires { MayCall journal.old self.old p }
        ensures called { IsCalled journal.old journal.new self.old self.new p
            (Call.MqSend d prio (length bytes.now)) bytes.now result.reply }
        ensures received { result.received ≡ received_by journal.old.records result.reply }
        ensures refused { SparesBytes journal.old journal.new result.reply }
    {
        let len = bytes.len() as u64;
        let past = Prefix::whole(journal);
        let held = self.held(&past, p, d);
        let q = queue_of(&past, held);
        let hint = self.hint(q);
        match self.reply_to_send(&past, held, hint, true, prio, len) {
            Some(Reply::Queued { notified: None }) if self.has_room(journal, bytes.len()) => {
                let call = Call::MqSend { d, prio, len };
                let reply = Reply::Queued { notified: None };
                self.settle(journal, p, call, reply, bytes, &mut [], q, hint)
            }
            _ => self.other_send(journal, p, d, bytes, prio),
        }
    }

    // Stands between `send` and `send_apart`, so that a send has no stack space for the latter's
    // reply unless it calls it.
    #[inline(always)]
    fn other_send(
        &mut self,
        journal: &mut Ledger,
        p: u32,
        d: u32,
        bytes: &[u8],
        prio: u32,
    ) -> Answer
        requires { MayCall journal.old self.old p }
        ensures called { IsCalled journal.old journal.new self.old self.new p
            (Call.MqSend d prio (length bytes.now)) bytes.now result.reply }
        ensures received { result.received ≡ received_by journal.old.records result.reply }
        ensures refused { SparesBytes journal.old journal.new result.reply }
    {
        self.send_apart(journal, p, d, bytes, prio)
    }

    // Any send without a deadline. It is outlined, so that the usual send has no stack space for
    // the call built here.
    #[inline(never)]
    fn send_apart(
        &mut self,
        journal: &mut Ledger,
        p: u32,
        d: u32,
        bytes: &[u8],
        prio: u32,
    ) -> Answer
        requires { MayCall journal.old self.old p }
        ensures called { IsCalled journal.old journal.new self.old self.new p
            (Call.MqSend d prio (length bytes.now)) bytes.now result.reply }
        ensures received { result.received ≡ received_by journal.old.records result.reply }
        ensures refused { SparesBytes journal.old journal.new result.reply }
    {
        let len = bytes.len() as u64;
        self.make(journal, p, Call::MqSend { d, prio, len }, bytes, &mut [])
    }

    /// Receives a message (`mq_receive`). Most get one, admit no send and notify nobody, and the
    /// compiler gets a separate path for these.
    #[inline(always)]
    pub fn receive(&mut self, journal: &mut Ledger, p: u32, d: u32, buf: &mut [u8]) -> Answer
        requires { MayCall journal.old self.old p }
        ensures called { IsCalled journal.old journal.new self.old self.new p
            (Call.MqReceive d (length buf.old)) [] result.reply }
        ensures received { result.received ≡ received_by journal.old.records result.reply }
        ensures buffer { buf.new ≡ filled journal.old.records result.reply buf.old }
    {
        let room = buf.len() as u64;
        let past = Prefix::whole(journal);
        let held = self.held(&past, p, d);
        let q = queue_of(&past, held);
        let hint = self.hint(q);
        match self.reply_to_receive(&past, held, hint, true, room) {
            Some(
                Reply::Got {
                    place,
                    admitted: None,
                    notified: None,
                },
            ) if self.has_room(journal, 0) => {
                let call = Call::MqReceive { d, room };
                let reply = Reply::Got {
                    place,
                    admitted: None,
                    notified: None,
                };
                self.settle(journal, p, call, reply, &[], buf, q, hint)
            }
            _ => self.other_receive(journal, p, d, buf),
        }
    }

    // Stands between `receive` and `receive_apart`, in the same way.
    #[inline(always)]
    fn other_receive(&mut self, journal: &mut Ledger, p: u32, d: u32, buf: &mut [u8]) -> Answer
        requires { MayCall journal.old self.old p }
        ensures called { IsCalled journal.old journal.new self.old self.new p
            (Call.MqReceive d (length buf.old)) [] result.reply }
        ensures received { result.received ≡ received_by journal.old.records result.reply }
        ensures buffer { buf.new ≡ filled journal.old.records result.reply buf.old }
    {
        self.receive_apart(journal, p, d, buf)
    }

    // Any receive without a deadline.
    #[inline(never)]
    fn receive_apart(&mut self, journal: &mut Ledger, p: u32, d: u32, buf: &mut [u8]) -> Answer
        requires { MayCall journal.old self.old p }
        ensures called { IsCalled journal.old journal.new self.old self.new p
            (Call.MqReceive d (length buf.old)) [] result.reply }
        ensures received { result.received ≡ received_by journal.old.records result.reply }
        ensures buffer { buf.new ≡ filled journal.old.records result.reply buf.old }
    {
        let room = buf.len() as u64;
        self.make(journal, p, Call::MqReceive { d, room }, &[], buf)
    }

    // The slots for the queue that an open creates, if it creates one, and a free row in the table.
    // With bounds the slots are spare ones.
    fn fresh_slots(&mut self, call: Call, reply: Reply) -> Result<Option<Slots>, AllocError>
        requires pool { IsPooled None self.old }
        requires within { CreatesWithin call reply }
        requires few { creates call reply ≡ true → vec_len self.old.queues < 64 }
        ensures same { SaysSame self.old self.new }
        ensures inboxes { self.new.inboxes ≡ self.old.inboxes }
        ensures pool { IfOk result (λ fresh. IsPooled fresh self.new) }
        ensures memory { OnErr result (self.new.bounds ≡ None) }
        ensures brings { IfOk result (BringsOrder call reply (vec_len self.new.queues)
            (vec_capacity self.new.queues)) }
    {
        match (call, reply) {
            (
                Call::MqOpen { .. },
                Reply::Opened {
                    d: _,
                    created: true,
                },
            ) => {
                self.queues.reserve(1)?;
                match self.bounds {
                    None => {
                        let cap = queues::slots_for(error_order::attributes_given(call));
                        Ok(Some(Slots::new(self.alloc, cap)?))
                    }
                    Some(_) => Ok(Some(self.spares.pop().unwrap())),
                }
            }
            _ => Ok(None),
        }
    }

    // The same, and the room that a prepaid system makes at a call.
    fn make_room_for(
        &self,
        journal: &mut Ledger,
        call: Call,
        reply: Reply,
        entries: usize,
        most: usize,
        bytes: usize,
    ) -> Result<(), Fault>
        requires kept { IsKeptBy journal.old self.now }
        requires few { entries ≤ 2 }
        requires slice { most < 2 ^ 63 }
        requires within { bytes ≤ most }
        ensures records { journal.new.records ≡ journal.old.records }
        ensures kept { IsKeptBy journal.new self.now }
        ensures room { OnOk result ((waits_count self.now.callers.items + entries ≤
            journal.new.entry_room) × (bytes ≤ journal.new.byte_room)) }
        ensures full { IsRoomRefused self.now.bounds
            (length journal.old.records + open_waits journal.old.records + entries)
            (payload_bytes journal.old.records + most) result }
        ensures same { result ≡ Err Fault.JournalFull → journal.new ≡ journal.old }
        ensures no_less { journal.old.byte_room ≤ journal.new.byte_room }
        ensures enough { is_send call ≡ true → bytes ≤ journal.old.byte_room →
            journal.new.byte_room ≡ journal.old.byte_room }
        ensures stored { journal.new.stored ≡ journal.old.stored }
    {
        self.make_room(journal, entries, most, bytes)?;
        match self.prepay(journal, call, reply) {
            Ok(()) => Ok(()),
            Err(_) => Err(Fault::NoMemory),
        }
    }

    // Takes the memory for the messages of the queue that an open creates, if the system is
    // prepaid.
    fn prepay(&self, journal: &mut Ledger, call: Call, reply: Reply) -> Result<(), AllocError>
        requires kept { IsKeptBy journal.old self.now }
        ensures records { journal.new.records ≡ journal.old.records }
        ensures kept { IsKeptBy journal.new self.now }
        ensures entry_room { journal.old.entry_room ≤ journal.new.entry_room }
        ensures byte_room { journal.old.byte_room ≤ journal.new.byte_room }
        ensures stored { journal.new.stored ≡ journal.old.stored }
        ensures memory { OnErr result (self.now.bounds ≡ None) }
        ensures sends { is_send call ≡ true → journal.new ≡ journal.old }
    {
        if !self.is_prepaid || self.bounds.is_some() {
            return Ok(());
        }
        match (call, reply) {
            (
                Call::MqOpen { .. },
                Reply::Opened {
                    d: _,
                    created: true,
                },
            ) => {
                let attr = error_order::attributes_given(call);
                let messages = usize::try_from(attr.maxmsg).unwrap_or(0);
                let size = usize::try_from(attr.msgsize).unwrap_or(0);
                journal.prepay(messages, size, self.n as usize)
            }
            _ => Ok(()),
        }
    }

    // Makes room for the notices of the registration that a call of process p makes: one from each
    // queue, since a queue has at most one registration.
    fn make_notice_room(&mut self, p: u32, call: Call, reply: Reply) -> Result<(), AllocError>
        requires pool { IsPooled None self.old }
        requires process { owner_of p < length self.old.inboxes.items }
        ensures same { SaysSame self.old self.new }
        ensures pool { IsPooled None self.new }
        ensures memory { OnErr result
            (room_in self.old.inboxes.items p < length self.old.queues.items) }
        ensures room { OnOk result (HasRoomToRegister self.new.queues.items self.new.inboxes.items p
            call reply) }
    {
        match (call, reply) {
            (
                Call::MqNotify {
                    d: _,
                    value: Some(_),
                },
                Reply::Done,
            ) => notices::make_room(&mut self.inboxes, p, self.queues.len()),
            _ => Ok(()),
        }
    }

    /// The sequence number of the entry that answers the open wait of caller p, if there is one.
    pub fn answer(&self, p: u32) -> Option<u64>
        ensures { result ≡ answer_in self.now.callers.items p }
    {
        callers::answer(&self.callers, p)
    }

    /// The sequence number of the open wait of caller p.
    pub fn wait(&self, p: u32) -> Option<u64>
        ensures { result ≡ option_map (λ w. w.place) (wait_in self.now.callers.items p) }
    {
        match callers::wait(&self.callers, p) {
            None => None,
            Some(wait) => Some(wait.place),
        }
    }

    /// The call in which caller p waits, if it does.
    pub fn waiting_call(&self, p: u32) -> Call
        ensures { result ≡ slice_index_or self.now.calls.items p Call.Collect }
    {
        if p as usize >= self.calls.len() {
            return Call::Collect;
        }
        self.calls[p as usize]
    }

    /// The lowest descriptor that process p holds.
    pub fn lowest_open(&self, p: u32) -> Option<u32>
        ensures { result ≡ lowest_held_in self.now.owners.items p }
    {
        owners::lowest_held(&self.owners, p)
    }

    /// Ends the open wait of process p, by a collect or a withdraw that it may make now.
    pub fn end_wait(&mut self, journal: &mut Ledger, p: u32, call: Call)
        requires kept { IsKeptBy journal.old self.old }
        requires pool { IsPooled None self.old }
        requires process { (1 ≤ p) × (p ≤ self.old.n) }
        requires ends { ends_wait call ≡ true }
        requires turn { IsTrue (may_call journal.old.records p call) }
        ensures appends { Appends journal.old.records journal.new.records p call []
            (reply_to journal.old.records p call []) }
        ensures kept { IsKeptBy journal.new self.new }
        ensures pool { IsPooled None self.new }
        ensures n { self.new.n ≡ self.old.n }
        ensures bounds { self.new.bounds ≡ self.old.bounds }
        ensures stored { journal.new.stored ≡ journal.old.stored }
    {
        let past = Prefix::whole(journal);
        let entry = Entry {
            process: p,
            call,
            reply: self.plain_reply(&past, p, call, &[]),
        };
        let q = journal.len();
        self.record(journal, entry, &[], q, None, self.hint(q));
    }
}
