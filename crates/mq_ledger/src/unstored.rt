//! A journal that keeps only what may still be read. Its records are a history variable.
ghost use Rattle.std.specs.Prelude.{◌≡◌, ◌≢◌, ◌+◌, ◌<◌, ◌≤◌, ◌^◌, ℕ, [], ◌∷◌, true, false, length, IsOk, OnOk, Some, None, IsTrue, ◌↔◌};
ghost use Rattle.std.specs.Option.{option_map};
ghost use Rattle.mq_model.specs.Descriptors.{is_place};
ghost use Rattle.mq_model.specs.Messages.{priority, priority_given};
ghost use Rattle.mq_model.specs.Record.{Record, Past, record_at};
ghost use Rattle.mq_ledger.specs.Seen.{HasPlace};
ghost use Rattle.mq_laws.specs.Needed.{is_kept, ended_by, ended_last, home, home_of, GoesTo};

use crate::classes::{self, CLASSES, GROWING, NAME};
use crate::history::History;
use crate::index::Index;
use crate::paid::Paid;
use crate::slots::{self, Slot};
use mq_model::entries::{Call, Entry, Reply};
use std::alloc::{AllocError, Global};
use std::marker::Model;

/// The maximum number of entries.
const LIMIT: u64 = 4_611_686_018_427_387_904;

/// A journal whose records are a history variable. Of its entries it keeps, in slots, what later
/// replies may need.
#[derive(Drop)]
pub struct Unstored {
    alloc: Global,
    past: History,
    len: u64,
    slots: Vec<Slot>,
    // how many slots are vacant
    vacant: usize,
    // The entry that the latest one ended, and perhaps its slot; or the slot of the latest entry.
    ended: Option<u64>,
    last: usize,
    // Whether the index has that slot. Its entry often ends before another is looked up, so the
    // note is made late.
    is_last_noted: bool,
    // the spare buffer, for the next payload
    next: Vec<u8>,
    // Most calls touch the fields above and the first two of the index: two lines of a cache.
    index: Index,
    // the messages for which there are slots of their own
    paid: Paid,
}

impl Model for Unstored {
    ghost use Rattle.mq_ledger.specs.Seen.{Seen};

    ghost Value = { Seen };

    ghost use Rattle.mq_ledger.specs.Keeping.{shown, IsSound};

    ghost view = { shown };

    ghost invariant = { IsSound };
}

#[inline]
fn is_kept(call: Call, reply: Reply) -> bool
    ensures { result ≡ is_kept call reply }
{
    match reply {
        Reply::Opened { d: _, created } => created,
        Reply::Queued { .. } | Reply::Handed { .. } => true,
        Reply::Waits => call.is_send(),
        _ => false,
    }
}

#[inline]
fn ended_by(reply: Reply) -> Option<u64>
    ensures { result ≡ ended_by reply }
{
    match reply {
        Reply::Got { place, .. } => Some(place),
        Reply::Collected { by } => Some(by),
        Reply::Withdrawn { wait } => Some(wait),
        _ => None,
    }
}

// The queue with which an entry is lost that is made as entry `here` on queue q.
#[inline]
fn home_of(reply: Reply, here: u64, q: u64) -> Option<u64>
    ensures { (past : Past) (r : Record) → here ≡ length past → reply ≡ r.entry.reply →
        GoesTo past r q → result ≡ home_of past r r.entry.reply }
{
    match reply {
        Reply::Opened { .. } => Some(here),
        Reply::Queued { .. } | Reply::Waits => Some(q),
        _ => None,
    }
}

impl Unstored {
    /// The empty journal, which takes no memory.
    pub fn new(alloc: Global) -> Unstored
        ensures { result.records ≡ [] }
    {
        Unstored {
            alloc,
            past: History::new(),
            len: 0,
            slots: Vec::new(alloc),
            vacant: 0,
            ended: None,
            last: 0,
            is_last_noted: true,
            next: Vec::new(alloc),
            index: Index::new(alloc),
            paid: Paid::new(alloc),
        }
    }

    /// The number of entries.
    pub fn len(&self) -> u64
        ensures count { result ≡ length self.now.records }
        ensures bound { result < 2 ^ 63 }
    {
        self.len
    }

    // Vacates the slot of the entry that the latest one ended, if the index finds it.
    #[inline(always)]
    fn drop_ended(&mut self)
        ensures records { self.new.records ≡ self.old.records }
        ensures entry_room { self.old.entry_room ≤ self.new.entry_room }
        ensures byte_room { self.new.byte_room ≡ self.old.byte_room }
        ensures keeps { (k : ℕ) → is_place k (ended_last self.old.records) ≡ false →
            HasPlace self.old.places k → HasPlace self.new.places k }
    {
        if let Some(place) = self.ended {
            if let Some(key) = slots::guess(&self.slots, &self.index, self.last, place) {
                slots::vacate(&mut self.slots, &mut self.index, key);
                self.vacant += 1;
            }
        }
    }

    // Makes the slot of the entry that the latest one ended the first to be looked at.
    #[inline(always)]
    fn note_last(&mut self, ended: Option<u64>)
        ensures { self.new ≡ self.old }
    {
        if let Some(place) = ended {
            if let Some(key) = slots::guess(&self.slots, &self.index, self.last, place) {
                self.set_last(key);
            }
        }
    }

    // Makes this the slot that is looked at first. The one before it gets its note in the index.
    #[inline(always)]
    fn set_last(&mut self, key: usize)
        ensures { self.new ≡ self.old }
    {
        if key != self.last {
            self.note_latest();
            self.last = key;
        }
    }

    // Makes sure that the index has the slot that is looked at first.
    #[inline(always)]
    fn note_latest(&mut self)
        ensures { self.new ≡ self.old }
    {
        if !self.is_last_noted {
            slots::note_kept(&self.slots, &mut self.index, self.last);
            self.is_last_noted = true;
        }
    }

    // Appends an entry that is not kept, and that ends `ended`.
    #[inline(always)]
    fn add_passing(&mut self, entry: &Entry, payload: &[u8], ended: Option<u64>)
        requires room { 0 < self.old.entry_room }
        requires ended { ended ≡ ended_by entry.now.reply }
        ensures records { self.new.records ≡
            record { entry = entry.now; payload = payload.now } ∷ self.old.records }
        ensures entry_room { self.old.entry_room ≤ self.new.entry_room + 1 }
        ensures byte_room { self.new.byte_room ≡ self.old.byte_room }
        ensures places { self.new.places ≡ self.old.places }
    {
        self.past.note(entry, payload);
        self.ended = ended;
        self.len += 1;
    }

    // Appends an entry that is kept and ends no other, with this priority, lost with the queue
    // `home`, in a slot of this class if there is one.
    #[inline(always)]
    fn add_kept(&mut self, entry: &Entry, payload: &[u8], prio: u32, home: Option<u64>, class: u32)
        requires room { 0 < self.old.entry_room }
        requires bytes { length payload.now ≤ self.old.byte_room }
        requires ended { ended_by entry.now.reply ≡ None }
        requires prio { prio ≡ priority_given entry.now.call }
        requires home { home ≡ home_of self.old.records
            (record { entry = entry.now; payload = payload.now }) entry.now.reply }
        ensures records { self.new.records ≡
            record { entry = entry.now; payload = payload.now } ∷ self.old.records }
        ensures entry_room { self.old.entry_room ≤ self.new.entry_room + 1 }
        ensures no_bytes { payload.now ≡ [] → self.new.byte_room ≡ self.old.byte_room }
        ensures kept { HasPlace self.new.places (length self.old.records) }
        ensures keeps { (k : ℕ) → HasPlace self.old.places k → HasPlace self.new.places k }
    {
        self.past.note(entry, payload);
        self.last = slots::put(
            &mut self.slots,
            &mut self.index,
            self.len,
            prio,
            home,
            &mut self.next,
            payload,
            class,
        );
        self.is_last_noted = false;
        self.vacant -= 1;
        self.ended = None;
        self.len += 1;
    }

    // The same, after the entry that the latest one ended has left its slot. The new entry itself
    // is only for the history. The one number needed of it is passed separately in `ended`, so that
    // the compiler need not build an entry whose call is known at compile time.
    #[inline]
    fn pass(&mut self, entry: &Entry, payload: &[u8], ended: Option<u64>)
        requires room { 0 < self.old.entry_room }
        requires ended { ended ≡ ended_by entry.now.reply }
        ensures records { self.new.records ≡
            record { entry = entry.now; payload = payload.now } ∷ self.old.records }
        ensures entry_room { self.old.entry_room ≤ self.new.entry_room + 1 }
        ensures byte_room { self.new.byte_room ≡ self.old.byte_room }
        ensures keeps { (k : ℕ) → is_place k (ended_last self.old.records) ≡ false →
            HasPlace self.old.places k → HasPlace self.new.places k }
    {
        if self.ended.is_none() && self.is_first(ended) {
            self.add_passing(entry, payload, ended);
        } else {
            self.pass_apart(entry, payload, ended);
        }
    }

    // Whether the slot that is looked at first has this entry.
    #[inline(always)]
    fn is_first(&self, ended: Option<u64>) -> bool {
        match ended {
            Some(place) => slots::is_there(&self.slots, self.last, place),
            None => true,
        }
    }

    // The same in every case.
    #[inline(never)]
    fn pass_apart(&mut self, entry: &Entry, payload: &[u8], ended: Option<u64>)
        requires room { 0 < self.old.entry_room }
        requires ended { ended ≡ ended_by entry.now.reply }
        ensures records { self.new.records ≡
            record { entry = entry.now; payload = payload.now } ∷ self.old.records }
        ensures entry_room { self.old.entry_room ≤ self.new.entry_room + 1 }
        ensures byte_room { self.new.byte_room ≡ self.old.byte_room }
        ensures keeps { (k : ℕ) → is_place k (ended_last self.old.records) ≡ false →
            HasPlace self.old.places k → HasPlace self.new.places k }
    {
        self.drop_ended();
        self.note_last(ended);
        self.add_passing(entry, payload, ended);
    }

    // Appends an entry that is kept, in the slot of the entry that the latest one ended if that is
    // of its class.
    #[inline]
    fn keep(&mut self, entry: &Entry, payload: &[u8], prio: u32, home: Option<u64>, class: u32)
        requires room { 0 < self.old.entry_room }
        requires bytes { length payload.now ≤ self.old.byte_room }
        requires ended { ended_by entry.now.reply ≡ None }
        requires prio { prio ≡ priority_given entry.now.call }
        requires home { home ≡ home_of self.old.records
            (record { entry = entry.now; payload = payload.now }) entry.now.reply }
        ensures records { self.new.records ≡
            record { entry = entry.now; payload = payload.now } ∷ self.old.records }
        ensures entry_room { self.old.entry_room ≤ self.new.entry_room + 1 }
        ensures no_bytes { payload.now ≡ [] → self.new.byte_room ≡ self.old.byte_room }
        ensures kept { HasPlace self.new.places (length self.old.records) }
        ensures keeps { (k : ℕ) → is_place k (ended_last self.old.records) ≡ false →
            HasPlace self.old.places k → HasPlace self.new.places k }
    {
        match self.ended {
            Some(place) if slots::is_there_in(&self.slots, self.last, place, class) => {
                self.past.note(entry, payload);
                slots::replace(
                    &mut self.slots,
                    self.last,
                    self.len,
                    prio,
                    home,
                    &mut self.next,
                    payload,
                );
                self.is_last_noted = false;
                self.ended = None;
                self.len += 1;
            }
            _ => self.keep_apart(entry, payload, prio, home, class),
        }
    }

    // The same in any vacant slot.
    #[inline(never)]
    fn keep_apart(
        &mut self,
        entry: &Entry,
        payload: &[u8],
        prio: u32,
        home: Option<u64>,
        class: u32,
    )
        requires room { 0 < self.old.entry_room }
        requires bytes { length payload.now ≤ self.old.byte_room }
        requires ended { ended_by entry.now.reply ≡ None }
        requires prio { prio ≡ priority_given entry.now.call }
        requires home { home ≡ home_of self.old.records
            (record { entry = entry.now; payload = payload.now }) entry.now.reply }
        ensures records { self.new.records ≡
            record { entry = entry.now; payload = payload.now } ∷ self.old.records }
        ensures entry_room { self.old.entry_room ≤ self.new.entry_room + 1 }
        ensures no_bytes { payload.now ≡ [] → self.new.byte_room ≡ self.old.byte_room }
        ensures kept { HasPlace self.new.places (length self.old.records) }
        ensures keeps { (k : ℕ) → is_place k (ended_last self.old.records) ≡ false →
            HasPlace self.old.places k → HasPlace self.new.places k }
    {
        self.drop_ended();
        self.note_latest();
        self.add_kept(entry, payload, prio, home, class);
    }

    /// Makes room for this many further entries and payload bytes.
    #[inline(always)]
    pub fn reserve(&mut self, entries: usize, bytes: usize) -> Result<(), AllocError>
        ensures records { self.new.records ≡ self.old.records }
        ensures entry_room { self.old.entry_room ≤ self.new.entry_room }
        ensures byte_room { self.old.byte_room ≤ self.new.byte_room }
        ensures ok { OnOk result ((entries ≤ self.new.entry_room) × (bytes ≤ self.new.byte_room)) }
        ensures succeeds { entries ≤ self.old.entry_room → bytes ≤ self.old.byte_room →
            IsOk result }
        ensures enough { bytes ≤ self.old.byte_room → self.new.byte_room ≡ self.old.byte_room }
        ensures keeps { (k : ℕ) → HasPlace self.old.places k → HasPlace self.new.places k }
    {
        if self.has_room(entries, bytes) {
            return Ok(());
        }
        self.make_room(entries, bytes)
    }

    /// Whether there is room for this many further entries and payload bytes.
    #[inline(always)]
    pub fn has_room(&self, entries: usize, bytes: usize) -> bool
        ensures { IsTrue result ↔
            ((entries ≤ self.now.entry_room) × (bytes ≤ self.now.byte_room)) }
    {
        entries as u64 <= LIMIT - self.len
            && entries <= self.vacant
            && bytes <= self.next.capacity()
    }

    // Makes that room.
    #[inline(never)]
    fn make_room(&mut self, entries: usize, bytes: usize) -> Result<(), AllocError>
        ensures records { self.new.records ≡ self.old.records }
        ensures entry_room { self.old.entry_room ≤ self.new.entry_room }
        ensures byte_room { self.old.byte_room ≤ self.new.byte_room }
        ensures ok { OnOk result ((entries ≤ self.new.entry_room) × (bytes ≤ self.new.byte_room)) }
        ensures succeeds { entries ≤ self.old.entry_room → bytes ≤ self.old.byte_room →
            IsOk result }
        ensures enough { bytes ≤ self.old.byte_room → self.new.byte_room ≡ self.old.byte_room }
        ensures keeps { (k : ℕ) → HasPlace self.old.places k → HasPlace self.new.places k }
    {
        if entries as u64 > LIMIT - self.len {
            return Err(AllocError);
        }
        slots::make_room(
            self.alloc,
            &mut self.slots,
            &mut self.index,
            &mut self.vacant,
            entries,
        )?;
        if bytes > self.next.capacity() {
            self.next.reserve(bytes)?;
        }
        Ok(())
    }

    /// Appends an entry with its payload, made on queue q. There must be room for it. Takes no
    /// memory.
    #[inline(always)]
    pub fn push(&mut self, entry: Entry, payload: &[u8], q: u64)
        requires entry_room { 0 < self.old.entry_room }
        requires byte_room { length payload.now ≤ self.old.byte_room }
        requires queue { GoesTo self.old.records
            (record { entry = entry; payload = payload.now }) q }
        ensures records { self.new.records ≡ record { entry = entry; payload = payload.now } ∷
            self.old.records }
        ensures entry_room { self.old.entry_room ≤ self.new.entry_room + 1 }
        ensures no_bytes { payload.now ≡ [] → self.new.byte_room ≡ self.old.byte_room }
        ensures kept { is_kept entry.call entry.reply ≡ true →
            HasPlace self.new.places (length self.old.records) }
        ensures keeps { (k : ℕ) → is_place k (ended_last self.old.records) ≡ false →
            HasPlace self.old.places k → HasPlace self.new.places k }
    {
        if is_kept(entry.call, entry.reply) {
            let home = home_of(entry.reply, self.len, q);
            let class = self.class_of(entry.reply, q);
            self.keep(&entry, payload, entry.call.priority(), home, class);
        } else {
            self.pass(&entry, payload, ended_by(entry.reply));
        }
    }

    // The class of slots for a kept entry that is made on queue q.
    #[inline]
    fn class_of(&self, reply: Reply, q: u64) -> u32 {
        if self.paid.is_empty() {
            return GROWING;
        }
        match reply {
            Reply::Opened { .. } => classes::class_of_names(),
            _ => self.paid.class_for(q),
        }
    }

    // Whether the latest queue that was paid for was created and still exists.
    fn is_latest_there(&self) -> bool {
        let Some(queue) = self.paid.latest() else {
            return false;
        };
        match slots::find(&self.slots, &self.index, self.last, queue) {
            Some(key) if key < self.slots.len() => self.slots[key].is_lost_with(queue),
            _ => false,
        }
    }

    /// Makes slots for the messages of the queue that the next entry creates, `messages` of `size`
    /// bytes, and for those of the calls in which `processes` processes wait. As long as the queue
    /// exists, its messages take no memory.
    #[inline(never)]
    pub fn prepay(
        &mut self,
        messages: usize,
        size: usize,
        processes: usize,
    ) -> Result<(), AllocError>
        ensures records { self.new.records ≡ self.old.records }
        ensures entry_room { self.old.entry_room ≤ self.new.entry_room }
        ensures byte_room { self.old.byte_room ≤ self.new.byte_room }
        ensures keeps { (k : ℕ) → HasPlace self.old.places k → HasPlace self.new.places k }
    {
        let exists = self.is_latest_there();
        self.paid
            .expect(exists, self.len, messages, size, processes)?;
        for class in 0..CLASSES {
            self.make_slots(class)?;
        }
        let bytes = size.max(NAME);
        if bytes > self.next.capacity() {
            self.next.reserve(bytes)?;
        }
        Ok(())
    }

    // Adds the slots of a class that are paid for and do not exist yet.
    fn make_slots(&mut self, class: u32) -> Result<(), AllocError>
        ensures records { self.new.records ≡ self.old.records }
        ensures entry_room { self.old.entry_room ≤ self.new.entry_room }
        ensures byte_room { self.new.byte_room ≡ self.old.byte_room }
        ensures keeps { (k : ℕ) → HasPlace self.old.places k → HasPlace self.new.places k }
    {
        let owed = self.paid.owed(class);
        let wanted = owed.saturating_sub(slots::count_of(&self.slots, class));
        slots::grow(
            self.alloc,
            &mut self.slots,
            &mut self.index,
            &mut self.vacant,
            wanted,
            class,
        )
    }

    /// The payload of entry `place` and the priority of the message that it sends, if that is kept.
    #[inline(always)]
    pub fn message(&self, place: u64) -> (Option<&[u8]>, u32)
        ensures payload { HasPlace self.now.places place →
            option_map (λ p. p.now) result.0 ≡ option_map (λ r. r.payload)
            (record_at self.now.records place) }
        ensures priority { HasPlace self.now.places place →
            result.1 ≡ priority self.now.records place }
    {
        if slots::is_there(&self.slots, self.last, place) {
            let slot = &self.slots[self.last];
            return (Some(slot.bytes()), slot.prio());
        }
        self.message_found(place)
    }

    // The same for an entry in another slot than `last`.
    #[inline(never)]
    fn message_found(&self, place: u64) -> (Option<&[u8]>, u32)
        ensures payload { HasPlace self.now.places place →
            option_map (λ p. p.now) result.0 ≡ option_map (λ r. r.payload)
            (record_at self.now.records place) }
        ensures priority { HasPlace self.now.places place →
            result.1 ≡ priority self.now.records place }
    {
        match slots::find(&self.slots, &self.index, self.last, place) {
            None => (None, 0),
            Some(key) => {
                let slot = &self.slots[key];
                (Some(slot.bytes()), slot.prio())
            }
        }
    }

    /// Drops what is kept, and returns the history.
    pub fn into_history(self) -> History
        ensures { result.past ≡ self.records }
    {
        self.past
    }

    /// Vacates the slots of what is lost with a queue that no longer exists.
    pub fn forget(&mut self, queue: u64)
        ensures records { self.new.records ≡ self.old.records }
        ensures entry_room { self.old.entry_room ≤ self.new.entry_room }
        ensures byte_room { self.new.byte_room ≡ self.old.byte_room }
        ensures keeps { (k : ℕ) → home self.old.records k ≢ Some queue →
            HasPlace self.old.places k → HasPlace self.new.places k }
    {
        slots::forget(&mut self.slots, &mut self.index, queue, &mut self.vacant);
        self.paid.forget(queue);
    }
}
