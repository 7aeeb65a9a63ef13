//! The journal of a system: one that stores every entry, or one that keeps only those that may
//! still be read.
ghost use Rattle.std.specs.Prelude.{◌≡◌, ◌≢◌, ◌+◌, ◌<◌, ◌≤◌, ◌^◌, ℕ, [], ◌∷◌, ◌↔◌, true, false, length, IsTrue, IsOk, OnOk};
ghost use Rattle.std.specs.Option.{option_map};
ghost use Rattle.mq_model.specs.Record.{record_at, payload_bytes};
ghost use Rattle.mq_model.specs.Descriptors.{is_place};
ghost use Rattle.mq_model.specs.Messages.{priority};
ghost use Rattle.mq_laws.specs.Needed.{is_kept, ended_last, home, GoesTo};
ghost use Rattle.mq_ledger.specs.Ledgers.{CanRead};

use crate::history::History;
use crate::unstored::Unstored;
use mq_model::entries::Entry;
use mq_model::journals::Journal;
use std::alloc::AllocError;
use std::marker::Model;

/// A journal, in which not every entry may be readable.
#[derive(Drop)]
pub struct Ledger {
    kind: Kind,
}

#[derive(Drop)]
enum Kind {
    Stored(Journal),
    Unstored(Unstored),
}

impl Model for Ledger {
    ghost use Rattle.mq_ledger.specs.Ledgers.{Shown};

    ghost Value = { Shown };

    ghost use Rattle.mq_ledger.specs.LedgerModel.{shown};

    ghost view = { shown };
}

impl Ledger {
    /// A journal that stores every entry.
    pub fn stored(journal: Journal) -> Ledger
        ensures records { result.records ≡ journal.records }
        ensures entry_room { result.entry_room ≡ journal.entry_room }
        ensures byte_room { result.byte_room ≡ journal.byte_room }
        ensures stored { result.stored ≡ true }
    {
        Ledger {
            kind: Kind::Stored(journal),
        }
    }

    /// A journal that keeps only what may still be read.
    pub fn unstored(unstored: Unstored) -> Ledger
        ensures records { result.records ≡ unstored.records }
        ensures stored { result.stored ≡ false }
    {
        Ledger {
            kind: Kind::Unstored(unstored),
        }
    }

    /// Whether there is room for this many further entries and payload bytes.
    #[inline(always)]
    pub fn has_room(&self, entries: usize, bytes: usize) -> bool
        ensures { IsTrue result ↔
            ((entries ≤ self.now.entry_room) × (bytes ≤ self.now.byte_room)) }
    {
        match &self.kind {
            Kind::Stored(journal) => journal.has_room(entries, bytes),
            Kind::Unstored(unstored) => unstored.has_room(entries, bytes),
        }
    }

    /// Makes room for this many further entries and payload bytes.
    #[inline(always)]
    pub fn reserve(&mut self, entries: usize, bytes: usize) -> Result<(), AllocError>
        ensures records { self.new.records ≡ self.old.records }
        ensures entry_room { self.old.entry_room ≤ self.new.entry_room }
        ensures byte_room { self.old.byte_room ≤ self.new.byte_room }
        ensures ok { OnOk result ((entries ≤ self.new.entry_room) × (bytes ≤ self.new.byte_room)) }
        ensures succeeds { entries ≤ self.old.entry_room → bytes ≤ self.old.byte_room →
            IsOk result }
        ensures enough { bytes ≤ self.old.byte_room → self.new.byte_room ≡ self.old.byte_room }
        ensures stored { self.new.stored ≡ self.old.stored }
        ensures keeps { (k : ℕ) → CanRead self.old k → CanRead self.new k }
    {
        match &mut self.kind {
            Kind::Stored(journal) => journal.reserve(entries, bytes),
            Kind::Unstored(unstored) => unstored.reserve(entries, bytes),
        }
    }

    /// Makes room for the messages of the queue that the next entry creates, `messages` of `size`
    /// bytes, and for those of the calls in which `processes` processes wait. A stored journal
    /// makes this room entry by entry instead.
    pub fn prepay(
        &mut self,
        messages: usize,
        size: usize,
        processes: usize,
    ) -> Result<(), AllocError>
        ensures records { self.new.records ≡ self.old.records }
        ensures entry_room { self.old.entry_room ≤ self.new.entry_room }
        ensures byte_room { self.old.byte_room ≤ self.new.byte_room }
        ensures stored { self.new.stored ≡ self.old.stored }
        ensures succeeds { self.old.stored ≡ true → IsOk result }
        ensures keeps { (k : ℕ) → CanRead self.old k → CanRead self.new k }
    {
        match &mut self.kind {
            Kind::Stored(_) => Ok(()),
            Kind::Unstored(unstored) => unstored.prepay(messages, size, processes),
        }
    }

    /// Appends an entry with its payload, made on queue q. There must be room for it. Takes no
    /// memory.
    #[inline(always)]
    pub fn push(&mut self, entry: Entry, payload: &[u8], q: u64)
        requires entry_room { 0 < self.old.entry_room }
        requires byte_room { length payload.now ≤ self.old.byte_room }
        requires queue { GoesTo self.old.records
            (record { entry = entry; payload = payload.now }) q }
        ensures records { self.new.records ≡ record { entry = entry; payload = payload.now } ∷
            self.old.records }
        ensures entry_room { self.old.entry_room ≤ self.new.entry_room + 1 }
        ensures byte_room { self.old.stored ≡ true →
            self.old.byte_room ≤ self.new.byte_room + length payload.now }
        ensures no_bytes { payload.now ≡ [] → self.new.byte_room ≡ self.old.byte_room }
        ensures stored { self.new.stored ≡ self.old.stored }
        ensures kept { is_kept entry.call entry.reply ≡ true →
            CanRead self.new (length self.old.records) }
        ensures keeps { (k : ℕ) → is_place k (ended_last self.old.records) ≡ false →
            CanRead self.old k → CanRead self.new k }
    {
        match &mut self.kind {
            Kind::Stored(journal) => journal.push(entry, payload),
            Kind::Unstored(unstored) => unstored.push(entry, payload, q),
        }
    }

    /// The number of entries.
    #[inline(always)]
    pub fn len(&self) -> u64
        ensures count { result ≡ length self.now.records }
        ensures bound { result < 2 ^ 63 }
    {
        match &self.kind {
            Kind::Stored(journal) => journal.len(),
            Kind::Unstored(unstored) => unstored.len(),
        }
    }

    /// The number of payload bytes of all entries.
    pub fn payload_bytes(&self) -> u64
        ensures count { self.now.stored ≡ true → result ≡ payload_bytes self.now.records }
        ensures bound { result < 2 ^ 63 }
    {
        match &self.kind {
            Kind::Stored(journal) => journal.payload_bytes(),
            Kind::Unstored(_) => 0,
        }
    }

    /// The payload of entry `place` and the priority of the message that it sends, if that can be
    /// read.
    #[inline(always)]
    pub fn message(&self, place: u64) -> (Option<&[u8]>, u32)
        ensures payload { CanRead self.now place →
            option_map (λ p. p.now) result.0 ≡ option_map (λ r. r.payload)
            (record_at self.now.records place) }
        ensures priority { CanRead self.now place → result.1 ≡ priority self.now.records place }
    {
        match &self.kind {
            Kind::Stored(journal) => (journal.payload(place), priority_in(journal, place)),
            Kind::Unstored(unstored) => unstored.message(place),
        }
    }

    /// Whether the journal is stored.
    pub fn is_stored(&self) -> bool
        ensures { result ≡ self.now.stored }
    {
        match &self.kind {
            Kind::Stored(_) => true,
            Kind::Unstored(_) => false,
        }
    }

    /// The stored journal.
    pub fn journal(&self) -> &Journal
        requires { self.now.stored ≡ true }
        ensures { result.now.records ≡ self.now.records }
    {
        match &self.kind {
            Kind::Stored(journal) => journal,
            Kind::Unstored(_) => unreachable!(),
        }
    }

    /// Returns the stored journal, and drops the rest.
    pub fn into_journal(self) -> Journal
        requires { self.stored ≡ true }
        ensures { result.records ≡ self.records }
    {
        match self.kind {
            Kind::Stored(journal) => journal,
            Kind::Unstored(_) => unreachable!(),
        }
    }

    /// The history of a journal that is not stored.
    pub fn into_history(self) -> History
        requires { self.stored ≡ false }
        ensures { result.past ≡ self.records }
    {
        match self.kind {
            Kind::Stored(_) => unreachable!(),
            Kind::Unstored(unstored) => unstored.into_history(),
        }
    }

    /// Tells the journal that a queue no longer exists, so that what is lost with it will not be
    /// read again. A stored journal keeps that too.
    pub fn forget(&mut self, queue: u64)
        ensures records { self.new.records ≡ self.old.records }
        ensures entry_room { self.old.entry_room ≤ self.new.entry_room }
        ensures byte_room { self.new.byte_room ≡ self.old.byte_room }
        ensures stored { self.new.stored ≡ self.old.stored }
        ensures keeps { (k : ℕ) → home self.old.records k ≢ Some queue →
            CanRead self.old k → CanRead self.new k }
    {
        match &mut self.kind {
            Kind::Stored(_) => {}
            Kind::Unstored(unstored) => unstored.forget(queue),
        }
    }
}

/// The priority of the message sent by entry `place` of a journal.
pub fn priority_in(journal: &Journal, place: u64) -> u32
    ensures { result ≡ priority journal.now.records place }
{
    match journal.entry(place) {
        Some(entry) => entry.call.priority(),
        None => 0,
    }
}
