//! The journal.
ghost use Rattle.mq_model.specs.Stored.{needs, record_of};
ghost use Rattle.std.specs.Prelude.{◌≡◌, ◌+◌, ◌<◌, ◌≤◌, [], ◌∷◌, ◌++◌, ◌↔◌, IsTrue, length, OnOk, IsOk, vec_len, vec_capacity};

use crate::entries::{Call, Entry};
use crate::stored::{Stored, store_call, store_reply, stored_call, stored_reply};
use std::alloc::{AllocError, Global};
use std::marker::Model;

/// The list of all calls made, with their replies and payloads. The place of an entry is its
/// sequence number, from 0. The payload is the whole name of an open or unlink, or the message of a
/// send that did not fail, and otherwise empty.
#[derive(Debug, Drop)]
pub struct Journal {
    stored: Vec<Stored>,
    // the calls that do not fit into a stored entry
    apart: Vec<Call>,
    bytes: Vec<u8>,
}

impl Model for Journal {
    ghost use Rattle.mq_model.specs.Record.{Shown};

    ghost Value = { Shown };

    ghost use Rattle.mq_model.specs.Stored.{shown, IsStored};

    ghost view = { shown };

    ghost invariant = { IsStored };
}

// Appends bytes, for which there must be room. It is fast if there are none.
#[inline(always)]
fn add_bytes(bytes: &mut Vec<u8>, more: &[u8])
    requires { vec_len bytes.old + length more.now ≤ vec_capacity bytes.old }
    ensures items { bytes.new.items ≡ bytes.old.items ++ more.now }
    ensures len { vec_len bytes.new ≡ vec_len bytes.old + length more.now }
    ensures capacity { vec_capacity bytes.old ≤ vec_capacity bytes.new }
    ensures none { more.now ≡ [] → vec_capacity bytes.new ≡ vec_capacity bytes.old }
{
    if more.is_empty() {
        return;
    }
    let _ = bytes.extend_from_slice(more);
}

// The entry of a stored form.
#[inline(always)]
fn entry_of(apart: &[Call], stored: Stored) -> Entry
    requires start { stored.start ≤ stored.end }
    requires apart { needs stored.call ≤ length apart.now }
    ensures { result ≡ (record_of apart.now [] stored).entry }
{
    Entry {
        process: stored.process,
        call: stored_call(apart, stored.call, stored.end - stored.start),
        reply: stored_reply(stored.reply),
    }
}

impl Journal {
    ghost use Rattle.std.specs.Prelude.{Some, ◌^◌, IfOk};
    ghost use Rattle.std.specs.Option.{option_map};
    ghost use Rattle.mq_model.specs.Record.{Record, record_at, first, payload_bytes};

    /// The empty journal. It takes no memory.
    pub fn new(alloc: Global) -> Journal
        ensures { result.records ≡ [] }
    {
        Journal {
            stored: Vec::new(alloc),
            apart: Vec::new(alloc),
            bytes: Vec::new(alloc),
        }
    }

    /// The empty journal, with room for exactly this many entries and payload bytes. Fails if
    /// memory was refused.
    pub fn with_room(alloc: Global, entries: usize, bytes: usize) -> Result<Journal, AllocError>
        ensures records { IfOk result (λ j. j.records ≡ []) }
        ensures room { IfOk result (λ j. (j.entry_room ≡ entries) × (j.byte_room ≡ bytes)) }
    {
        Ok(Journal {
            stored: Vec::with_capacity(alloc, entries)?,
            apart: Vec::with_capacity(alloc, entries)?,
            bytes: Vec::with_capacity(alloc, bytes)?,
        })
    }

    /// Whether there is room for this many further entries and payload bytes.
    #[inline(always)]
    pub fn has_room(&self, entries: usize, bytes: usize) -> bool
        ensures { IsTrue result ↔
            ((entries ≤ self.now.entry_room) × (bytes ≤ self.now.byte_room)) }
    {
        entries <= self.stored.capacity() - self.stored.len()
            && entries <= self.apart.capacity() - self.apart.len()
            && bytes <= self.bytes.capacity() - self.bytes.len()
    }

    /// Makes room for this many further entries and payload bytes. It fails only if memory was
    /// refused, and then loses no room. If there is room for the bytes already, it makes none.
    #[inline(always)]
    pub fn reserve(&mut self, entries: usize, bytes: usize) -> Result<(), AllocError>
        ensures records { self.new.records ≡ self.old.records }
        ensures entry_room { self.old.entry_room ≤ self.new.entry_room }
        ensures byte_room { self.old.byte_room ≤ self.new.byte_room }
        ensures ok { OnOk result ((entries ≤ self.new.entry_room) × (bytes ≤ self.new.byte_room)) }
        ensures succeeds { entries ≤ self.old.entry_room → bytes ≤ self.old.byte_room →
            IsOk result }
        ensures enough { bytes ≤ self.old.byte_room → self.new.byte_room ≡ self.old.byte_room }
    {
        if entries > self.stored.capacity() - self.stored.len() {
            self.stored.reserve(entries)?;
        }
        if entries > self.apart.capacity() - self.apart.len() {
            self.apart.reserve(entries)?;
        }
        if bytes > self.bytes.capacity() - self.bytes.len() {
            self.bytes.reserve(bytes)?;
        }
        Ok(())
    }

    /// Appends an entry with its payload. There must be room for it. Takes no memory.
    #[inline(always)]
    pub fn push(&mut self, entry: Entry, payload: &[u8])
        requires entry_room { 0 < self.old.entry_room }
        requires byte_room { length payload.now ≤ self.old.byte_room }
        ensures records { self.new.records ≡ record { entry = entry; payload = payload.now } ∷
            self.old.records }
        ensures entry_room { self.old.entry_room ≤ self.new.entry_room + 1 }
        ensures byte_room { self.old.byte_room ≤ self.new.byte_room + length payload.now }
        ensures no_bytes { payload.now ≡ [] → self.new.byte_room ≡ self.old.byte_room }
    {
        let start = self.bytes.len();
        add_bytes(&mut self.bytes, payload);
        let end = self.bytes.len();
        let call = store_call(&mut self.apart, entry.call, payload.len());
        let reply = store_reply(entry.reply);
        self.stored.push_reserved(Stored {
            process: entry.process,
            call,
            reply,
            start,
            end,
        });
    }

    /// The number of entries.
    pub fn len(&self) -> u64
        ensures count { result ≡ length self.now.records }
        ensures bound { result < 2 ^ 63 }
    {
        self.stored.len() as u64
    }

    /// The number of payload bytes of all entries.
    pub fn payload_bytes(&self) -> u64
        ensures count { result ≡ payload_bytes self.now.records }
        ensures bound { result < 2 ^ 63 }
    {
        self.bytes.len() as u64
    }

    /// The entry with the sequence number `place`, or `None` if there is none.
    #[inline(always)]
    pub fn entry(&self, place: u64) -> Option<Entry>
        ensures { result ≡ option_map (λ r. r.entry) (record_at self.now.records place) }
    {
        if place >= self.len() {
            return None;
        }
        let s = self.stored[place as usize];
        Some(entry_of(&self.apart, s))
    }

    /// The payload of entry `place`, or `None` if there is none.
    #[inline(always)]
    pub fn payload(&self, place: u64) -> Option<&[u8]>
        ensures { option_map (λ p. p.now) result ≡ option_map (λ r. r.payload)
            (record_at self.now.records place) }
    {
        if place >= self.len() {
            return None;
        }
        let s = self.stored[place as usize];
        Some(&self.bytes[s.start..s.end])
    }

    /// Entry `place` with its payload.
    pub fn record(&self, place: u64) -> (Entry, &[u8])
        requires { place < length self.now.records }
        ensures { first (place + 1) self.now.records ≡
            record { entry = result.0; payload = result.1.now } ∷ first place self.now.records }
    {
        let s = self.stored[place as usize];
        (entry_of(&self.apart, s), &self.bytes[s.start..s.end])
    }
}
