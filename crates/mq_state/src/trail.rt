//! A journal that grows call by call, with the replies that the definitions give.
ghost use Rattle.std.specs.Prelude.{◌≡◌, [], Some, None, IfOk, IsTrue, IsFalse, is_some, OnErr};
ghost use Rattle.mq_model.specs.Legality.{reply_to, Legal};
ghost use Rattle.mq_state.specs.Trails.{can_call, with_call};
ghost use Rattle.mq_model.specs.Descriptors.{held};
ghost use Rattle.mq_model.specs.Notices.{registered};
ghost use Rattle.mq_model.specs.Waits.{open_wait};
ghost use Rattle.std.specs.Option.{option_and_then, option_map};

mod reading;

use crate::prefixes::Prefix;
use crate::tables::Tables;
use crate::tables::calls::payload_of;
use mq_model::entries::{Call, Entry, Reply};
use mq_model::forms::{is_caller, is_payload};
use mq_model::journals::Journal;
use mq_model::limits::PROCESSES;
use std::alloc::{AllocError, Global};
use std::marker::Model;

/// A legal journal and the tables of the queues after it. It grows by one call at a time. Contracts
/// see the records. If memory is refused in a call, nothing changes.
#[derive(Drop)]
pub struct Trail {
    journal: Journal,
    tables: Tables,
}

impl Model for Trail {
    ghost use Rattle.mq_model.specs.Record.{Past};

    ghost Value = { Past };

    ghost use Rattle.mq_state.specs.TrailModel.{shown, IsTracked};

    ghost view = { shown };

    ghost invariant = { IsTracked };
}

impl Trail {
    /// A journal without calls.
    pub fn new(alloc: Global) -> Result<Trail, AllocError>
        ensures { IfOk result (λ trail. trail ≡ []) }
    {
        Ok(Trail {
            journal: Journal::new(alloc),
            tables: Tables::new(alloc, PROCESSES, None, false)?,
        })
    }

    /// The reply that a call of caller p with these bytes would get.
    pub fn reply(&self, p: u32, call: Call, given: &[u8]) -> Reply
        ensures { result ≡ reply_to self.now p call given.now }
    {
        self.tables
            .reply_to(&Prefix::of(&self.journal), p, call, given)
    }

    /// Whether caller p may make a call with these bytes now.
    pub fn can_make(&self, p: u32, call: Call, given: &[u8]) -> bool
        ensures { result ≡ can_call self.now p call given.now }
    {
        let past = Prefix::of(&self.journal);
        if !is_caller(p) || !self.tables.may_call(&past, p, call) {
            return false;
        }
        let reply = self.tables.reply_to(&past, p, call, given);
        is_payload(call, reply, payload_of(call, reply, given))
    }

    /// Makes a call of caller p with these bytes and returns true, if the caller may make it now.
    /// Otherwise it returns false and changes nothing.
    pub fn make(&mut self, p: u32, call: Call, given: &[u8]) -> Result<bool, AllocError>
        ensures made { IfOk result (λ made. IsTrue made →
            with_call self.old p call given.now ≡ Some self.new) }
        ensures none { IfOk result (λ made. IsFalse made →
            with_call self.old p call given.now ≡ None) }
        ensures stays { IfOk result (λ made. IsFalse made → self.new ≡ self.old) }
        ensures err { OnErr result (self.new ≡ self.old) }
    {
        let past = Prefix::of(&self.journal);
        if !is_caller(p) || !self.tables.may_call(&past, p, call) {
            return Ok(false);
        }
        let reply = self.tables.reply_to(&past, p, call, given);
        let payload = payload_of(call, reply, given);
        if !is_payload(call, reply, payload) {
            return Ok(false);
        }
        self.tables.raise(p)?;
        let entry = Entry {
            process: p,
            call,
            reply,
        };
        self.journal.reserve(1, payload.len())?;
        let past = Prefix::of(&self.journal);
        self.tables.follow(&past, entry, payload)?;
        self.journal.push(entry, payload);
        Ok(true)
    }

    /// A copy. Fails if memory was refused.
    #[tactic(auto, using(crate::proofs::Copies::same_are_those))]
    pub fn copy(&self, alloc: Global) -> Result<Trail, AllocError>
        ensures { IfOk result (λ trail. trail ≡ self.now) }
    {
        Ok(Trail {
            journal: copy_journal(alloc, &self.journal)?,
            tables: self.tables.copy()?,
        })
    }

    /// Caller p has an open wait.
    pub fn waits(&self, p: u32) -> bool
        ensures { result ≡ is_some (open_wait self.now p) }
    {
        self.tables.wait(p).is_some()
    }

    /// The queue of descriptor d of caller p's process, if it holds one.
    pub fn held_queue(&self, p: u32, d: u32) -> Option<u64>
        ensures { result ≡ option_map (λ h. h.queue) (held self.now p d) }
    {
        self.tables.held_queue(&Prefix::of(&self.journal), p, d)
    }

    /// Whether a process is registered for notification on the queue of descriptor d of process p.
    pub fn has_registration(&self, p: u32, d: u32) -> bool
        ensures { result ≡ is_some (option_and_then (registered self.now)
            (option_map (λ h. h.queue) (held self.now p d))) }
    {
        self.tables
            .held_registration(&Prefix::of(&self.journal), p, d)
            .is_some()
    }

    /// Drops the tables and returns the journal.
    pub fn into_journal(self) -> Journal
        ensures records { result.records ≡ self }
        ensures legal { Legal result.records }
    {
        self.journal
    }

    /// The journal.
    pub fn journal(&self) -> &Journal
        ensures { result.now.records ≡ self.now }
    {
        &self.journal
    }
}

// A journal with the same records.
fn copy_journal(alloc: Global, journal: &Journal) -> Result<Journal, AllocError>
    ensures { IfOk result (λ copy. copy.records ≡ journal.now.records) }
{
    let mut copy = Journal::new(alloc);
    copy.reserve(journal.len() as usize, journal.payload_bytes() as usize)?;
    for place in 0..journal.len() {
        let (entry, payload) = journal.record(place);
        copy.reserve(1, payload.len())?;
        copy.push(entry, payload);
    }
    Ok(copy)
}
