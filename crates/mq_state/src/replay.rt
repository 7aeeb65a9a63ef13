//! Whether a journal is legal, and if not, where and why, in time nearly linear in its length. The
//! tables of the queues determine the reply to each call, and are updated for each entry.
ghost use Rattle.std.specs.Prelude.{◌≡◌, ◌↔◌, IfOk, IfErr, OnOk, IfSome, None, [], length};
ghost use Rattle.mq_model.specs.Legality.{Legal, IsLegalNext};
ghost use Rattle.mq_ledger.specs.Ledgers.{IsReadable};
ghost use Rattle.mq_state.specs.Kept.{AreThoseOf, HasNotices};
ghost use Rattle.mq_state.specs.Pool.{IsPooled};
ghost use Rattle.mq_state.specs.Tables.{AreAtMost};

use crate::prefixes::Prefix;
use crate::tables::Tables;
use mq_model::entries::{Entry, Reply};
use mq_model::forms::{is_caller, is_payload};
use mq_model::journals::Journal;
use mq_model::limits::PROCESSES;
use mq_model::replies::is_same;
use std::alloc::{AllocError, Global};

/// Why an entry may not follow those before it. If several causes hold, the first of these is
/// reported.
#[derive(Clone, Copy, Debug, PartialEq, Eq)]
pub enum Cause {
    /// The number of the caller is not from 1 to 2,048.
    Process,
    /// The caller may not make this call now. It has an open wait and the call does not end a
    /// wait, or it collects or withdraws when it may not.
    Turn,
    /// The payload is not the name or message that belongs to the call and its reply.
    Payload,
    /// The call gets this reply, not that of the entry.
    Reply(Reply),
}

/// The sequence number of the first entry that is not legal, and why.
#[derive(Clone, Copy, Debug, PartialEq, Eq)]
pub struct Departure {
    pub place: u64,
    pub cause: Cause,
}

/// Why queues of this number of processes cannot continue from a journal.
#[derive(Clone, Copy, Debug, PartialEq, Eq)]
pub enum Misfit {
    /// Memory was refused.
    NoMemory,
    /// The journal is not legal.
    Illegal(Departure),
    /// The entry with this sequence number is of a process above the last.
    Foreign(u64),
    /// The journal, with the entries that end its open waits, exceeds the bounds.
    TooLong,
}

ghost use Rattle.mq_state.specs.Replays.{IsCause, IsDeparture, IsMisfit};

// Why an entry may not follow the entries of the tables; `None` if it may.
fn cause_at(past: &Prefix<'_>, tables: &Tables, entry: Entry, payload: &[u8]) -> Option<Cause>
    requires readable { IsReadable past.now }
    requires tables { AreThoseOf past.now.records tables.now }
    ensures legal { result ≡ None →
        IsLegalNext past.now.records (record { entry = entry; payload = payload.now }) }
    ensures cause { IfSome result (IsCause past.now.records
        (record { entry = entry; payload = payload.now })) }
{
    if !is_caller(entry.process) {
        return Some(Cause::Process);
    }
    if !tables.may_call(past, entry.process, entry.call) {
        return Some(Cause::Turn);
    }
    if !is_payload(entry.call, entry.reply, payload) {
        return Some(Cause::Payload);
    }
    let expected = tables.reply_to(past, entry.process, entry.call, payload);
    if !is_same(entry.reply, expected) {
        return Some(Cause::Reply(expected));
    }
    None
}

/// The first entry that is not legal, and why, or `None` if the journal is legal. `check_history`
/// returns the same sequence number. It reads the journal once. Fails if memory was refused. Beside
/// the journal it takes memory for the queues that exist at any one time, and for the callers.
pub fn replay(alloc: Global, journal: &Journal) -> Result<Option<Departure>, AllocError>
    ensures legal { IfOk result (λ found. (found ≡ None) ↔ Legal journal.now.records) }
    ensures departure { IfOk result (λ found. IfSome found (IsDeparture journal.now.records)) }
{
    let mut tables = Tables::new(alloc, PROCESSES, None, false)?;
    for place in 0..journal.len() {
        let past = Prefix::first(journal, place);
        let (entry, payload) = journal.record(place);
        if let Some(cause) = cause_at(&past, &tables, entry, payload) {
            return Ok(Some(Departure { place, cause }));
        }
        tables.raise(entry.process)?;
        tables.follow(&past, entry, payload)?;
    }
    Ok(None)
}

// Updates the tables of an empty journal for all entries of a journal. It does not check whether
// the journal is too long for the bounds.
pub(crate) fn follow_all(tables: &mut Tables, journal: &Journal) -> Result<(), Misfit>
    requires empty { AreThoseOf [] tables.old }
    requires pool { IsPooled None tables.old }
    requires notices { HasNotices tables.old.bounds 0 tables.old.n tables.old.inboxes.items }
    ensures tables { OnOk result (AreThoseOf journal.now.records tables.new) }
    ensures pool { OnOk result (IsPooled None tables.new) }
    ensures notices { OnOk result (HasNotices tables.old.bounds (length journal.now.records)
        tables.old.n tables.new.inboxes.items) }
    ensures processes { OnOk result (AreAtMost tables.old.n journal.now.records) }
    ensures same { (tables.new.n ≡ tables.old.n) × (tables.new.bounds ≡ tables.old.bounds) }
    ensures misfit { IfErr result (IsMisfit journal.now.records tables.old.n tables.old.bounds) }
{
    for place in 0..journal.len() {
        let past = Prefix::first(journal, place);
        let (entry, payload) = journal.record(place);
        if let Some(cause) = cause_at(&past, tables, entry, payload) {
            return Err(Misfit::Illegal(Departure { place, cause }));
        }
        if entry.process > tables.processes() {
            return Err(Misfit::Foreign(place));
        }
        if tables.follow(&past, entry, payload).is_err() {
            return Err(Misfit::NoMemory);
        }
    }
    Ok(())
}
