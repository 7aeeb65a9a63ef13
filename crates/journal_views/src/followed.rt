//! Tables that are updated for each entry of a journal: what each process holds and each caller waits
//! for, which queues are bound to their names, and on which queue each entry is made. They save
//! looking back for the open of a descriptor.
ghost use Rattle.std.specs.Prelude.{◌≡◌, ◌+◌, ◌<◌, ◌≤◌, ℕ, Bool, IfOk, OnOk, [], ◌∷◌, length, not, None, replicate};
ghost use Rattle.std.specs.List.{filter};
ghost use Rattle.std.specs.Str.{bytes_eq};
ghost use Rattle.std.specs.Option.{unwrap_or};
ghost use Rattle.mq_model.specs.Limits.{most_processes};
ghost use Rattle.mq_model.specs.Record.{first};
ghost use Rattle.mq_model.specs.Threads.{owner_of};
ghost use Rattle.mq_model.specs.Names.{creates, name_of, unlinks};
ghost use Rattle.mq_model.specs.Descriptors.{called_queue, is_held, is_named, is_on, opened_queue};
ghost use Rattle.mq_model.specs.Legality.{Legal};
ghost use Rattle.mq_model.specs.Owners.{free_owner};
ghost use Rattle.mq_model.specs.OwnersNoted.{FitsSlots, KeepsMirror};
ghost use Rattle.mq_model.specs.Callers.{free_caller};
ghost use Rattle.mq_model.specs.CallersNoted.{KeepsCallers};
ghost use Rattle.journal_views.specs.Followed.{AreBound, Follows, bound_in, called_in, bound_after};

use mq_model::callers::{self, Caller};
use mq_model::entries::{Call, Entry, Reply};
use mq_model::journals::Journal;
use mq_model::limits::{CALLERS, PROCESSES};
use mq_model::owners::{self, Owner};
use std::alloc::{AllocError, Global};

/// The tables after the entries of a journal.
#[derive(Drop)]
pub(crate) struct Followed {
    // process p has the row at index p
    pub(crate) owners: Vec<Owner>,
    // caller p has the row at index p
    pub(crate) callers: Vec<Caller>,
    // the queues that are bound to their names, the latest first
    bound: Vec<u64>,
    // the queue on which each entry is made, through the descriptor that its call names
    on: Vec<Option<u64>>,
}

// The queue that a call is made on.
fn called_queue(owners: &[Owner], p: u32, call: Call) -> Option<u64>
    ensures { result ≡ called_in owners.now p call }
{
    match owners::held(owners, p, call.descriptor()?) {
        None => None,
        Some(h) => Some(h.queue),
    }
}

/// The name that a queue was created under.
pub(crate) fn name_of(journal: &Journal, q: u64) -> &[u8]
    ensures { result.now ≡ name_of journal.now.records q }
{
    match journal.payload(q) {
        Some(name) => name,
        None => &[],
    }
}

// Whether a queue was created under a name.
fn is_under(journal: &Journal, q: u64, name: &[u8]) -> bool
    ensures { result ≡ bytes_eq (name_of journal.now.records q) name.now }
{
    name_of(journal, q) == name
}

// The first of these queues that was created under a name.
fn bound(journal: &Journal, queues: &[u64], name: &[u8]) -> Option<u64>
    ensures { result ≡ bound_in journal.now.records queues.now name.now }
{
    for q in queues {
        if is_under(journal, *q, name) {
            return Some(*q);
        }
    }
    None
}

#[tactic(auto, using(crate::proofs::Lists::lists))]
// These queues without those that were created under a name.
fn without(
    alloc: Global,
    journal: &Journal,
    queues: &[u64],
    name: &[u8],
) -> Result<Vec<u64>, AllocError>
    ensures { IfOk result (λ left. left.items ≡
        filter (λ q. not (bytes_eq (name_of journal.now.records q) name.now)) queues.now) }
{
    let mut left = Vec::new(alloc);
    for q in queues {
        if !is_under(journal, *q, name) {
            left.push(*q)?;
        }
    }
    Ok(left)
}

// The queue that an entry opened, or on which it waits.
fn entry_queue(
    journal: &Journal,
    k: u64,
    queues: &[u64],
    reply: Reply,
    payload: &[u8],
    on: Option<u64>,
) -> u64
    requires place { k ≤ length journal.now.records }
    requires bound { AreBound journal.now.records k queues.now }
    ensures opened { (d : ℕ) (created : Bool) → reply ≡ Reply.Opened d created →
        result ≡ opened_queue (first k journal.now.records) payload.now created }
    ensures waits { reply ≡ Reply.Waits → result ≡ unwrap_or on 0 }
{
    match reply {
        Reply::Opened { created: true, .. } => k,
        Reply::Opened { created: false, .. } => bound(journal, queues, payload).unwrap_or(0),
        _ => on.unwrap_or(0),
    }
}

// Updates which queues are bound to their names, for the entry at place `k`.
fn note_bound(
    alloc: Global,
    journal: &Journal,
    k: u64,
    queues: &mut Vec<u64>,
    entry: Entry,
    name: &[u8],
) -> Result<(), AllocError>
    ensures { OnOk result (queues.new.items ≡
        bound_after journal.now.records k entry name.now queues.old.items) }
{
    if entry.call.creates(entry.reply) {
        queues.insert(0, k)?;
    } else if entry.call.unlinks(entry.reply) {
        *queues = without(alloc, journal, queues, name)?;
    }
    Ok(())
}

// A table of processes without descriptors.
fn free_owners(alloc: Global) -> Result<Vec<Owner>, AllocError>
    ensures { IfOk result (λ v. v.items ≡ replicate (most_processes + 1) free_owner) }
{
    let owners = vec![in alloc; Owner::free(); PROCESSES as usize + 1]?;
    Ok(owners)
}

// A table of `count` callers without waits.
fn free_callers(alloc: Global, count: usize) -> Result<Vec<Caller>, AllocError>
    ensures { IfOk result (λ v. v.items ≡ replicate count free_caller) }
{
    let callers = vec![in alloc; Caller::free(); count]?;
    Ok(callers)
}

// The tables before the first entry.
fn start(alloc: Global, journal: &Journal) -> Result<Followed, AllocError>
    ensures { IfOk result (Follows journal.now.records 0) }
{
    let owners = free_owners(alloc)?;
    let callers = free_callers(alloc, CALLERS as usize + 1)?;
    Ok(Followed {
        owners,
        callers,
        bound: Vec::new(alloc),
        on: Vec::new(alloc),
    })
}

// Updates the table of processes for an entry.
fn note_owner(owners: &mut Vec<Owner>, entry: Entry, queue: u64)
    requires process { owner_of entry.process < length owners.old.items }
    requires numbers { FitsSlots entry.call entry.reply }
    ensures count { length owners.new.items ≡ length owners.old.items }
    ensures mirror { KeepsMirror owners.old.items entry queue owners.new.items }
{
    owners::note(owners, entry, queue);
}

// Updates the table of callers for an entry.
fn note_caller(callers: &mut Vec<Caller>, here: u64, entry: Entry, queue: u64)
    requires caller { entry.process < length callers.old.items }
    ensures count { length callers.new.items ≡ length callers.old.items }
    ensures mirror { KeepsCallers callers.old.items here entry queue callers.new.items }
{
    callers::note(callers, here, entry, queue);
}

// Updates the tables for the entry at place `k`.
fn note(alloc: Global, journal: &Journal, k: u64, f: &mut Followed) -> Result<(), AllocError>
    requires place { k < length journal.now.records }
    requires legal { Legal (first (k + 1) journal.now.records) }
    requires follows { Follows journal.now.records k f.old }
    ensures { OnOk result (Follows journal.now.records (k + 1) f.new) }
{
    let (entry, payload) = journal.record(k);
    let on = called_queue(&f.owners, entry.process, entry.call);
    let queue = entry_queue(journal, k, &f.bound, entry.reply, payload, on);
    note_bound(alloc, journal, k, &mut f.bound, entry, payload)?;
    note_owner(&mut f.owners, entry, queue);
    note_caller(&mut f.callers, k, entry, queue);
    f.on.push(on)?;
    Ok(())
}

/// The tables of a journal.
pub(crate) fn follow(alloc: Global, journal: &Journal) -> Result<Followed, AllocError>
    requires { Legal journal.now.records }
    ensures { IfOk result (Follows journal.now.records (length journal.now.records)) }
{
    let mut f = start(alloc, journal)?;
    for k in 0..journal.len() {
        note(alloc, journal, k, &mut f)?;
    }
    Ok(f)
}

impl Followed {
    /// Whether the entry at a place is made on queue `q`.
    pub(crate) fn is_on(&self, journal: &Journal, place: u64, entry: Entry, q: u64) -> bool
        requires follows { Follows journal.now.records (length journal.now.records) self.now }
        requires place { place < length journal.now.records }
        requires entry { first (place + 1) journal.now.records ≡
            record { entry = entry; payload = name_of journal.now.records place } ∷
            first place journal.now.records }
        ensures { result ≡ is_on (first place journal.now.records) entry q }
    {
        match self.on[place as usize] {
            None => false,
            Some(queue) => queue == q,
        }
    }

    /// Whether a queue is bound to its name.
    pub(crate) fn is_named(&self, journal: &Journal, q: u64) -> bool
        requires { Follows journal.now.records (length journal.now.records) self.now }
        ensures { result ≡ is_named journal.now.records q }
    {
        let name = name_of(journal, q);
        match bound(journal, &self.bound, name) {
            None => false,
            Some(found) => found == q,
        }
    }

    /// Whether some process holds a descriptor of a queue.
    pub(crate) fn is_held(&self, journal: &Journal, q: u64) -> bool
        requires { Follows journal.now.records (length journal.now.records) self.now }
        ensures { result ≡ is_held journal.now.records q }
    {
        owners::is_held(&self.owners, q)
    }
}
