//! The tables beside the journal, and how an entry updates them.
ghost use Rattle.std.specs.Prelude.{◌≡◌, ◌<◌, ◌≤◌, ◌+◌, IfOk, Some, None, ℕ, length, [], replicate};
ghost use Rattle.mq_model.specs.declared.entries.Registration.{Registration};
ghost use Rattle.mq_model.specs.Descriptors.{held};
ghost use Rattle.mq_model.specs.Callers.{waits_count, free_caller};
ghost use Rattle.mq_model.specs.Owners.{free_owner};
ghost use Rattle.std.specs.Option.{option_map, unwrap_or};
ghost use Rattle.mq_model.specs.Names.{bound_queue, attributes_given};
ghost use Rattle.mq_state.specs.Tables.{entry_queue, last_process};
ghost use Rattle.mq_ledger.specs.Ledgers.{IsReadable};
ghost use Rattle.mq_model.specs.Legality.{Legal};
ghost use Rattle.mq_state.specs.Kept.{Mirrors, notice_room};
ghost use Rattle.mq_state.specs.Pool.{order_count};

pub(crate) mod calls;
mod copies;
mod facts;
mod raising;
mod room;
mod waiting;

use crate::moves::{Moves, WaitMove};
use crate::notices::Inbox;
use crate::prefixes::Prefix;
use crate::queues::Queue;
use crate::{notices, queues};
use mq_model::bounds::Bounds;
use mq_model::callers::Caller;
use mq_model::entries::{Call, Description, Entry};
use mq_model::owners::Owner;
use mq_model::{callers, error_order, limits, owners};
use mq_slots::Slots;
use std::alloc::{AllocError, Global};

/// What each process holds and each caller waits for, and the queues that exist. The row and the
/// inbox of process p, and the row of caller p, are at index p.
#[derive(Debug, Drop)]
pub struct Tables {
    alloc: Global,
    n: u32,
    bounds: Option<Bounds>,
    pub(crate) owners: Vec<Owner>,
    pub(crate) callers: Vec<Caller>,
    // the number of callers with an open wait
    waits: usize,
    // the call in which each caller waits, if it does
    calls: Vec<Call>,
    pub(crate) queues: Vec<Queue>,
    // message slots for later queues, if the tables have bounds
    spares: Vec<Slots>,
    pub(crate) inboxes: Vec<Inbox>,
    // whether an open takes the memory that later calls on its queue need
    pub(crate) is_prepaid: bool,
    // The index at which a queue was last found, by the remainder of its sequence number. It may be
    // wrong.
    hints: [u8; HINTS],
}

/// The number of notices of each process for which prepaid tables have room: one from each queue,
/// and as many again that the process has not taken.
const PREPAID_NOTICES: usize = 128;

/// The number of hints.
const HINTS: usize = 64;

impl Tables {
    ghost use Rattle.mq_state.specs.Tables.{TablesMirror, HasNoticeRoom};
    ghost use Rattle.mq_state.specs.Kept.{HasNotices};
    ghost use Rattle.mq_state.specs.WaitCounts.{KnowWaits};
    ghost use Rattle.mq_state.specs.Pool.{IsPooled};

    /// The tables of callers 1 to n and their processes, without descriptors, notices or waits, and
    /// without queues. With bounds they have room for everything that the bounds allow. Prepaid
    /// tables have room for the notices of each process.
    pub fn new(
        alloc: Global,
        n: u32,
        bounds: Option<Bounds>,
        is_prepaid: bool,
    ) -> Result<Tables, AllocError>
        requires { n ≤ 2048 }
        ensures empty { IfOk result (λ t. (t.n ≡ n) ×
            TablesMirror [] t.n t.owners.items t.callers.items t.queues.items t.inboxes.items ×
            (waits_count t.callers.items ≡ 0) × (t.waits ≡ 0) ×
            HasNoticeRoom t.queues.items t.inboxes.items) }
        ensures known { IfOk result (λ t. KnowWaits t.callers.items t.queues.items) }
        ensures bounds { IfOk result (λ t. t.bounds ≡ bounds) }
        ensures calls { IfOk result (λ t. length t.calls.items ≡ n + 1) }
        ensures notices { IfOk result (λ t. HasNotices bounds 0 n t.inboxes.items) }
        ensures pool { IfOk result (IsPooled None) }
    {
        let count = n as usize + 1;
        let processes = last_process(n) as usize + 1;
        let owners = free_owners(alloc, processes)?;
        let callers = free_callers(alloc, count)?;
        let calls = vec![in alloc; Call::Collect; count]?;
        let room = notice_room(bounds)?.max(if is_prepaid { PREPAID_NOTICES } else { 0 });
        let inboxes = notices::empty(alloc, processes, room)?;
        let orders = order_count(bounds);
        let queues = Vec::with_capacity(alloc, orders)?;
        let spares = queues::spare_orders(alloc, orders)?;
        Ok(Tables {
            alloc,
            n,
            bounds,
            owners,
            callers,
            waits: 0,
            calls,
            queues,
            spares,
            inboxes,
            is_prepaid,
            hints: [0; HINTS],
        })
    }

    // The index at which queue q was last found, or any other.
    #[inline(always)]
    fn hint(&self, q: u64) -> usize {
        usize::from(self.hints[q as usize % HINTS])
    }

    // The same for the queue of a descriptor.
    #[inline(always)]
    fn hint_of(&self, held: Option<Description>) -> usize {
        match held {
            Some(h) => self.hint(h.queue),
            None => 0,
        }
    }

    /// The number of the last caller.
    pub fn processes(&self) -> u32
        ensures { result ≡ self.now.n }
    {
        self.n
    }

    // The queue of the descriptor that a call names; if there is none, the sequence number of the
    // call's entry.
    fn descriptor_queue(&self, journal: &Prefix<'_>, p: u32, d: u32) -> u64
        requires mirror { Mirrors journal.now self.now }
        ensures { result ≡ unwrap_or (option_map (λ h. h.queue) (held journal.now.records p d))
            (length journal.now.records) }
    {
        queue_of(journal, owners::held(&self.owners, p, d))
    }

    // The queue that a name is bound to; if there is none, the sequence number of the call's entry.
    fn named_queue(&self, journal: &Prefix<'_>, name: &[u8]) -> u64
        requires legal { Legal journal.now.records }
        requires readable { IsReadable journal.now }
        requires mirror { Mirrors journal.now self.now }
        ensures { result ≡ unwrap_or (bound_queue journal.now.records name.now)
            (length journal.now.records) }
    {
        match self.bound(journal, name) {
            Some(q) => q,
            None => journal.len(),
        }
    }

    // The queue that an entry is about.
    #[inline(always)]
    fn entry_queue(&self, journal: &Prefix<'_>, p: u32, call: Call, name: &[u8]) -> u64
        requires legal { Legal journal.now.records }
        requires readable { IsReadable journal.now }
        requires mirror { Mirrors journal.now self.now }
        ensures { result ≡ entry_queue journal.now.records p call name.now }
    {
        match call {
            Call::MqOpen { .. } | Call::MqUnlink => self.named_queue(journal, name),
            Call::MqClose { d }
            | Call::MqSend { d, .. }
            | Call::MqReceive { d, .. }
            | Call::MqTimedSend { d, .. }
            | Call::MqTimedReceive { d, .. }
            | Call::MqGetattr { d }
            | Call::MqSetattr { d, .. }
            | Call::MqNotify { d, .. } => self.descriptor_queue(journal, p, d),
            Call::NextNotice | Call::Collect | Call::Withdraw { .. } => journal.len(),
        }
    }
}

impl Tables {
    ghost use Rattle.std.specs.Prelude.{vec_len, vec_capacity};
    ghost use Rattle.mq_model.specs.Callers.{wait_in};
    ghost use Rattle.mq_model.specs.OwnersNoted.{noted, FitsSlots};
    ghost use Rattle.mq_model.specs.CallersNoted.{noted_waits};
    ghost use Rattle.mq_model.specs.Threads.{owner_of};
    ghost use Rattle.mq_state.specs.Moves.{wait_move};
    ghost use Rattle.mq_state.specs.Queues.{noted_queues, registration_in, AllowsIn, HaveRisingPlaces};
    ghost use Rattle.mq_state.specs.Inboxes.{notices_in, room_in};
    ghost use Rattle.mq_state.specs.Pool.{IsPooled};
    ghost use Rattle.mq_state.specs.Tables.{BringsOrder, MovesOwnWait, calls_noted, notices_brought, noted_values, with_fresh};

    // Updates the inboxes for an entry of caller p on queue q: what it adds and takes.
    #[inline]
    fn note_notices(&mut self, p: u32, q: u64, moves: Moves)
        requires process { owner_of p < length self.old.inboxes.items }
        requires room { (n : Registration) → registration_in self.old.queues.items q ≡ Some n →
            0 < room_in self.old.inboxes.items n.process }
        ensures same { self.new ≡ record self.old { inboxes = self.new.inboxes } }
        ensures count { length self.new.inboxes.items ≡ length self.old.inboxes.items }
        ensures inboxes { (k : ℕ) →
            notices_in self.new.inboxes.items k ≡ noted_values p
            (registration_in self.old.queues.items q) moves k
            (notices_in self.old.inboxes.items k) }
        ensures notice_room { (k : ℕ) →
            room_in self.old.inboxes.items k ≤ room_in self.new.inboxes.items k + notices_brought
            (registration_in self.old.queues.items q) moves.notified k }
    {
        if moves.notified {
            if let Some(n) = queues::registration(&self.queues, q) {
                notices::push(&mut self.inboxes, n.process, n.value);
            }
        }
        if moves.given {
            notices::take(&mut self.inboxes, p);
        }
    }

    // Updates the tables of processes and callers, and the number of those that wait, for an entry
    // on queue q.
    #[inline(always)]
    fn note_process(&mut self, here: u64, entry: Entry, q: u64, wait: WaitMove)
        requires process { owner_of entry.process < length self.old.owners.items }
        requires caller { entry.process < length self.old.callers.items }
        requires numbers { FitsSlots entry.call entry.reply }
        requires few { length self.old.callers.items ≤ 2049 }
        requires waits { self.old.waits ≡ waits_count self.old.callers.items }
        requires moves { wait ≡ wait_move entry.reply }
        requires own { MovesOwnWait wait (wait_in self.old.callers.items entry.process) }
        requires calls { entry.process < length self.old.calls.items }
        ensures same { self.new ≡ record self.old {
          owners = self.new.owners;
          callers = self.new.callers;
          waits = self.new.waits;
          calls = self.new.calls;
        } }
        ensures calls { self.new.calls.items ≡ calls_noted wait entry.process entry.call self.old.calls.items }
        ensures owners { self.new.owners.items ≡
            noted self.old.owners.items entry.process entry.call entry.reply q }
        ensures callers { self.new.callers.items ≡
            noted_waits self.old.callers.items here entry.process entry.call entry.reply q }
        ensures waits { self.new.waits ≡ waits_count
            (noted_waits self.old.callers.items here entry.process entry.call entry.reply q) }
    {
        owners::note(&mut self.owners, entry, q);
        callers::note(&mut self.callers, here, entry, q);
        match wait {
            WaitMove::Stays => {}
            WaitMove::Begins => {
                self.waits += 1;
                self.calls[entry.process as usize] = entry.call;
            }
            WaitMove::Ends => self.waits -= 1,
        }
    }

    // Updates the table of queues for an entry on queue q, after the table of processes was
    // updated. Adds the queue that the entry creates, with the slots `fresh`.
    #[inline(always)]
    fn note_queues(
        &mut self,
        here: u64,
        entry: Entry,
        q: u64,
        moves: Moves,
        fresh: Option<Slots>,
        hint: usize,
    )
        requires rising { HaveRisingPlaces self.old.queues.items }
        requires allows { AllowsIn self.old.queues.items q moves.line }
        requires brings { BringsOrder entry.call entry.reply (vec_len self.old.queues)
            (vec_capacity self.old.queues) fresh }
        ensures same { self.new ≡ record self.old {
          queues = self.new.queues;
          spares = self.new.spares;
          hints = self.new.hints;
        } }
        ensures queues { self.new.queues.items ≡ with_fresh fresh (attributes_given entry.call) here
            (noted_queues self.old.owners.items here entry q moves self.old.queues.items) }
        ensures pool { IsPooled fresh self.old → IsPooled None self.new }
    {
        let found = queues::note(
            &mut self.queues,
            &mut self.spares,
            &self.owners,
            here,
            entry,
            q,
            moves,
            hint,
        );
        set_hint(&mut self.hints, q, found);
        if let Some(slots) = fresh {
            queues::add(
                &mut self.queues,
                here,
                error_order::attributes_given(entry.call),
                slots,
            );
        }
    }
}

// The queue of a descriptor; without one, the sequence number of the call's entry.
#[inline(always)]
fn queue_of(journal: &Prefix<'_>, held: Option<Description>) -> u64
    ensures { result ≡ unwrap_or (option_map (λ h. h.queue) held) (length journal.now.records) }
{
    match held {
        Some(h) => h.queue,
        None => journal.len(),
    }
}

// Sets the hint of queue q, if the queue had to be searched for.
#[inline(always)]
fn set_hint(hints: &mut [u8; HINTS], q: u64, found: Option<usize>) {
    if let Some(index) = found {
        if index < HINTS {
            hints[q as usize % HINTS] = index as u8;
        }
    }
}

// How many spare sets of slots new tables have: with bounds, one for each queue that may exist.
fn order_count(bounds: Option<Bounds>) -> usize
    ensures { result ≡ order_count bounds }
{
    match bounds {
        None => 0,
        Some(_) => limits::QUEUES as usize,
    }
}

// For how many notices of each process new tables have room: with bounds, as many as there may be
// entries, and one from each queue.
fn notice_room(bounds: Option<Bounds>) -> Result<usize, AllocError>
    ensures { IfOk result (λ room. room ≡ notice_room bounds) }
{
    match bounds {
        None => Ok(0),
        Some(b) => match b.entries.checked_add(limits::QUEUES) {
            Some(room) => Ok(room as usize),
            None => Err(AllocError),
        },
    }
}

// The last process among n callers.
#[inline(always)]
fn last_process(n: u32) -> u32
    ensures { result ≡ last_process n }
{
    if n <= limits::PROCESSES {
        n
    } else {
        limits::PROCESSES
    }
}

// A table of `count` callers without waits.
fn free_callers(alloc: Global, count: usize) -> Result<Vec<Caller>, AllocError>
    ensures { IfOk result (λ v. v.items ≡ replicate count free_caller) }
{
    let callers = vec![in alloc; Caller::free(); count]?;
    Ok(callers)
}

// A table of `count` processes without descriptors.
fn free_owners(alloc: Global, count: usize) -> Result<Vec<Owner>, AllocError>
    ensures { IfOk result (λ v. v.items ≡ replicate count free_owner) }
{
    let owners = vec![in alloc; Owner::free(); count]?;
    Ok(owners)
}
