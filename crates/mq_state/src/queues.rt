//! The table of the queues that exist: which still have their names, the registrations on them, and
//! their messages.
ghost use Rattle.std.specs.Prelude.{◌≡◌, ◌<◌, ◌^◌, ◌==◌, ◌++◌, ◌∷◌, [], IfOk, position, length, Some, None, map, reverse, ℕ, vec_len, vec_capacity, ◌≤◌, int_le, pos, true, IsTrue, All};
ghost use Rattle.std.specs.Option.{option_map};
ghost use Rattle.std.specs.Str.{bytes_eq};
ghost use Rattle.mq_model.specs.Names.{name_of, are_within_limits};
ghost use Rattle.mq_state.specs.Queues.{queue_in, slots_in, registration_in, attributes_in, is_named_in, bound_in, is_bound_to, changed, renewed, Allows, AllowsIn, reregistered, without_queue, fresh, released, noted_queues, waiting_in, with_waiting, HaveRisingPlaces};
ghost use Rattle.mq_ledger.specs.Ledgers.{CanRead};
ghost use Rattle.mq_state.specs.Order.{best_slot, slots_for};
ghost use Rattle.mq_state.specs.Pool.{Pool, IsSpare, emptied};

use crate::moves::{LineMove, Moves};
use crate::prefixes::Prefix;
use mq_model::entries::{Attr, Entry, Registration};
use mq_model::error_order::DEFAULT_ATTRIBUTES;
use mq_model::owners::Owner;
use mq_model::{limits, owners, registrations};
use mq_slots::Slots;
use std::alloc::{AllocError, Global};
use std::marker::Model;

/// The row of a queue that exists. The queue is named by the sequence number of the open that
/// created it.
#[derive(Debug, Drop)]
pub struct Queue {
    place: u64,
    named: bool,
    registration: Option<Registration>,
    attributes: Attr,
    slots: Slots,
    // the processes with an open wait on the queue: bit p stands for process p
    waiting: u64,
}

impl Model for Queue {
    ghost use Rattle.mq_state.specs.QueueShown.{QueueShown};

    ghost Value = { QueueShown };

    ghost use Rattle.mq_state.specs.QueueModel.{shown};

    ghost view = { shown };
}

impl Queue {
    ghost use Rattle.mq_state.specs.Queues.{with_slot, without_slot, MayEnter, IsNextAt};

    /// A queue that was just created by entry `place`.
    pub fn new(place: u64, attributes: Attr, slots: Slots) -> Queue
        requires { slots.messages ≡ [] }
        ensures { result ≡ fresh place slots.cap attributes }
    {
        Queue {
            place,
            named: true,
            registration: None,
            attributes,
            slots,
            waiting: 0,
        }
    }

    /// The sequence number of the open that created the queue.
    pub fn place(&self) -> u64
        ensures { result ≡ self.now.place }
    {
        self.place
    }

    /// Whether the queue is still bound to its name.
    pub fn is_named(&self) -> bool
        ensures { result ≡ self.now.named }
    {
        self.named
    }

    /// The registration on the queue.
    pub fn registration(&self) -> Option<Registration>
        ensures { result ≡ self.now.registration }
    {
        self.registration
    }

    /// The processes that wait on the queue, as bits.
    pub fn waiting(&self) -> u64
        ensures { result ≡ self.now.waiting }
    {
        self.waiting
    }

    /// The messages present, each as its priority and its sequence number, the latest first.
    pub fn messages(&self, alloc: Global) -> Result<Vec<(u32, u64)>, AllocError>
        ensures { IfOk result (λ messages. messages.items ≡ self.now.slots) }
    {
        self.slots.messages(alloc)
    }

    fn set_waiting(&mut self, bits: u64)
        ensures { self.new ≡ with_waiting bits self.old }
    {
        self.waiting = bits;
    }

    /// The limits of the queue.
    pub fn attributes(&self) -> Attr
        ensures { result ≡ self.now.attributes }
    {
        self.attributes
    }

    /// The number of messages present.
    pub fn len(&self) -> usize
        ensures count { result ≡ length self.now.slots }
        ensures bound { result < 2 ^ 63 }
    {
        self.slots.len()
    }

    /// The message that is received next, as its priority and its sequence number.
    pub fn best(&self) -> Option<(u32, u64)>
        ensures { result ≡ best_slot self.now.slots }
    {
        self.slots.best()
    }

    #[inline(always)]
    fn push(&mut self, prio: u32, place: u64)
        requires { MayEnter prio place self.old }
        ensures { self.new ≡ with_slot (prio, place) self.old }
    {
        self.slots.push(prio, place);
    }

    // Removes the message that is received next, if there is one.
    #[inline(always)]
    fn pop(&mut self)
        ensures { (place : ℕ) → IsNextAt place self.old → self.new ≡ without_slot place self.old }
    {
        let _ = self.slots.pop();
    }

    /// The message slots of the queue.
    pub fn into_slots(self) -> Slots
        ensures { result.cap ≡ self.cap }
    {
        let Queue { slots, .. } = self;
        slots
    }

    /// A copy of the row.
    pub fn copy(&self, alloc: Global) -> Result<Queue, AllocError>
        ensures { IfOk result (λ queue. queue ≡ self.now) }
    {
        Ok(Queue {
            place: self.place,
            named: self.named,
            registration: self.registration,
            attributes: self.attributes,
            slots: self.slots.copy(alloc)?,
            waiting: self.waiting,
        })
    }

    /// Updates the row for an entry on this queue: which message leaves, which enters, and whether
    /// the queue still has its name.
    #[inline(always)]
    pub fn note(&mut self, line: LineMove)
        requires { Allows line self.old }
        ensures { self.new ≡ renewed line self.old }
    {
        match line {
            LineMove::Rests => {}
            LineMove::Enters(prio, place) => self.push(prio, place),
            LineMove::Leaves(_, admitted) => {
                self.pop();
                if let Some((prio, place)) = admitted {
                    self.push(prio, place);
                }
            }
            LineMove::LosesName => self.named = false,
        }
    }

    /// Updates the registration for entry `here`, made on queue `queue`.
    pub fn note_registration(&mut self, queue: u64, here: u64, entry: Entry)
        ensures { self.new ≡ reregistered queue here entry self.old }
    {
        let on = queue == self.place;
        self.registration = registrations::registration_after(on, here, entry, self.registration);
    }
}

/// How many messages a queue with these attributes can hold.
pub fn slots_for(attributes: Attr) -> u32
    requires { are_within_limits (Some attributes) ≡ true }
    ensures value { result ≡ slots_for attributes }
    ensures some { 1 ≤ result }
    ensures few { result ≤ 4096 }
    ensures enough { int_le attributes.maxmsg (pos result) ≡ true }
{
    attributes.maxmsg as u32
}

/// The index of queue q, by binary search: the rows are in the order of their sequence numbers.
pub fn index_of(queues: &[Queue], q: u64) -> Option<usize>
    requires { HaveRisingPlaces queues.now }
    ensures { result ≡ position (λ x. x.place == q) queues.now }
{
    let mut low = 0;
    let mut high = queues.len();
    while low < high {
        let middle = low + (high - low) / 2;
        if queues[middle].place() < q {
            low = middle + 1;
        } else {
            high = middle;
        }
    }
    if low < queues.len() && queues[low].place() == q {
        Some(low)
    } else {
        None
    }
}

/// The index of queue q. It tries `hint` first, and searches only if that is wrong.
#[inline(always)]
pub fn index_from(queues: &[Queue], q: u64, hint: usize) -> Option<usize>
    requires { HaveRisingPlaces queues.now }
    ensures { result ≡ position (λ x. x.place == q) queues.now }
{
    if is_row(queues, q, hint) {
        return Some(hint);
    }
    index_of(queues, q)
}

// Whether queue q has the row at this index.
#[inline(always)]
fn is_row(queues: &[Queue], q: u64, index: usize) -> bool
    requires { HaveRisingPlaces queues.now }
    ensures { IsTrue result → position (λ x. x.place == q) queues.now ≡ Some index }
{
    index < queues.len() && queues[index].place() == q
}

/// Queue q.
#[tactic(auto, unfolding(crate::specs::Queues::queue_in))]
#[inline(always)]
pub fn find(queues: &[Queue], q: u64) -> Option<&Queue>
    ensures { option_map (λ x. x.now) result ≡ queue_in queues.now q }
{
    queues.iter().find(|x| x.place() == q)
}

/// Queue q. It tries the index `hint` first.
#[inline(always)]
pub fn find_from(queues: &[Queue], q: u64, hint: usize) -> Option<&Queue>
    requires { HaveRisingPlaces queues.now }
    ensures { option_map (λ x. x.now) result ≡ queue_in queues.now q }
{
    match index_from(queues, q, hint) {
        None => None,
        Some(i) => Some(&queues[i]),
    }
}

/// What the row of a queue says: its limits, the number of messages present, the one received next,
/// the registration, and which processes wait, as bits.
#[derive(Clone, Copy, Debug)]
pub struct LineFacts {
    pub attributes: Attr,
    pub count: usize,
    pub best: Option<(u32, u64)>,
    pub registration: Option<Registration>,
    pub waiting: u64,
}

/// The row of queue q, looked up once. It tries the index `hint` first.
#[tactic(auto, unfolding(crate::specs::Queues::slots_in, crate::specs::Queues::registration_in, crate::specs::Queues::attributes_in, crate::specs::Queues::waiting_in))]
#[inline(always)]
pub fn line(queues: &[Queue], q: u64, hint: usize) -> LineFacts
    requires { HaveRisingPlaces queues.now }
    ensures count { result.count ≡ length (slots_in queues.now q) }
    ensures bound { result.count < 2 ^ 63 }
    ensures best { result.best ≡ best_slot (slots_in queues.now q) }
    ensures registration { result.registration ≡ registration_in queues.now q }
    ensures attributes { result.attributes ≡ attributes_in queues.now q }
    ensures waiting { result.waiting ≡ waiting_in queues.now q }
{
    match find_from(queues, q, hint) {
        None => LineFacts {
            attributes: DEFAULT_ATTRIBUTES,
            count: 0,
            best: None,
            registration: None,
            waiting: 0,
        },
        Some(x) => LineFacts {
            attributes: x.attributes(),
            count: x.len(),
            best: x.best(),
            registration: x.registration(),
            waiting: x.waiting(),
        },
    }
}

/// The registration on queue q.
#[tactic(auto, unfolding(crate::specs::Queues::registration_in))]
pub fn registration(queues: &[Queue], q: u64) -> Option<Registration>
    ensures { result ≡ registration_in queues.now q }
{
    match find(queues, q) {
        None => None,
        Some(x) => x.registration(),
    }
}

/// The messages of queue q, each as its priority and its sequence number, the latest first.
#[tactic(auto, unfolding(crate::specs::Queues::slots_in))]
pub fn messages(alloc: Global, queues: &[Queue], q: u64) -> Result<Vec<(u32, u64)>, AllocError>
    ensures { IfOk result (λ messages. messages.items ≡ slots_in queues.now q) }
{
    match find(queues, q) {
        None => Ok(Vec::new(alloc)),
        Some(x) => x.messages(alloc),
    }
}

/// The sequence numbers of the opens that created the queues, the latest first.
#[tactic(auto, using(crate::proofs::Listing::listing))]
pub fn places(alloc: Global, queues: &[Queue]) -> Result<Vec<u64>, AllocError>
    ensures { IfOk result (λ places. places.items ≡ reverse (map (λ x. x.place) queues.now)) }
{
    let mut places = Vec::new(alloc);
    for index in (0..queues.len()).rev() {
        places.push(queues[index].place())?;
    }
    Ok(places)
}

/// Whether queue q is still bound to its name.
#[tactic(auto, unfolding(crate::specs::Queues::is_named_in))]
pub fn is_named(queues: &[Queue], q: u64) -> bool
    ensures { result ≡ is_named_in queues.now q }
{
    match find(queues, q) {
        None => false,
        Some(x) => x.is_named(),
    }
}

// Whether the queue that entry `place` created has this name.
fn has_name(journal: &Prefix<'_>, place: u64, name: &[u8]) -> bool
    ensures { CanRead journal.now place →
        result ≡ bytes_eq (name_of journal.now.records place) name.now }
{
    match journal.payload(place) {
        None => name.is_empty(),
        Some(payload) => payload == name,
    }
}

/// The queue that a name is bound to.
#[tactic(auto, unfolding(crate::specs::Queues::bound_in))]
pub fn bound(journal: &Prefix<'_>, queues: &[Queue], name: &[u8]) -> Option<u64>
    requires { All (λ x. CanRead journal.now x.place) queues.now }
    ensures { result ≡ bound_in journal.now.records queues.now name.now }
{
    for i in 0..queues.len() {
        let queue = &queues[i];
        if is_bound(journal, queue, name) {
            return Some(queue.place());
        }
    }
    None
}

// Whether the queue is still bound to this name.
fn is_bound(journal: &Prefix<'_>, queue: &Queue, name: &[u8]) -> bool
    requires { CanRead journal.now queue.now.place }
    ensures { result ≡ is_bound_to journal.now.records name.now queue.now }
{
    queue.is_named() && has_name(journal, queue.place(), name)
}

// Keeps the slots, emptied, for a later queue, if there is room for them.
fn keep(spares: &mut Vec<Slots>, mut slots: Slots)
    ensures capacity { vec_capacity spares.new ≡ vec_capacity spares.old }
    ensures kept { vec_len spares.old < vec_capacity spares.old →
        spares.new.items ≡ spares.old.items ++ emptied slots ∷ [] }
{
    if spares.len() < spares.capacity() {
        slots.clear();
        spares.push_reserved(slots);
    }
}

// The index of the first row of queue q.
fn first_at(queues: &[Queue], q: u64) -> Option<usize>
    ensures { result ≡ position (λ x. x.place == q) queues.now }
{
    queues.iter().position(|x| x.place() == q)
}

// Removes queue q, which no longer exists. Its slots are kept for a later queue.
fn remove(queues: &mut Vec<Queue>, spares: &mut Vec<Slots>, q: u64)
    ensures items { queues.new.items ≡ without_queue queues.old.items q }
    ensures room { (vec_len queues.new ≤ vec_len queues.old) ×
        (vec_capacity queues.new ≡ vec_capacity queues.old) }
    ensures pool { (m : ℕ) → Pool m queues.old.items spares.old.items (vec_capacity queues.old)
        (vec_capacity spares.old) →
        Pool m queues.new.items spares.new.items (vec_capacity queues.new)
        (vec_capacity spares.new) }
{
    while let Some(i) = first_at(queues, q) {
        let queue = queues.remove(i);
        keep(spares, queue.into_slots());
    }
}

// Updates the row of queue q, at the index `hint` if that is right. Returns the index if it had to
// search.
#[inline(always)]
fn renew(queues: &mut [Queue], q: u64, line: LineMove, hint: usize) -> Option<usize>
    requires rising { HaveRisingPlaces queues.old }
    requires allows { AllowsIn queues.old q line }
    ensures { queues.new ≡ changed (renewed line) queues.old q }
{
    if let LineMove::Rests = line {
        return None;
    }
    if is_row(queues, q, hint) {
        queues[hint].note(line);
        return None;
    }
    renew_by_search(queues, q, line)
}

// The same by a search. The move goes into a variable of its own here, so that an entry whose hint
// is right has no stack space for it.
#[inline(always)]
fn renew_by_search(queues: &mut [Queue], q: u64, line: LineMove) -> Option<usize>
    requires rising { HaveRisingPlaces queues.old }
    requires allows { AllowsIn queues.old q line }
    ensures { queues.new ≡ changed (renewed line) queues.old q }
{
    let apart = line;
    renew_apart(queues, q, apart)
}

#[inline(never)]
fn renew_apart(queues: &mut [Queue], q: u64, line: LineMove) -> Option<usize>
    requires rising { HaveRisingPlaces queues.old }
    requires allows { AllowsIn queues.old q line }
    ensures { queues.new ≡ changed (renewed line) queues.old q }
{
    let found = index_of(queues, q);
    if let Some(i) = found {
        queues[i].note(line);
    }
    found
}

// Updates the registration in each row for an entry on queue q.
#[inline(always)]
fn note_registrations(queues: &mut [Queue], q: u64, here: u64, entry: Entry)
    ensures { queues.new ≡ map (reregistered q here entry) queues.old }
{
    if !registrations::touches_registrations(entry) {
        return;
    }
    for i in 0..queues.len() {
        queues[i].note_registration(q, here, entry);
    }
}

// Removes queue q if the entry may have taken its last user and it no longer exists.
#[inline(always)]
fn release(owners: &[Owner], freed: bool, queues: &mut Vec<Queue>, spares: &mut Vec<Slots>, q: u64)
    ensures items { queues.new.items ≡ released owners.now freed queues.old.items q }
    ensures room { (vec_len queues.new ≤ vec_len queues.old) ×
        (vec_capacity queues.new ≡ vec_capacity queues.old) }
    ensures pool { (m : ℕ) → Pool m queues.old.items spares.old.items (vec_capacity queues.old)
        (vec_capacity spares.old) →
        Pool m queues.new.items spares.new.items (vec_capacity queues.new)
        (vec_capacity spares.new) }
{
    if freed && !(is_named(queues, q) || owners::is_held(owners, q)) {
        remove(queues, spares, q);
    }
}

/// Updates the table for entry `here`, made on queue q, after the table of processes was updated.
/// It does not add a queue that the entry creates; `add` does. The slots of a queue that no longer
/// exists join the spare ones. It tries the index `hint` first, and returns the index of queue q if
/// it had to search.
#[inline(always)]
pub fn note(
    queues: &mut Vec<Queue>,
    spares: &mut Vec<Slots>,
    owners: &[Owner],
    here: u64,
    entry: Entry,
    q: u64,
    moves: Moves,
    hint: usize,
) -> Option<usize>
    requires rising { HaveRisingPlaces queues.old.items }
    requires allows { AllowsIn queues.old.items q moves.line }
    ensures items { queues.new.items ≡
        noted_queues owners.now here entry q moves queues.old.items }
    ensures room { vec_len queues.old < vec_capacity queues.old →
        vec_len queues.new < vec_capacity queues.new }
    ensures pool { (m : ℕ) → Pool m queues.old.items spares.old.items (vec_capacity queues.old)
        (vec_capacity spares.old) →
        Pool m queues.new.items spares.new.items (vec_capacity queues.new)
        (vec_capacity spares.new) }
{
    let found = renew(queues, q, moves.line, hint);
    note_registrations(queues, q, here, entry);
    release(owners, moves.freed, queues, spares, q);
    found
}

/// Sets which processes wait on queue q, if that exists.
pub fn set_waiting(queues: &mut [Queue], q: u64, bits: u64)
    ensures { queues.new ≡ changed (with_waiting bits) queues.old q }
{
    if let Some(i) = first_at(queues, q) {
        queues[i].set_waiting(bits);
    }
}

/// Adds the queue that entry `here` creates with these limits. There must be room for it.
pub fn add(queues: &mut Vec<Queue>, here: u64, attributes: Attr, slots: Slots)
    requires empty { slots.messages ≡ [] }
    requires room { vec_len queues.old < vec_capacity queues.old }
    ensures items { queues.new.items ≡ queues.old.items ++ fresh here slots.cap attributes ∷ [] }
    ensures capacity { vec_capacity queues.new ≡ vec_capacity queues.old }
{
    queues.push_reserved(Queue::new(here, attributes, slots));
}

/// This number of spare sets of slots, each with room for the messages of any queue.
pub fn spare_orders(alloc: Global, count: usize) -> Result<Vec<Slots>, AllocError>
    ensures spare { IfOk result (λ v. All IsSpare v.items) }
    ensures count { IfOk result (λ v. length v.items ≡ count) }
    ensures room { IfOk result (λ v. count ≤ vec_capacity v) }
{
    let mut spares = Vec::with_capacity(alloc, count)?;
    for _ in 0..count {
        spares.push(Slots::new(alloc, limits::MESSAGES as u32)?)?;
    }
    Ok(spares)
}
