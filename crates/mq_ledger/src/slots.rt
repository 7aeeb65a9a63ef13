//! The slots of an unstored journal: each keeps one entry, or is vacant.
ghost use Rattle.std.specs.Prelude.{◌≡◌, ◌≢◌, ◌+◌, ◌-◌, ◌<◌, ◌≤◌, ◌∷◌, [], ℕ, Option, Some, None, IsTrue, IfOk, IfSome, OnOk, IsOk, false, length, is_none, slice_index_or, slice_set, vec_len, vec_capacity};
ghost use Rattle.mq_ledger.specs.Kept.{Kept};
ghost use Rattle.mq_ledger.specs.Keeping.{AreTrue, places_of, vacant_in, HasMoreVacant, Forgets};
ghost use Rattle.mq_ledger.specs.Seen.{HasPlace};
ghost use Rattle.mq_laws.specs.Needed.{home_of};
ghost use Rattle.mq_model.specs.Messages.{priority_given};
ghost use Rattle.mq_model.specs.Record.{Record, Past};

use crate::classes::{CLASSES, GROWING, room_of};
use crate::index::{Index, Note, PROBES};
use std::alloc::{AllocError, Global};
use std::marker::Model;
use std::mem;

/// The sequence number of no entry.
const NOWHERE: u64 = 18_446_744_073_709_551_615;

/// A slot. Contracts see what it keeps, or nothing if it is vacant. The buffer of a vacant slot is
/// used again for a later payload.
#[derive(Debug, Drop)]
pub struct Slot {
    place: u64,
    home: Option<u64>,
    prio: u32,
    class: u32,
    bytes: Vec<u8>,
    // the next vacant slot of its class, if it is vacant
    next: usize,
}

impl Model for Slot {
    ghost use Rattle.std.specs.Prelude.{Option};
    ghost use Rattle.mq_ledger.specs.Kept.{Kept};

    ghost Value = { Option Kept };

    ghost use Rattle.mq_ledger.specs.SlotModel.{kept_in};

    ghost view = { kept_in };
}

impl Slot {
    /// A vacant slot of a class, with the next one after it.
    fn vacant(alloc: Global, class: u32, next: usize) -> Result<Slot, AllocError>
        ensures { IfOk result (λ slot. slot ≡ None) }
    {
        Ok(Slot {
            place: NOWHERE,
            home: None,
            prio: 0,
            bytes: Vec::with_capacity(alloc, room_of(class))?,
            class,
            next,
        })
    }

    /// Whether the slot is vacant.
    #[inline(always)]
    fn is_vacant(&self) -> bool
        ensures { result ≡ is_none self.now }
    {
        self.place == NOWHERE
    }

    /// Whether the slot keeps entry `place`.
    #[inline(always)]
    fn is_at(&self, place: u64) -> bool
        ensures some { IsTrue result → (x : Kept) × (self.now ≡ Some x) × (x.place ≡ place) }
        ensures none { (x : Kept) → self.now ≡ Some x → x.place ≡ place → IsTrue result }
    {
        self.place == place && place != NOWHERE
    }

    /// Whether its entry is lost with a queue.
    pub fn is_lost_with(&self, queue: u64) -> bool
        ensures { IsTrue result → (x : Kept) → self.now ≡ Some x → x.home ≡ Some queue }
    {
        self.home == Some(queue)
    }

    /// The sequence number of its entry.
    #[inline(always)]
    pub fn place(&self) -> u64
        ensures { (x : Kept) → self.now ≡ Some x → result ≡ x.place }
    {
        self.place
    }

    /// The priority of the message that its entry sends.
    #[inline(always)]
    pub fn prio(&self) -> u32
        ensures { (x : Kept) → self.now ≡ Some x → result ≡ x.prio }
    {
        self.prio
    }

    /// The payload of its entry.
    #[inline(always)]
    pub fn bytes(&self) -> &[u8]
        ensures { (x : Kept) → self.now ≡ Some x → result.now ≡ x.bytes }
    {
        &self.bytes
    }

    // The class of the slot.
    #[inline(always)]
    fn class(&self) -> u32 {
        self.class
    }

    // The next vacant slot of its class, if it is vacant.
    #[inline(always)]
    fn next(&self) -> usize {
        self.next
    }

    #[inline(always)]
    fn vacate(&mut self, next: usize)
        ensures { self.new ≡ None }
    {
        self.place = NOWHERE;
        self.next = next;
    }

    // Makes the slot keep this part of an entry. The payload goes into the slot's buffer, or if
    // that is too small, into the spare buffer `next`, and the two are exchanged.
    #[inline(always)]
    fn occupy(
        &mut self,
        place: u64,
        prio: u32,
        home: Option<u64>,
        next: &mut Vec<u8>,
        payload: &[u8],
    )
        requires place { place < NOWHERE }
        requires empty { vec_len next.old ≡ 0 }
        requires room { length payload.now ≤ vec_capacity next.old }
        ensures kept { self.new ≡ Some (record {
          place = place;
          prio = prio;
          home = home;
          bytes = payload.now;
        }) }
        ensures empty { vec_len next.new ≡ 0 }
        ensures none { payload.now ≡ [] → next.new ≡ next.old }
    {
        self.place = place;
        self.prio = prio;
        self.home = home;
        fill(&mut self.bytes, next, payload);
    }
}

// Copies a payload into the slot's buffer if it fits, else into the spare one. One of the same
// length as the last is only copied.
#[inline(always)]
fn fill(bytes: &mut Vec<u8>, next: &mut Vec<u8>, payload: &[u8])
    requires empty { vec_len next.old ≡ 0 }
    requires room { length payload.now ≤ vec_capacity next.old }
    ensures bytes { bytes.new.items ≡ payload.now }
    ensures empty { vec_len next.new ≡ 0 }
    ensures none { payload.now ≡ [] → next.new ≡ next.old }
{
    if bytes.len() == payload.len() {
        bytes.copy_from_slice(payload);
    } else {
        fill_anew(bytes, next, payload);
    }
}

#[inline(never)]
fn fill_anew(bytes: &mut Vec<u8>, next: &mut Vec<u8>, payload: &[u8])
    requires empty { vec_len next.old ≡ 0 }
    requires room { length payload.now ≤ vec_capacity next.old }
    ensures bytes { bytes.new.items ≡ payload.now }
    ensures empty { vec_len next.new ≡ 0 }
    ensures none { payload.now ≡ [] → next.new ≡ next.old }
{
    bytes.clear();
    if payload.len() <= bytes.capacity() {
        let _ = bytes.extend_from_slice(payload);
    } else {
        exchange(bytes, next, payload);
    }
}

// Copies a payload into the spare buffer, and exchanges the two.
#[inline(never)]
fn exchange(bytes: &mut Vec<u8>, next: &mut Vec<u8>, payload: &[u8])
    requires cleared { vec_len bytes.old ≡ 0 }
    requires empty { vec_len next.old ≡ 0 }
    requires room { length payload.now ≤ vec_capacity next.old }
    ensures bytes { bytes.new.items ≡ payload.now }
    ensures empty { vec_len next.new ≡ 0 }
{
    let _ = next.extend_from_slice(payload);
    mem::swap(bytes, next);
}

/// The slot of entry `place`, if it is the slot `last` or the index has it.
#[inline(always)]
pub fn guess(slots: &[Slot], index: &Index, last: usize, place: u64) -> Option<usize>
    ensures { IfSome result (λ key. (x : Kept) ×
        (slice_index_or slots.now key None ≡ Some x) × (x.place ≡ place)) }
{
    if is_there(slots, last, place) {
        return Some(last);
    }
    guess_by(slots, index, place)
}

// The same, by the notes of the index.
#[inline(never)]
fn guess_by(slots: &[Slot], index: &Index, place: u64) -> Option<usize>
    ensures { IfSome result (λ key. (x : Kept) ×
        (slice_index_or slots.now key None ≡ Some x) × (x.place ≡ place)) }
{
    for probe in 0..PROBES {
        let key = index.note(place, probe).key;
        if is_there(slots, key, place) {
            return Some(key);
        }
    }
    None
}

// Makes a note of the slot that has entry `place`: over the first stale note, or over the last one.
#[inline(always)]
fn note(slots: &[Slot], index: &mut Index, place: u64, key: usize) {
    if says_nothing(slots, index.note(place, 0)) {
        index.set(place, 0, key);
    } else {
        note_on(slots, index, place, key);
    }
}

/// Makes a note of the entry that a slot keeps, if it keeps one.
#[inline(always)]
pub fn note_kept(slots: &[Slot], index: &mut Index, key: usize) {
    if key < slots.len() && !slots[key].is_vacant() {
        note_again(slots, index, key);
    }
}

#[inline(never)]
fn note_again(slots: &[Slot], index: &mut Index, key: usize) {
    if key < slots.len() {
        note(slots, index, slots[key].place(), key);
    }
}

// The same, from the second probe on.
#[inline(never)]
fn note_on(slots: &[Slot], index: &mut Index, place: u64, key: usize) {
    for probe in 1..PROBES {
        if says_nothing(slots, index.note(place, probe)) {
            index.set(place, probe, key);
            return;
        }
    }
    index.set(place, PROBES - 1, key);
}

// Whether a note is stale: its slot has another entry or none.
#[inline(always)]
fn says_nothing(slots: &[Slot], note: Note) -> bool {
    !is_there(slots, note.key, note.place)
}

/// Whether a slot keeps entry `place`.
#[inline(always)]
pub fn is_there(slots: &[Slot], key: usize, place: u64) -> bool
    ensures some { IsTrue result → (x : Kept) ×
        (slice_index_or slots.now key None ≡ Some x) × (x.place ≡ place) }
    ensures none { (x : Kept) → slice_index_or slots.now key None ≡ Some x → x.place ≡ place →
        IsTrue result }
{
    key < slots.len() && slots[key].is_at(place)
}

/// Whether a slot keeps entry `place` and is of this class.
#[inline(always)]
pub fn is_there_in(slots: &[Slot], key: usize, place: u64, class: u32) -> bool
    ensures some { IsTrue result → (x : Kept) ×
        (slice_index_or slots.now key None ≡ Some x) × (x.place ≡ place) }
    ensures within { IsTrue result → key < length slots.now }
{
    is_there(slots, key, place) && slots[key].class() == class
}

/// The slot of entry `place`. If it is neither `last` nor in the index, all slots are searched.
#[inline(always)]
pub fn find(slots: &[Slot], index: &Index, last: usize, place: u64) -> Option<usize>
    ensures some { IfSome result (λ key. (x : Kept) ×
        (slice_index_or slots.now key None ≡ Some x) × (x.place ≡ place)) }
    ensures none { result ≡ None → (key : ℕ) (x : Kept) →
        slice_index_or slots.now key None ≡ Some x → x.place ≢ place }
{
    match guess(slots, index, last, place) {
        Some(key) => Some(key),
        None => search(slots, place),
    }
}

// The slot of entry `place`, by a search of all slots.
#[inline(never)]
fn search(slots: &[Slot], place: u64) -> Option<usize>
    ensures some { IfSome result (λ key. (x : Kept) ×
        (slice_index_or slots.now key None ≡ Some x) × (x.place ≡ place)) }
    ensures none { result ≡ None → (key : ℕ) (x : Kept) →
        slice_index_or slots.now key None ≡ Some x → x.place ≢ place }
{
    for key in 0..slots.len() {
        if is_there(slots, key, place) {
            return Some(key);
        }
    }
    None
}

// Takes the first vacant slot of a class from its list.
#[inline(always)]
fn take_vacant(slots: &[Slot], index: &mut Index, class: u32) -> usize {
    let key = index.first_vacant(class);
    if key < slots.len() {
        index.set_vacant(class, slots[key].next());
    }
    key
}

// A vacant slot, of this class if there is one.
#[inline(always)]
fn vacant_slot(slots: &[Slot], index: &mut Index, class: u32) -> usize
    requires { 0 < vacant_in slots.now }
    ensures within { result < length slots.now }
    ensures vacant { slice_index_or slots.now result None ≡ None }
{
    let key = take_vacant(slots, index, class);
    if key < slots.len() && slots[key].is_vacant() {
        return key;
    }
    vacant_elsewhere(slots, index)
}

// A vacant slot of any class.
#[inline(never)]
fn vacant_elsewhere(slots: &[Slot], index: &mut Index) -> usize
    requires { 0 < vacant_in slots.now }
    ensures within { result < length slots.now }
    ensures vacant { slice_index_or slots.now result None ≡ None }
{
    for class in 0..CLASSES {
        let key = take_vacant(slots, index, class);
        if key < slots.len() && slots[key].is_vacant() {
            return key;
        }
    }
    first_vacant(slots)
}

// The vacant slot with the lowest index.
#[inline(never)]
fn first_vacant(slots: &[Slot]) -> usize
    requires { 0 < vacant_in slots.now }
    ensures within { result < length slots.now }
    ensures vacant { slice_index_or slots.now result None ≡ None }
{
    for key in 0..slots.len() {
        if slots[key].is_vacant() {
            return key;
        }
    }
    unreachable!()
}

/// Puts this part of entry `place` into a vacant slot, of which there must be one: of this class if
/// possible.
#[inline(always)]
pub fn put(
    slots: &mut Vec<Slot>,
    index: &mut Index,
    place: u64,
    prio: u32,
    home: Option<u64>,
    next: &mut Vec<u8>,
    payload: &[u8],
    class: u32,
) -> usize
    requires place { place < NOWHERE }
    requires vacant { 0 < vacant_in slots.old.items }
    requires empty { vec_len next.old ≡ 0 }
    requires room { length payload.now ≤ vec_capacity next.old }
    ensures vacant { vacant_in slots.new.items + 1 ≡ vacant_in slots.old.items }
    ensures has { HasPlace (places_of slots.new.items) place }
    ensures keeps { (k : ℕ) → HasPlace (places_of slots.old.items) k →
        HasPlace (places_of slots.new.items) k }
    ensures are_true { (past : Past) (r : Record) → place ≡ length past →
        prio ≡ priority_given r.entry.call → home ≡ home_of past r r.entry.reply →
        payload.now ≡ r.payload → AreTrue past slots.old.items →
        AreTrue (r ∷ past) slots.new.items }
    ensures empty { vec_len next.new ≡ 0 }
    ensures none { payload.now ≡ [] → next.new ≡ next.old }
{
    let key = vacant_slot(slots, index, class);
    slots[key].occupy(place, prio, home, next, payload);
    key
}

/// Puts this part of entry `place` into a slot that keeps another entry, in place of that.
#[inline(always)]
pub fn replace(
    slots: &mut Vec<Slot>,
    key: usize,
    place: u64,
    prio: u32,
    home: Option<u64>,
    next: &mut Vec<u8>,
    payload: &[u8],
)
    requires place { place < NOWHERE }
    requires within { key < length slots.old.items }
    requires full { is_none (slice_index_or slots.old.items key None) ≡ false }
    requires empty { vec_len next.old ≡ 0 }
    requires room { length payload.now ≤ vec_capacity next.old }
    ensures vacant { vacant_in slots.new.items ≡ vacant_in slots.old.items }
    ensures has { HasPlace (places_of slots.new.items) place }
    ensures keeps { (k : ℕ) → ((x : Kept) → slice_index_or slots.old.items key None ≡ Some x →
        x.place ≢ k) → HasPlace (places_of slots.old.items) k →
        HasPlace (places_of slots.new.items) k }
    ensures are_true { (past : Past) (r : Record) → place ≡ length past →
        prio ≡ priority_given r.entry.call → home ≡ home_of past r r.entry.reply →
        payload.now ≡ r.payload → AreTrue past slots.old.items →
        AreTrue (r ∷ past) slots.new.items }
    ensures empty { vec_len next.new ≡ 0 }
    ensures none { payload.now ≡ [] → next.new ≡ next.old }
{
    slots[key].occupy(place, prio, home, next, payload);
}

/// Vacates a slot.
#[inline(always)]
pub fn vacate(slots: &mut Vec<Slot>, index: &mut Index, key: usize)
    requires { key < length slots.old.items }
    ensures { slots.new.items ≡ slice_set slots.old.items key None }
{
    let class = slots[key].class();
    slots[key].vacate(index.first_vacant(class));
    index.set_vacant(class, key);
}

/// Vacates the slots of the entries that are lost with a queue.
#[inline(never)]
pub fn forget(slots: &mut Vec<Slot>, index: &mut Index, queue: u64, vacant: &mut usize)
    requires { vacant.old ≡ vacant_in slots.old.items }
    ensures { Forgets queue slots.old.items slots.new.items vacant.old vacant.new }
{
    for key in 0..slots.len() {
        forget_at(slots, index, key, queue, vacant);
    }
}

// Vacates a slot if its entry is lost with a queue.
fn forget_at(slots: &mut Vec<Slot>, index: &mut Index, key: usize, queue: u64, vacant: &mut usize)
    requires within { key < length slots.old.items }
    requires count { vacant.old ≡ vacant_in slots.old.items }
    ensures { Forgets queue slots.old.items slots.new.items vacant.old vacant.new }
{
    let slot = &slots[key];
    if !slot.is_vacant() && slot.is_lost_with(queue) {
        vacate(slots, index, key);
        *vacant += 1;
    }
}

/// Makes at least this many slots vacant.
#[inline(always)]
pub fn make_room(
    alloc: Global,
    slots: &mut Vec<Slot>,
    index: &mut Index,
    vacant: &mut usize,
    wanted: usize,
) -> Result<(), AllocError>
    requires { vacant.old ≡ vacant_in slots.old.items }
    ensures added { HasMoreVacant slots.old.items slots.new.items vacant.old vacant.new }
    ensures room { OnOk result (wanted ≤ vacant.new) }
    ensures succeeds { wanted ≤ vacant.old → IsOk result }
{
    if wanted <= *vacant {
        return Ok(());
    }
    grow(alloc, slots, index, vacant, wanted, GROWING)
}

/// Adds this many slots of a class.
#[inline(never)]
pub fn grow(
    alloc: Global,
    slots: &mut Vec<Slot>,
    index: &mut Index,
    vacant: &mut usize,
    wanted: usize,
    class: u32,
) -> Result<(), AllocError>
    requires { vacant.old ≡ vacant_in slots.old.items }
    ensures added { HasMoreVacant slots.old.items slots.new.items vacant.old vacant.new }
    ensures room { OnOk result (wanted ≤ vacant.new) }
{
    for added in 0..wanted {
        add_vacant(alloc, slots, index, vacant, class)?;
    }
    if index.slots() < slots.len() {
        reindex(alloc, slots, index)?;
    }
    Ok(())
}

// Adds a slot of a class.
fn add_vacant(
    alloc: Global,
    slots: &mut Vec<Slot>,
    index: &mut Index,
    vacant: &mut usize,
    class: u32,
) -> Result<(), AllocError>
    requires { vacant.old ≡ vacant_in slots.old.items }
    ensures added { HasMoreVacant slots.old.items slots.new.items vacant.old vacant.new }
    ensures one { OnOk result (vacant.new ≡ vacant.old + 1) }
{
    let slot = Slot::vacant(alloc, class, index.first_vacant(class))?;
    slots.push(slot)?;
    *vacant += 1;
    index.set_vacant(class, slots.len() - 1);
    Ok(())
}

// Builds the index again from the slots, with room for twice as many.
fn reindex(alloc: Global, slots: &[Slot], index: &mut Index) -> Result<(), AllocError> {
    let mut room: usize = 64;
    for _ in 0..40 {
        if room < slots.len() {
            room = room.wrapping_mul(2);
        }
    }
    index.grow(alloc, room.wrapping_mul(2))?;
    for key in 0..slots.len() {
        if !slots[key].is_vacant() {
            note(slots, index, slots[key].place(), key);
        }
    }
    Ok(())
}

/// The number of slots of a class.
pub fn count_of(slots: &[Slot], class: u32) -> usize {
    slots.iter().filter(|slot| slot.class() == class).count()
}
