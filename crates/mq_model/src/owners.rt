//! The table of processes: the descriptors of each. Process p has the row at index p. If the table
//! is updated for each entry of the journal, it says what the definitions say about the entries so
//! far.
ghost use Rattle.std.specs.Prelude.{◌≡◌, ◌<◌, length};
ghost use Rattle.std.specs.Option.{option_map};
ghost use Rattle.mq_model.specs.Descriptors.{is_place};
ghost use Rattle.mq_model.specs.Threads.{owner_of};

use crate::callers::owner_of;
use crate::entries::{Call, Description, Entry, Reply};
use crate::limits::DESCRIPTORS;

/// What a process holds under each descriptor.
#[derive(Clone, Copy, Debug)]
pub struct Owner {
    pub descriptors: [Option<Description>; DESCRIPTORS],
}

ghost use Rattle.mq_model.specs.Owners.{free_owner, holds, held_in, free_number_in, lowest_held_in, with_slot, with_flag, is_held_in};
ghost use Rattle.mq_model.specs.OwnersNoted.{noted, noted_open, noted_done, noted_attributes, FitsSlots, FitsDone, FitsAttributes, KeepsMirror, StartsMirror};

impl Owner {
    /// A process without descriptors. A table of such processes is that of the empty journal.
    pub fn free() -> Owner
        ensures value { result ≡ free_owner }
        ensures starts { StartsMirror result }
    {
        Owner {
            descriptors: [None; DESCRIPTORS],
        }
    }
}

/// What the process of caller p holds under descriptor d.
#[tactic(auto, unfolding(crate::specs::Owners::held_in))]
#[inline(always)]
pub fn held(owners: &[Owner], p: u32, d: u32) -> Option<Description>
    ensures { result ≡ held_in owners.now p d }
{
    match owners.get(owner_of(p) as usize) {
        None => None,
        Some(owner) => match owner.descriptors.get(d as usize) {
            None => None,
            Some(slot) => *slot,
        },
    }
}

fn set_slot(owners: &mut [Owner], p: u32, d: u32, slot: Option<Description>)
    requires process { owner_of p < length owners.old }
    requires number { d < 16 }
    ensures { owners.new ≡ with_slot owners.old p d slot }
{
    let owner = &mut owners[owner_of(p) as usize];
    owner.descriptors[d as usize] = slot;
}

// Sets the nonblocking flag of descriptor d, if the process of caller p holds it.
fn set_flag(owners: &mut [Owner], p: u32, d: u32, nonblock: bool)
    requires process { owner_of p < length owners.old }
    requires number { d < 16 }
    ensures { owners.new ≡ with_flag owners.old p d nonblock }
{
    let slot = match held(owners, p, d) {
        None => None,
        Some(h) => Some(Description { nonblock, ..h }),
    };
    set_slot(owners, p, d, slot);
}

fn is_on(slot: &Option<Description>, q: u64) -> bool
    ensures { result ≡ is_place q (option_map (λ h. h.queue) slot.now) }
{
    match slot {
        Some(h) => h.queue == q,
        None => false,
    }
}

fn holds(owner: &Owner, q: u64) -> bool
    ensures { result ≡ holds q owner.now }
{
    owner.descriptors.iter().any(|slot| is_on(slot, q))
}

/// Whether some process holds a descriptor of queue q.
pub fn is_held(owners: &[Owner], q: u64) -> bool
    ensures { result ≡ is_held_in owners.now q }
{
    owners.iter().any(|owner| holds(owner, q))
}

fn note_open(owners: &mut [Owner], p: u32, call: Call, d: u32, queue: u64)
    requires process { owner_of p < length owners.old }
    requires number { d < 16 }
    ensures { owners.new ≡ noted_open owners.old p call d queue }
{
    if let Call::MqOpen { flags, attr: _ } = call {
        let description = Description {
            queue,
            access: flags.access,
            nonblock: flags.nonblock,
        };
        set_slot(owners, p, d, Some(description));
    }
}

fn note_done(owners: &mut [Owner], p: u32, call: Call)
    requires process { owner_of p < length owners.old }
    requires number { FitsDone call }
    ensures { owners.new ≡ noted_done owners.old p call }
{
    if let Call::MqClose { d } = call {
        set_slot(owners, p, d, None);
    }
}

fn note_attributes(owners: &mut [Owner], p: u32, call: Call)
    requires process { owner_of p < length owners.old }
    requires number { FitsAttributes call }
    ensures { owners.new ≡ noted_attributes owners.old p call }
{
    if let Call::MqSetattr { d, nonblock } = call {
        set_flag(owners, p, d, nonblock);
    }
}

/// Updates the table for an entry. `queue` is the queue that an open opened, or on which another
/// call was made. If the table says what the definitions say about a legal journal, it afterwards
/// says so about the journal with the entry.
#[inline(always)]
pub fn note(owners: &mut [Owner], entry: Entry, queue: u64)
    requires process { owner_of entry.process < length owners.old }
    requires numbers { FitsSlots entry.call entry.reply }
    ensures table { owners.new ≡ noted owners.old entry.process entry.call entry.reply queue }
    ensures mirror { KeepsMirror owners.old entry queue owners.new }
{
    note_reply(owners, entry, queue);
}

#[inline(always)]
fn note_reply(owners: &mut [Owner], entry: Entry, queue: u64)
    requires process { owner_of entry.process < length owners.old }
    requires numbers { FitsSlots entry.call entry.reply }
    ensures { owners.new ≡ noted owners.old entry.process entry.call entry.reply queue }
{
    let p = entry.process;
    match entry.reply {
        Reply::Opened { d, created: _ } => note_open(owners, p, entry.call, d, queue),
        Reply::Done => note_done(owners, p, entry.call),
        Reply::Attrs(_) => note_attributes(owners, p, entry.call),
        _ => {}
    }
}

/// The lowest descriptor that the process of caller p does not hold.
pub fn free_number(owners: &[Owner], p: u32) -> Option<u32>
    ensures { result ≡ free_number_in owners.now p }
{
    for d in 0..DESCRIPTORS as u32 {
        if held(owners, p, d).is_none() {
            return Some(d);
        }
    }
    None
}

/// The lowest descriptor that the process of caller p holds.
pub fn lowest_held(owners: &[Owner], p: u32) -> Option<u32>
    ensures { result ≡ lowest_held_in owners.now p }
{
    for d in 0..DESCRIPTORS as u32 {
        if held(owners, p, d).is_some() {
            return Some(d);
        }
    }
    None
}
