//! State keys: numbers of the state that a journal leaves. Two legal journals with the same key are
//! equivalent.
ghost use Rattle.std.specs.Prelude.{◌≡◌, ◌≤◌, ◌^◌, Bool, true, IfOk, IsTrue};
ghost use Rattle.mq_model.specs.Record.{Past};
ghost use Rattle.mq_model.specs.Legality.{Legal};
ghost use Rattle.mq_equivalence.specs.Equivalence.{Agree, Equivalent};
ghost use Rattle.mq_equivalence.specs.Key.{key_if, key_of, key_within};

use crate::naming::queues_by_name;
use crate::parts::{number_bound, process_bound, push_processes, push_queues};
use mq_model::journals::Journal;
use mq_state::trail::Trail;
use std::alloc::{AllocError, Global};
use std::cmp;

/// Two legal journals with the same key are equivalent, or agree if no receive is to come. The
/// converse fails: the key depends on the greatest process that called and the greatest descriptor
/// that was given, so two equivalent journals may have different keys.
pub fn keys_tell()
    ensures { (received : Bool) (x y : Past) →
        Legal x → Legal y → key_if received x ≡ key_if received y → Agree received x y }
{}

/// The key of the state that a journal leaves: its queues with their names, limits, messages, waits
/// and registrations; and for each process its wait with what answered it, its notices and its
/// descriptors. It reads the journal once, for the greatest process and descriptor, and takes
/// everything else from the tables of the trail. Fails if memory was refused.
pub fn key_of(alloc: Global, trail: &Trail) -> Result<Vec<u64>, AllocError>
    ensures { IfOk result (λ k. k.items ≡ key_of trail.now) }
{
    key_if(alloc, trail, true)
}

/// The same, if `received` is false for a journal after which no receive is to come: only the number
/// of messages in a queue counts then.
pub fn key_if(alloc: Global, trail: &Trail, received: bool) -> Result<Vec<u64>, AllocError>
    ensures { IfOk result (λ k. k.items ≡ key_if received trail.now) }
{
    let count = process_bound(trail.journal());
    let width = number_bound(trail.journal());
    let key = key_within(alloc, trail, received, count, width)?;
    Ok(key)
}

// The key, with what each process below `count` has, and holds under each number below `width`.
fn key_within(
    alloc: Global,
    trail: &Trail,
    received: bool,
    count: u64,
    width: u64,
) -> Result<Vec<u64>, AllocError>
    requires count { count ≤ 2 ^ 32 }
    requires width { width ≤ 2 ^ 32 }
    ensures { IfOk result (λ k. k.items ≡ key_within received count width trail.now) }
{
    let queues = queues_by_name(alloc, trail)?;
    let mut key = Vec::new(alloc);
    push_queues(alloc, &mut key, trail, received, &queues)?;
    push_processes(&mut key, trail, &queues, count, width)?;
    Ok(key)
}

/// Whether two legal journals have the same key, and so are equivalent. It takes time in the length
/// of the journals. `false` says nothing: no contract rejects a body that always returns it.
pub fn are_equivalent(alloc: Global, x: &Journal, y: &Journal) -> Result<bool, AllocError>
    requires { Legal x.now.records × Legal y.now.records }
    ensures { IfOk result (λ same. IsTrue same → Equivalent x.now.records y.now.records) }
{
    let count = cmp::max(process_bound(x), process_bound(y));
    let width = cmp::max(number_bound(x), number_bound(y));
    let one = key_after(alloc, x, count, width)?;
    let other = key_after(alloc, y, count, width)?;
    Ok(one.as_slice() == other.as_slice())
}

// The key of a legal journal, with these bounds.
fn key_after(
    alloc: Global,
    journal: &Journal,
    count: u64,
    width: u64,
) -> Result<Vec<u64>, AllocError>
    requires legal { Legal journal.now.records }
    requires count { count ≤ 2 ^ 32 }
    requires width { width ≤ 2 ^ 32 }
    ensures { IfOk result (λ k. k.items ≡ key_within true count width journal.now.records) }
{
    let trail = trail_after(alloc, journal)?;
    let key = key_within(alloc, &trail, true, count, width)?;
    Ok(key)
}

/// The trail of the calls of a legal journal.
pub fn trail_after(alloc: Global, journal: &Journal) -> Result<Trail, AllocError>
    requires { Legal journal.now.records }
    ensures { IfOk result (λ trail. trail ≡ journal.now.records) }
{
    let mut trail = Trail::new(alloc)?;
    for place in 0..journal.len() {
        let (entry, payload) = journal.record(place);
        if !trail.make(entry.process, entry.call, payload)? {
            unreachable!()
        }
    }
    Ok(trail)
}
