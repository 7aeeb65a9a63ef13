//! The partial order of the steps of a run (happens-before), which does not depend on the schedule.

use crate::deed::Deed;
use crate::dependence::are_independent;
use crate::index::Index;
use crate::kind::Kind;
use std::alloc::{AllocError, Global};

/// A vector clock: how many events of each thread come before an event, itself included.
#[derive(Drop)]
pub struct Clock {
    counts: Vec<u32>,
}

/// A step with its vector clock.
#[derive(Drop)]
pub struct Event {
    pub deed: Deed,
    pub clock: Clock,
    /// Its number among the events of its thread, counted from 1.
    pub number: u32,
    /// The index at which its thread was last switched to.
    pub block: usize,
}

impl Clock {
    /// A clock in which no thread has made a step.
    pub fn new(alloc: Global) -> Clock {
        Clock {
            counts: Vec::new(alloc),
        }
    }

    /// A copy of the clock.
    pub fn copy(&self, alloc: Global) -> Result<Clock, AllocError> {
        let counts = self.counts.to_vec(alloc)?;
        Ok(Clock { counts })
    }

    /// How many steps of a thread have happened before.
    pub fn count(&self, thread: u32) -> u32 {
        match self.counts.get(thread as usize) {
            Some(count) => *count,
            None => 0,
        }
    }

    /// The counts, without the zeros at the end.
    pub fn counts(&self) -> &[u32] {
        self.counts.as_slice()
    }

    /// Adds what comes before the other clock.
    pub fn join(&mut self, other: &Clock) -> Result<(), AllocError> {
        for (i, count) in other.counts.iter().enumerate() {
            if i < self.counts.len() {
                if self.counts[i] < *count {
                    self.counts[i] = *count;
                }
            } else {
                self.counts.push(*count)?;
            }
        }
        Ok(())
    }

    /// Adds one event of a thread, and returns its number.
    pub fn tick(&mut self, thread: u32) -> Result<u32, AllocError> {
        let at = thread as usize;
        for _ in self.counts.len()..=at {
            self.counts.push(0)?;
        }
        let number = self.count(thread).saturating_add(1);
        if at < self.counts.len() {
            self.counts[at] = number;
        }
        Ok(number)
    }

    /// Whether the event comes before this clock.
    pub fn has(&self, event: &Event) -> bool {
        self.count(event.deed.choice.thread) >= event.number
    }
}

/// The clock of a thread after the events before index `end`.
pub fn clock_before(
    alloc: Global,
    events: &[Event],
    index: &Index,
    thread: u32,
    end: usize,
) -> Result<Clock, AllocError> {
    match index
        .last_before(thread, end)
        .and_then(|last| events.get(last))
    {
        Some(event) => event.clock.copy(alloc),
        None => Ok(Clock::new(alloc)),
    }
}

// The event that created a thread.
fn creation(events: &[Event], thread: u32) -> Option<&Event> {
    events
        .iter()
        .rev()
        .find(|it| it.deed.created.contains(&thread))
}

// The event that must come before a step: the one that let it go on, or the last one of the thread
// that it joins.
fn before<'e>(events: &'e [Event], index: &Index, deed: &Deed, joined: u32) -> Option<&'e Event> {
    match deed.kind {
        Kind::Join => events.get(index.last_before(joined, events.len())?),
        _ => events.get(deed.cause?),
    }
}

// Adds what comes before the last event of the list on which a step depends. The earlier ones are of
// the same thread, and come before that one.
fn join_last(
    clock: &mut Clock,
    events: &[Event],
    places: &[usize],
    deed: &Deed,
) -> Result<(), AllocError> {
    for place in places.iter().rev() {
        if let Some(event) = events.get(*place) {
            if clock.has(event) {
                return Ok(());
            }
            if !are_independent(&event.deed, deed) {
                return clock.join(&event.clock);
            }
        }
    }
    Ok(())
}

// The index at which a thread was last switched to, if it makes a step after these events.
fn block_of(events: &[Event], thread: u32) -> usize {
    match events.iter().rev().find(|it| !it.deed.is_local()) {
        Some(last) if last.deed.choice.thread == thread => last.block,
        _ => events.len(),
    }
}

/// The event of a step after these events, which the index has.
pub fn event_of(
    alloc: Global,
    events: &[Event],
    index: &Index,
    deed: Deed,
    joined: u32,
) -> Result<Event, AllocError> {
    let thread = deed.choice.thread;
    let mut clock = clock_before(alloc, events, index, thread, events.len())?;
    if clock.count(thread) == 0
        && let Some(event) = creation(events, thread)
    {
        clock.join(&event.clock)?;
    }
    if let Some(event) = before(events, index, &deed, joined) {
        clock.join(&event.clock)?;
    }
    for places in index.dependent(alloc, &deed)? {
        join_last(&mut clock, events, places, &deed)?;
    }
    let number = clock.tick(thread)?;
    let block = block_of(events, thread);
    Ok(Event {
        deed,
        clock,
        number,
        block,
    })
}

// Mixes a number into a hash.
fn mixed(hash: u64, value: u64) -> u64 {
    let x = (hash ^ value).wrapping_mul(0x9E37_79B9_7F4A_7C15);
    x ^ (x >> 32)
}

fn event_key(event: &Event) -> u64 {
    let choice = event.deed.choice;
    let mut hash = mixed(u64::from(choice.thread), u64::from(choice.variant));
    hash = mixed(hash, u64::from(event.number));
    hash = mixed(hash, u64::from(event.deed.is_late));
    for count in event.clock.counts() {
        hash = mixed(hash, u64::from(*count));
    }
    hash
}

/// A hash of the partial order of a run. Runs with the same partial order have the same hash, and
/// different orders may have the same by chance.
pub fn order_key(events: &[Event]) -> u64 {
    let mut key = 0u64;
    for event in events {
        key = key.wrapping_add(event_key(event));
    }
    key
}
