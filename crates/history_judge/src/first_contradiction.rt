//! The first prefix in which calls may contradict each other.
use crate::line::Called;
use histories::excess::may_have_sent;
use histories::not_full::NotFull;
use histories::operation::{Outcome, has_failed};
use mq_model::entries::Call;
use std::alloc::{AllocError, Global};

// A message with its priority.
type Message<'h> = (u32, &'h [u8]);

/// The index of the first prefix, by the order of returns, in which a message may have been
/// received more often than it was sent. It is a guess, from the calls of all processes in the
/// order of their times, so the caller checks that prefix.
pub fn first_excess(
    alloc: Global,
    calls: &[Called],
    returns: &Vec<(u64, usize)>,
) -> Result<Option<usize>, AllocError> {
    let mut messages: Vec<Message> = Vec::new(alloc);
    // the begins of sends, and the returns that account for a message
    let mut events: Vec<(u64, bool, usize)> = Vec::new(alloc);
    for (index, called) in calls.iter().enumerate() {
        let operation = &called.operation;
        if operation.call.is_send() {
            messages.push(message_of(called))?;
            events.push((operation.begin, false, index))?;
        }
        if takes_away(called) {
            messages.push(message_of(called))?;
            events.push((operation.end, true, index))?;
        }
    }
    messages.sort()?;
    messages.dedup();
    events.sort()?;
    let mut left = vec![in alloc; 0u64; messages.len()]?;
    for (_, is_return, index) in &events {
        if *index >= calls.len() {
            return Ok(None);
        }
        let message = message_of(&calls[*index]);
        let Ok(kind) = messages.binary_search(&message) else {
            return Ok(None);
        };
        if kind >= left.len() {
            return Ok(None);
        }
        if !*is_return {
            left[kind] = left[kind].saturating_add(1);
        } else if left[kind] == 0 {
            return Ok(place_of(returns, *index));
        } else {
            left[kind] -= 1;
        }
    }
    Ok(None)
}

// Whether the return of a call accounts for a message that may have been sent: it was received, or
// its send failed.
fn takes_away(called: &Called) -> bool {
    match called.operation.outcome {
        Outcome::Got { .. } => true,
        _ => called.operation.call.is_send() && !may_have_sent(&called.operation.outcome),
    }
}

// The message that a call received, or else the one that it was given.
fn message_of(called: &Called) -> Message {
    let operation = &called.operation;
    match &operation.outcome {
        Outcome::Got { prio, message } => (*prio, message.as_slice()),
        _ => (operation.call.priority(), operation.given.as_slice()),
    }
}

// The index of the return of this call.
fn place_of(returns: &Vec<(u64, usize)>, index: usize) -> Option<usize> {
    returns.iter().position(|one| one.1 == index)
}

/// The index of the first prefix in which each receive that began by `to` has returned. There a
/// receive until `to` that passed over a message contradicts the others. It is a guess, so the
/// caller checks that prefix.
pub fn first_passed(calls: &[Called], returns: &Vec<(u64, usize)>, to: u64) -> Option<usize> {
    let mut last = to;
    for called in calls {
        if called.operation.call.is_receive() && called.operation.begin <= to {
            last = last.max(called.operation.end);
        }
    }
    prefix_until(returns, last)
}

/// The index of the first prefix in which a send that found its queue full contradicts the others:
/// so many of the sends that began by then have returned without success that the queue can't have
/// been full, and each open that failed has returned. It is a guess, so the caller checks that
/// prefix.
pub fn first_not_full(
    alloc: Global,
    calls: &[Called],
    returns: &Vec<(u64, usize)>,
    found: &NotFull,
) -> Result<Option<usize>, AllocError> {
    let mut last = found.to;
    let mut ends: Vec<u64> = Vec::new(alloc);
    for called in calls {
        let operation = &called.operation;
        if operation.begin <= found.to && has_failed(&operation.outcome) {
            if operation.call.is_send() && found.to < operation.end {
                ends.push(operation.end)?;
            }
            if matches!(operation.call, Call::MqOpen { .. }) {
                last = last.max(operation.end);
            }
        }
    }
    ends.sort()?;
    // how many of these sends may be under way
    let most = found.received.saturating_add(u128::from(found.capacity));
    let spare = most.saturating_sub(found.sent).saturating_sub(1);
    let count = ends.len() as u128;
    if spare < count {
        if let Ok(needed) = usize::try_from(count - 1 - spare) {
            if needed < ends.len() {
                last = last.max(ends[needed]);
            }
        }
    }
    Ok(prefix_until(returns, last))
}

// The index of the prefix with the returns until this time.
fn prefix_until(returns: &Vec<(u64, usize)>, last: u64) -> Option<usize> {
    match returns.iter().position(|one| last < one.0) {
        Some(behind) => behind.checked_sub(1),
        None => returns.len().checked_sub(1),
    }
}
