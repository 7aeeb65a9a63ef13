//! Messages that were received more often than they were sent, up to a time.
ghost use Rattle.std.specs.Prelude.{◌≡◌, ◌≤◌, IfOk, IfSome, IsSome, length, position};
ghost use Rattle.std.specs.List.{count_by};
ghost use Rattle.histories.specs.Excess.{HasNoOrder, IsExcess, has_got, may_have_sent, receives, returned_by, returns_after, sends, sends_by, times_received, times_sent};

use crate::operation::{Operation, Outcome, is_timeout};
use std::alloc::{AllocError, Global};

/// A message that was received more often than it was sent, up to a time: so often receives had
/// returned it before so many sends of it began.
#[derive(Drop)]
pub struct Excess {
    pub prio: u32,
    pub message: Vec<u8>,
    pub time: u64,
    /// How many receives had returned it by the time. A receive after a call of its process that
    /// had not returned by then does not count.
    pub received: u128,
    /// How many calls that began by the time may have sent it: sends that did not fail, and those
    /// whose deadline passed, since they may have waited.
    pub sent: u128,
}

/// Whether a send with this result may have sent its message. One whose deadline passed may have
/// waited.
pub fn may_have_sent(outcome: &Outcome) -> bool
    ensures { result ≡ may_have_sent outcome.now }
{
    match outcome {
        Outcome::Refused(fault) => is_timeout(*fault),
        _ => true,
    }
}

// Whether an operation is a send of this message that may have succeeded.
fn sends(prio: u32, message: &[u8], operation: &Operation) -> bool
    ensures { result ≡ sends prio message.now operation.now }
{
    operation.call.is_send()
        && may_have_sent(&operation.outcome)
        && operation.call.priority() == prio
        && operation.given.as_slice() == message
}

/// Whether a receive got this message, with this priority.
pub fn has_got(prio: u32, message: &[u8], outcome: &Outcome) -> bool
    ensures { result ≡ has_got prio message.now outcome.now }
{
    match outcome {
        Outcome::Got {
            prio: p,
            message: m,
        } => *p == prio && m.as_slice() == message,
        _ => false,
    }
}

// Whether an operation returned later than this time, or not at all.
fn returns_after(time: u64, operation: &Operation) -> bool
    ensures { result ≡ returns_after time operation.now }
{
    operation.outcome.is_pending() || time < operation.end
}

// The first operation that had not returned by this time.
fn first_after(time: u64, operations: &[Operation]) -> Option<usize>
    ensures first { result ≡ position (returns_after time) operations.now }
    ensures room { IfSome result (λ place. place ≤ length operations.now) }
{
    operations
        .iter()
        .position(|operation| returns_after(time, operation))
}

/// The operations of a process before the first that had not returned by this time.
pub fn returned_by(time: u64, operations: &[Operation]) -> &[Operation]
    ensures { result.now ≡ returned_by time operations.now }
{
    match first_after(time, operations) {
        None => operations,
        Some(place) => &operations[..place],
    }
}

/// Whether an operation is such a send that began by this time.
pub fn sends_by(time: u64, prio: u32, message: &[u8], operation: &Operation) -> bool
    ensures { result ≡ sends_by time prio message.now operation.now }
{
    operation.begin <= time && sends(prio, message, operation)
}

fn sends_in(time: u64, prio: u32, message: &[u8], operations: &[Operation]) -> u64
    ensures count { result ≡ count_by (sends_by time prio message.now) operations.now }
{
    let mut count: u64 = 0;
    for operation in operations {
        if sends_by(time, prio, message, operation) {
            count += 1;
        }
    }
    count
}

fn receives_in(prio: u32, message: &[u8], operations: &[Operation]) -> u64
    ensures count { result ≡ count_by (receives prio message.now) operations.now }
{
    let mut count: u64 = 0;
    for operation in operations {
        if has_got(prio, message, &operation.outcome) {
            count += 1;
        }
    }
    count
}

fn times_sent(time: u64, prio: u32, message: &[u8], histories: &Vec<Vec<Operation>>) -> u128
    ensures { result ≡ times_sent time prio message.now histories.now.items }
{
    let mut count: u128 = 0;
    for operations in histories {
        count += u128::from(sends_in(time, prio, message, operations));
    }
    count
}

fn times_received(time: u64, prio: u32, message: &[u8], histories: &Vec<Vec<Operation>>) -> u128
    ensures { result ≡ times_received time prio message.now histories.now.items }
{
    let mut count: u128 = 0;
    for operations in histories {
        count += u128::from(receives_in(prio, message, returned_by(time, operations)));
    }
    count
}

// The begin of a send or the return of a receive: the priority and the message, the time, and
// whether the message was received.
type Use<'h> = (u32, &'h [u8], u64, bool);

// The sends and the receives that count, sorted by message and then by time. At one time the sends
// come first.
fn uses_of(alloc: Global, histories: &Vec<Vec<Operation>>) -> Result<Vec<Use>, AllocError> {
    let mut uses: Vec<Use> = Vec::new(alloc);
    for operations in histories {
        for operation in operations {
            if operation.call.is_send() && may_have_sent(&operation.outcome) {
                let prio = operation.call.priority();
                uses.push((prio, operation.given.as_slice(), operation.begin, false))?;
            }
            if let Outcome::Got { prio, message } = &operation.outcome {
                uses.push((*prio, message.as_slice(), operation.end, true))?;
            }
        }
    }
    uses.sort()?;
    Ok(uses)
}

// The first of these receives for which no send had begun.
fn suspect<'u, 'h>(uses: &'u Vec<Use<'h>>) -> Option<&'u Use<'h>> {
    let mut left: u64 = 0;
    let mut last: (u32, &[u8]) = (0, &[]);
    for one in uses {
        let (prio, message, _, is_received) = *one;
        if last.0 != prio || last.1 != message {
            left = 0;
            last = (prio, message);
        }
        if !is_received {
            left = left.saturating_add(1);
        } else if left == 0 {
            return Some(one);
        } else {
            left -= 1;
        }
    }
    None
}

// The message with its counts, if it was received more often than it was sent up to this time.
fn excess_of(
    alloc: Global,
    time: u64,
    prio: u32,
    message: &[u8],
    histories: &Vec<Vec<Operation>>,
) -> Result<Option<Excess>, AllocError>
    ensures { IfOk result (λ found. IfSome found (IsExcess histories.now.items)) }
{
    let received = times_received(time, prio, message, histories);
    let sent = times_sent(time, prio, message, histories);
    if sent >= received {
        return Ok(None);
    }
    let message = message.to_vec(alloc)?;
    Ok(Some(Excess {
        prio,
        message,
        time,
        received,
        sent,
    }))
}

/// A message that was received more often than it was sent up to a time, if one is found. Such a
/// history has no linearization.
pub fn find_excess(
    alloc: Global,
    histories: &Vec<Vec<Operation>>,
) -> Result<Option<Excess>, AllocError>
    ensures is { IfOk result (λ found. IfSome found (IsExcess histories.now.items)) }
    ensures none { IfOk result (λ found. IsSome found → HasNoOrder histories.now.items) }
{
    let uses = uses_of(alloc, histories)?;
    match suspect(&uses) {
        None => Ok(None),
        Some((prio, message, time, _)) => excess_of(alloc, *time, *prio, message, histories),
    }
}
