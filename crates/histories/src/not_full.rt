//! Sends that found their queue full, although too few messages can have been in it.
ghost use Rattle.std.specs.Prelude.{◌≡◌, IfOk, IfSome, IsSome};
ghost use Rattle.std.specs.List.{count_by, list_any};
ghost use Rattle.histories.specs.Excess.{HasNoOrder};
ghost use Rattle.histories.specs.Named.{calls_on, has_any, has_returned_on};
ghost use Rattle.histories.specs.NotFull.{IsNotFull, asks_less, creates_less, enters_by, finds_full, found_full, is_got, may_enter, says_full, takes_out, times_entered, times_taken};

use crate::excess::returned_by;
use crate::named::{Marks, is_marked, marks_after, was_unbound};
use crate::operation::{Operation, Outcome, has_failed};
use crate::queues::{Queue, queues_of};
use mq_model::entries::Call;
use mq_model::error_order::attributes_given;
use mq_model::faults::Fault;
use mq_model::limits::PROCESSES;
use std::alloc::{AllocError, Global};

/// A send that failed with `EAGAIN` or `ETIMEDOUT`, so it found its queue full, although fewer
/// messages than the queue can hold can have been in it.
#[derive(Drop)]
pub struct NotFull {
    pub prio: u32,
    pub message: Vec<u8>,
    /// The name of the queue.
    pub name: Vec<u8>,
    /// How many messages the queue can hold at least: each open that may have created it asks for
    /// that much.
    pub capacity: u64,
    /// A time before the send began.
    pub from: u64,
    /// When the send had returned.
    pub to: u64,
    /// How many receives from the queue had returned a message by `from`. A receive after a call of
    /// its process that had not returned by then does not count.
    pub received: u128,
    /// How many sends to the queue that began by `to` succeeded, or had not returned when the
    /// history ended.
    pub sent: u128,
}

// Whether a send with this error found its queue full.
fn says_full(fault: Fault) -> bool
    ensures { result ≡ says_full fault }
{
    matches!(fault, Fault::Again | Fault::TimedOut)
}

// Whether a send with this result found its queue full.
fn found_full(outcome: &Outcome) -> bool
    ensures { result ≡ found_full outcome.now }
{
    match outcome {
        Outcome::Refused(fault) => says_full(*fault),
        _ => false,
    }
}

// Whether an operation is a send of this message that found its queue full, and began after this
// time.
fn finds_full(time: u64, prio: u32, message: &[u8], operation: &Operation) -> bool
    ensures { result ≡ finds_full time prio message.now operation.now }
{
    operation.call.is_send()
        && found_full(&operation.outcome)
        && operation.call.priority() == prio
        && operation.given.as_slice() == message
        && time < operation.begin
}

// Whether the message of a send with this result may have entered its queue.
fn may_enter(outcome: &Outcome) -> bool
    ensures { result ≡ may_enter outcome.now }
{
    matches!(outcome, Outcome::Done | Outcome::Pending)
}

// Whether an operation is such a send that began by this time.
fn enters_by(time: u64, operation: &Operation) -> bool
    ensures { result ≡ enters_by time operation.now }
{
    operation.begin <= time && operation.call.is_send() && may_enter(&operation.outcome)
}

fn is_got(outcome: &Outcome) -> bool
    ensures { result ≡ is_got outcome.now }
{
    match outcome {
        Outcome::Got {
            prio: _,
            message: _,
        } => true,
        _ => false,
    }
}

// Whether a call is an open that gives the queue room for fewer messages if it creates it.
fn asks_less(capacity: u64, call: Call) -> bool
    ensures { result ≡ asks_less capacity call }
{
    match call {
        Call::MqOpen { flags, attr: _ } => {
            flags.create && i128::from(attributes_given(call).maxmsg) < i128::from(capacity)
        }
        _ => false,
    }
}

// Whether an operation is such an open of this name that began by this time and did not fail.
fn creates_less(time: u64, name: &[u8], capacity: u64, operation: &Operation) -> bool
    ensures { result ≡ creates_less time name.now capacity operation.now }
{
    operation.begin <= time
        && asks_less(capacity, operation.call)
        && !has_failed(&operation.outcome)
        && operation.given.as_slice() == name
}

fn one_full(found: &NotFull, operations: &[Operation]) -> bool
    ensures { result ≡ list_any
        (finds_full found.now.from found.now.prio found.now.message.items)
        (calls_on found.now.name.items operations.now) }
{
    let mut full = false;
    let mut marks: Marks = [false; 16];
    for operation in operations {
        let is_on = is_marked(&marks, operation.call.descriptor());
        full = full || (is_on && finds_full(found.from, found.prio, &found.message, operation));
        marks = marks_after(&found.name, marks, operation);
    }
    full
}

fn one_less(time: u64, name: &[u8], capacity: u64, operations: &[Operation]) -> bool
    ensures { result ≡ list_any (creates_less time name.now capacity) operations.now }
{
    let mut found = false;
    for operation in operations {
        found = found || creates_less(time, name, capacity, operation);
    }
    found
}

// Whether the send found the queue full.
fn was_full(found: &NotFull, histories: &Vec<Vec<Operation>>) -> bool
    ensures { result ≡ has_returned_on found.now.to found.now.name.items
        (finds_full found.now.from found.now.prio found.now.message.items) histories.now.items }
{
    let mut full = false;
    for operations in histories {
        full = full || one_full(found, returned_by(found.to, operations));
    }
    full
}

// Whether an open of this name that began by this time may have created the queue with a lower
// capacity.
fn was_less(time: u64, name: &[u8], capacity: u64, histories: &Vec<Vec<Operation>>) -> bool
    ensures { result ≡ has_any (creates_less time name.now capacity) histories.now.items }
{
    let mut found = false;
    for operations in histories {
        found = found || one_less(time, name, capacity, operations);
    }
    found
}

fn entering(time: u64, name: &[u8], operations: &[Operation]) -> u64
    ensures count { result ≡ count_by (enters_by time) (calls_on name.now operations.now) }
{
    let mut count: u64 = 0;
    let mut marks: Marks = [false; 16];
    for operation in operations {
        if is_marked(&marks, operation.call.descriptor()) && enters_by(time, operation) {
            count += 1;
        }
        marks = marks_after(name, marks, operation);
    }
    count
}

fn taken_out(name: &[u8], operations: &[Operation]) -> u64
    ensures count { result ≡ count_by takes_out (calls_on name.now operations.now) }
{
    let mut count: u64 = 0;
    let mut marks: Marks = [false; 16];
    for operation in operations {
        if is_marked(&marks, operation.call.descriptor()) && is_got(&operation.outcome) {
            count += 1;
        }
        marks = marks_after(name, marks, operation);
    }
    count
}

fn times_entered(time: u64, name: &[u8], histories: &Vec<Vec<Operation>>) -> u128
    ensures { result ≡ times_entered time name.now histories.now.items }
{
    let mut count: u128 = 0;
    for operations in histories {
        count += u128::from(entering(time, name, operations));
    }
    count
}

fn times_taken(time: u64, name: &[u8], histories: &Vec<Vec<Operation>>) -> u128
    ensures { result ≡ times_taken time name.now histories.now.items }
{
    let mut count: u128 = 0;
    for operations in histories {
        count += u128::from(taken_out(name, returned_by(time, operations)));
    }
    count
}

// The result, if it is right.
fn checked(found: NotFull, histories: &Vec<Vec<Operation>>) -> Option<NotFull>
    ensures { IfSome result (IsNotFull histories.now.items) }
{
    if histories.len() > PROCESSES as usize {
        return None;
    }
    let full = was_full(&found, histories);
    let sent = times_entered(found.to, &found.name, histories);
    let received = times_taken(found.from, &found.name, histories);
    let less = was_less(found.to, &found.name, found.capacity, histories);
    let unbound = was_unbound(found.to, &found.name, histories);
    let is_counted = found.sent == sent && found.received == received;
    let is_fewer = sent < received || sent - received < u128::from(found.capacity);
    if full && is_counted && is_fewer && !less && !unbound {
        Some(found)
    } else {
        None
    }
}

// The sends that may have entered the queue and the receives, by their times, and the capacities
// that opens ask for.
#[derive(Drop)]
struct Uses {
    // when the sends began and when the receives returned, sorted
    begins: Vec<u64>,
    ends: Vec<u64>,
    // when each open began, with the least capacity that was asked for until then, sorted
    capacities: Vec<(u64, u64)>,
}

fn uses_of(alloc: Global, queue: &Queue) -> Result<Uses, AllocError> {
    let mut begins: Vec<u64> = Vec::new(alloc);
    let mut ends: Vec<u64> = Vec::new(alloc);
    let mut capacities: Vec<(u64, u64)> = Vec::new(alloc);
    for operation in &queue.operations {
        if enters_by(u64::MAX, operation) {
            begins.push(operation.begin)?;
        }
        if is_got(&operation.outcome) {
            ends.push(operation.end)?;
        }
    }
    for operation in &queue.opens {
        if let Some(capacity) = capacity_of(operation) {
            capacities.push((operation.begin, capacity))?;
        }
    }
    begins.sort()?;
    ends.sort()?;
    capacities.sort()?;
    let mut least = u64::MAX;
    for index in 0..capacities.len() {
        least = least.min(capacities[index].1);
        capacities[index].1 = least;
    }
    Ok(Uses {
        begins,
        ends,
        capacities,
    })
}

// The capacity that an open asks for, if it may have created its queue.
fn capacity_of(operation: &Operation) -> Option<u64> {
    match operation.call {
        Call::MqOpen { flags, attr: _ } if flags.create && !has_failed(&operation.outcome) => {
            u64::try_from(attributes_given(operation.call).maxmsg).ok()
        }
        _ => None,
    }
}

// How many of these sorted times are not after `time`.
fn count_until(times: &Vec<u64>, time: u64) -> usize {
    times.partition_point(|one| *one <= time)
}

// The least capacity that was asked for until this time.
fn least_until(capacities: &Vec<(u64, u64)>, time: u64) -> Option<u64> {
    let count = capacities.partition_point(|one| one.0 <= time);
    if count == 0 || count > capacities.len() {
        return None;
    }
    Some(capacities[count - 1].1)
}

// Whether fewer messages than the queue can hold were in it when this send found it full.
fn is_suspect(uses: &Uses, until: u64, operation: &Operation) -> bool {
    if !operation.call.is_send() || !found_full(&operation.outcome) || operation.begin == 0 {
        return false;
    }
    let sent = count_until(&uses.begins, operation.end) as u128;
    let received = count_until(&uses.ends, operation.begin - 1) as u128;
    match least_until(&uses.capacities, operation.end) {
        None => false,
        Some(capacity) => {
            operation.end < until && sent < received.saturating_add(u128::from(capacity))
        }
    }
}

// The suspect send to a queue that returned first.
fn first_suspect<'h>(uses: &Uses, queue: &Queue<'h>) -> Option<&'h Operation> {
    let mut first: Option<&Operation> = None;
    for operation in &queue.operations {
        let operation: &'h Operation = *operation;
        if is_suspect(uses, queue.until, operation) {
            first = match first {
                Some(other) if other.end <= operation.end => Some(other),
                _ => Some(operation),
            };
        }
    }
    first
}

// What may contradict the others in a queue.
fn suspect(
    alloc: Global,
    queue: &Queue,
    histories: &Vec<Vec<Operation>>,
) -> Result<Option<NotFull>, AllocError> {
    let uses = uses_of(alloc, queue)?;
    let Some(operation) = first_suspect(&uses, queue) else {
        return Ok(None);
    };
    let Some(capacity) = least_until(&uses.capacities, operation.end) else {
        return Ok(None);
    };
    let message = operation.given.as_slice().to_vec(alloc)?;
    let name = queue.name.to_vec(alloc)?;
    let from = operation.begin.saturating_sub(1);
    Ok(Some(NotFull {
        prio: operation.call.priority(),
        message,
        name,
        capacity,
        from,
        to: operation.end,
        received: times_taken(from, queue.name, histories),
        sent: times_entered(operation.end, queue.name, histories),
    }))
}

// The first of what may contradict the others in the queues.
fn first_of_queues(
    alloc: Global,
    histories: &Vec<Vec<Operation>>,
) -> Result<Option<NotFull>, AllocError> {
    let queues = queues_of(alloc, histories)?;
    let mut first: Option<NotFull> = None;
    for queue in &queues {
        if let Some(found) = suspect(alloc, queue, histories)? {
            first = match first {
                Some(other) if other.to <= found.to => Some(other),
                _ => Some(found),
            };
        }
    }
    Ok(first)
}

/// A send that found its queue full, although too few messages can have been in it, if one is
/// found. Such a history has no linearization.
pub fn find_not_full(
    alloc: Global,
    histories: &Vec<Vec<Operation>>,
) -> Result<Option<NotFull>, AllocError>
    ensures is { IfOk result (λ found. IfSome found (IsNotFull histories.now.items)) }
    ensures none { IfOk result (λ found. IsSome found → HasNoOrder histories.now.items) }
{
    match first_of_queues(alloc, histories)? {
        None => Ok(None),
        Some(found) => Ok(checked(found, histories)),
    }
}
