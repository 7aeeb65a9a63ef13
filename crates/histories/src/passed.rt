//! Messages that lay in their queue while a receive passed over them.
ghost use Rattle.std.specs.Prelude.{◌≡◌, IfOk, IfSome, IsSome};
ghost use Rattle.std.specs.List.{list_any};
ghost use Rattle.histories.specs.Excess.{HasNoOrder};
ghost use Rattle.histories.specs.Named.{calls_on, has_any_on, has_returned_on};
ghost use Rattle.histories.specs.Passed.{IsPassed, got_other, has_sent, is_done, is_part, may_receive, passes, passes_over, says_empty, sends_other};

use crate::excess::{has_got, may_have_sent, returned_by, sends_by};
use crate::named::{Marks, is_marked, marks_after, was_unbound};
use crate::operation::{Operation, Outcome};
use crate::queues::{Queue, queues_of};
use mq_model::faults::Fault;
use mq_model::limits::PROCESSES;
use std::alloc::{AllocError, Global};

/// A message that lay in its queue while a receive passed over it: the receive failed with `EAGAIN`
/// or `ETIMEDOUT`, or got a message of a lower priority or one of its priority that was sent later.
#[derive(Drop)]
pub struct Passed {
    pub prio: u32,
    pub message: Vec<u8>,
    /// The name of the queue.
    pub name: Vec<u8>,
    /// The message that the receive got instead, if it has the same priority. No send of it had
    /// begun by `from`.
    pub other: Option<Vec<u8>>,
    /// A time before the receive began by which a send of the message had returned.
    pub from: u64,
    /// When the receive had returned. No call that began by then may have received the message.
    pub to: u64,
}

fn is_done(outcome: &Outcome) -> bool
    ensures { result ≡ is_done outcome.now }
{
    matches!(outcome, Outcome::Done)
}

// Whether an operation is a send of this message that succeeded.
fn has_sent(prio: u32, message: &[u8], operation: &Operation) -> bool
    ensures { result ≡ has_sent prio message.now operation.now }
{
    operation.call.is_send()
        && is_done(&operation.outcome)
        && operation.call.priority() == prio
        && operation.given.as_slice() == message
}

// Whether a receive with this error found no message.
fn says_empty(fault: Fault) -> bool
    ensures { result ≡ says_empty fault }
{
    matches!(fault, Fault::Again | Fault::TimedOut)
}

// Whether a receive with this result found no message of this priority or a higher one.
fn passes(prio: u32, outcome: &Outcome) -> bool
    ensures { result ≡ passes prio outcome.now }
{
    match outcome {
        Outcome::Got {
            prio: p,
            message: _,
        } => *p < prio,
        Outcome::Refused(fault) => says_empty(*fault),
        _ => false,
    }
}

// Whether a receive with this result got this other message of the priority.
fn got_other(prio: u32, other: &Option<Vec<u8>>, outcome: &Outcome) -> bool
    ensures { result ≡ got_other prio other.now outcome.now }
{
    match other {
        None => false,
        Some(other) => has_got(prio, other, outcome),
    }
}

// Whether an operation is such a receive, which began after this time.
fn passes_over(time: u64, prio: u32, other: &Option<Vec<u8>>, operation: &Operation) -> bool
    ensures { result ≡ passes_over time prio other.now operation.now }
{
    operation.call.is_receive()
        && time < operation.begin
        && (passes(prio, &operation.outcome) || got_other(prio, other, &operation.outcome))
}

// Whether an operation began by this time and may have received the message.
fn may_receive(time: u64, prio: u32, message: &[u8], operation: &Operation) -> bool
    ensures { result ≡ may_receive time prio message.now operation.now }
{
    operation.begin <= time
        && (has_got(prio, message, &operation.outcome)
            || (operation.call.is_receive() && operation.outcome.is_pending()))
}

// The parts of a contradiction: what passes its tests.
#[derive(Clone, Copy)]
enum Part {
    Sent,
    PassedOver,
    SentBefore,
    Received,
}

fn sends_other(passed: &Passed, operation: &Operation) -> bool
    ensures { result ≡ sends_other passed.now operation.now }
{
    match &passed.other {
        None => false,
        Some(other) => sends_by(passed.from, passed.prio, other, operation),
    }
}

// Whether an operation is such a part.
fn is_part(part: Part, passed: &Passed, operation: &Operation) -> bool
    ensures { result ≡ is_part part passed.now operation.now }
{
    match part {
        Part::Sent => has_sent(passed.prio, &passed.message, operation),
        Part::PassedOver => passes_over(passed.from, passed.prio, &passed.other, operation),
        Part::SentBefore => sends_other(passed, operation),
        Part::Received => may_receive(passed.to, passed.prio, &passed.message, operation),
    }
}

// Whether one of the operations of a process on the queue is such a part.
fn one_on(part: Part, passed: &Passed, operations: &[Operation]) -> bool
    ensures { result ≡ list_any (is_part part passed.now)
        (calls_on passed.now.name.items operations.now) }
{
    let mut found = false;
    let mut marks: Marks = [false; 16];
    for operation in operations {
        let is_on = is_marked(&marks, operation.call.descriptor());
        found = found || (is_on && is_part(part, passed, operation));
        marks = marks_after(&passed.name, marks, operation);
    }
    found
}

// Whether one of the operations on the queue is such a part.
fn any_on(part: Part, passed: &Passed, histories: &Vec<Vec<Operation>>) -> bool
    ensures { result ≡ has_any_on passed.now.name.items (is_part part passed.now)
        histories.now.items }
{
    let mut found = false;
    for operations in histories {
        found = found || one_on(part, passed, operations);
    }
    found
}

// Whether one of those that had returned by this time is.
fn any_returned_on(part: Part, time: u64, passed: &Passed, histories: &Vec<Vec<Operation>>) -> bool
    ensures { result ≡ has_returned_on time passed.now.name.items (is_part part passed.now)
        histories.now.items }
{
    let mut found = false;
    for operations in histories {
        found = found || one_on(part, passed, returned_by(time, operations));
    }
    found
}

// The result, if it is right.
fn checked(passed: Passed, histories: &Vec<Vec<Operation>>) -> Option<Passed>
    ensures { IfSome result (IsPassed histories.now.items) }
{
    if histories.len() > PROCESSES as usize {
        return None;
    }
    let sent = any_returned_on(Part::Sent, passed.from, &passed, histories);
    let is_passed = any_returned_on(Part::PassedOver, passed.to, &passed, histories);
    let sent_before = any_on(Part::SentBefore, &passed, histories);
    let received = any_on(Part::Received, &passed, histories);
    let unbound = was_unbound(passed.to, &passed.name, histories);
    if sent && is_passed && !sent_before && !received && !unbound {
        Some(passed)
    } else {
        None
    }
}

// A message that lay in the queue: from the first return of a send of it until the first receive
// began that may have got it.
#[derive(Drop)]
struct Stay<'h> {
    prio: u32,
    message: &'h [u8],
    from: u64,
    to: u64,
}

// A receive that found no message of priority `least` or a higher one among those that were in the
// queue since before `begin`; or one that got a message of this priority, no send of which began
// before then.
#[derive(Drop)]
struct Miss<'h> {
    least: u32,
    begin: u64,
    end: u64,
    other: Option<&'h [u8]>,
}

// The return of a send or the begin of a receive: the priority and the message, whether it was
// received, and the time.
type Use<'h> = (u32, &'h [u8], bool, u64);

// The sends and the receives, sorted by message, with the sends of each message first.
fn uses_of<'h>(alloc: Global, operations: &Vec<&'h Operation>) -> Result<Vec<Use<'h>>, AllocError> {
    let mut uses: Vec<Use> = Vec::new(alloc);
    for operation in operations {
        let operation: &'h Operation = *operation;
        if operation.call.is_send() && is_done(&operation.outcome) {
            let prio = operation.call.priority();
            uses.push((prio, operation.given.as_slice(), false, operation.end))?;
        }
        if let Outcome::Got { prio, message } = &operation.outcome {
            uses.push((*prio, message.as_slice(), true, operation.begin))?;
        }
    }
    uses.sort()?;
    Ok(uses)
}

// The stays of the messages, until this time at most.
fn stays_of<'h>(
    alloc: Global,
    uses: &Vec<Use<'h>>,
    until: u64,
) -> Result<Vec<Stay<'h>>, AllocError> {
    let mut stays: Vec<Stay> = Vec::new(alloc);
    for one in uses {
        let (prio, message, is_received, time) = *one;
        let count = stays.len();
        let is_same = count > 0
            && stays[count - 1].prio == prio
            && stays[count - 1].message == message;
        if !is_received && !is_same {
            stays.push(Stay {
                prio,
                message,
                from: time,
                to: until,
            })?;
        }
        if is_received && is_same && time < stays[count - 1].to {
            stays[count - 1].to = time;
        }
    }
    Ok(stays)
}

// The begin of a send, behind its priority and its message.
type Begin<'h> = (u32, &'h [u8], u64);

// The begins of the sends that may have succeeded, sorted by message.
fn begins_of<'h>(
    alloc: Global,
    operations: &Vec<&'h Operation>,
) -> Result<Vec<Begin<'h>>, AllocError> {
    let mut begins: Vec<Begin> = Vec::new(alloc);
    for operation in operations {
        let operation: &'h Operation = *operation;
        if operation.call.is_send() && may_have_sent(&operation.outcome) {
            let prio = operation.call.priority();
            begins.push((prio, operation.given.as_slice(), operation.begin))?;
        }
    }
    begins.sort()?;
    Ok(begins)
}

// When the first send of this message began.
fn first_begin(begins: &Vec<Begin>, prio: u32, message: &[u8]) -> Option<u64> {
    let rank = match begins.binary_search(&(prio, message, 0)) {
        Ok(rank) => rank,
        Err(rank) => rank,
    };
    if rank < begins.len() && begins[rank].0 == prio && begins[rank].1 == message {
        return Some(begins[rank].2);
    }
    None
}

// What a receive missed, if anything.
fn miss_of<'h>(operation: &'h Operation) -> Option<Miss<'h>> {
    let least = match &operation.outcome {
        Outcome::Got { prio, message: _ } => Some(prio.saturating_add(1)),
        Outcome::Refused(fault) if says_empty(*fault) => Some(0),
        _ => None,
    };
    match least {
        Some(least) if operation.call.is_receive() => Some(Miss {
            least,
            begin: operation.begin,
            end: operation.end,
            other: None,
        }),
        _ => None,
    }
}

// What a receive that got a message missed of its priority.
fn missed_before<'h>(begins: &Vec<Begin>, operation: &'h Operation) -> Option<Miss<'h>> {
    match &operation.outcome {
        Outcome::Got { prio, message } => {
            let sent = first_begin(begins, *prio, message)?;
            Some(Miss {
                least: *prio,
                begin: sent.min(operation.begin),
                end: operation.end,
                other: Some(message.as_slice()),
            })
        }
        _ => None,
    }
}

fn misses_of<'h>(
    alloc: Global,
    operations: &Vec<&'h Operation>,
) -> Result<Vec<Miss<'h>>, AllocError> {
    let begins = begins_of(alloc, operations)?;
    let mut misses: Vec<Miss> = Vec::new(alloc);
    for operation in operations {
        let operation: &'h Operation = *operation;
        if let Some(miss) = miss_of(operation) {
            misses.push(miss)?;
        }
        if let Some(miss) = missed_before(&begins, operation) {
            misses.push(miss)?;
        }
    }
    Ok(misses)
}

// The ends of the stays that began, each with the index of its stay: a complete binary tree, whose
// leaves are the priorities in order and whose inner nodes have the latest end below them.
type Ends = Vec<(u64, usize)>;

// Notes an end at a leaf.
fn raise(ends: &mut Ends, leaf: usize, end: u64, stay: usize) {
    let mut node = leaf;
    for _ in 0..64 {
        if node == 0 || node >= ends.len() {
            return;
        }
        if ends[node].0 < end {
            ends[node] = (end, stay);
        }
        node /= 2;
    }
}

// The latest end at this leaf and those after it.
fn latest(ends: &Ends, leaf: usize) -> (u64, usize) {
    let mut found = (0, 0);
    let mut node = leaf;
    if node < ends.len() {
        found = ends[node];
    }
    for _ in 0..64 {
        if node < 2 {
            return found;
        }
        if node % 2 == 0
            && node < ends.len()
            && node + 1 < ends.len()
            && found.0 < ends[node + 1].0
        {
            found = ends[node + 1];
        }
        node /= 2;
    }
    found
}

// The latest end of a stay that a receive missed.
fn missed(prios: &Vec<u32>, ends: &Ends, width: usize, miss: &Miss) -> (u64, usize) {
    match prios.binary_search(&miss.least) {
        Ok(rank) => {
            let leaf = width.saturating_add(rank);
            if miss.other.is_none() {
                latest(ends, leaf)
            } else if leaf < ends.len() {
                ends[leaf]
            } else {
                (0, 0)
            }
        }
        Err(rank) => {
            if miss.other.is_none() && rank < prios.len() {
                latest(ends, width.saturating_add(rank))
            } else {
                (0, 0)
            }
        }
    }
}

// A stay and a miss that lies within it, by their indices.
fn contradiction(
    alloc: Global,
    stays: &Vec<Stay>,
    misses: &Vec<Miss>,
) -> Result<Option<(usize, usize)>, AllocError> {
    let mut prios: Vec<u32> = Vec::new(alloc);
    // The begins of misses and of stays, each with its index. At one time the misses come first.
    let mut begins: Vec<(u64, bool, usize)> = Vec::new(alloc);
    for (index, stay) in stays.iter().enumerate() {
        prios.push(stay.prio)?;
        begins.push((stay.from, true, index))?;
    }
    for (index, miss) in misses.iter().enumerate() {
        begins.push((miss.begin, false, index))?;
    }
    prios.sort()?;
    prios.dedup();
    begins.sort()?;
    let mut width: usize = 1;
    for _ in 0..32 {
        if width < prios.len() {
            width = width.saturating_mul(2);
        }
    }
    let mut ends: Ends = vec![in alloc; (0u64, 0usize); width.saturating_mul(2)]?;
    for (_, is_stay, index) in &begins {
        if *is_stay && *index < stays.len() {
            let stay = &stays[*index];
            if let Ok(rank) = prios.binary_search(&stay.prio) {
                raise(&mut ends, width.saturating_add(rank), stay.to, *index);
            }
        } else if !*is_stay && *index < misses.len() {
            let miss = &misses[*index];
            let (end, stay) = missed(&prios, &ends, width, miss);
            if miss.end < end {
                return Ok(Some((stay, *index)));
            }
        }
    }
    Ok(None)
}

// When the first call began after which nothing is known of the queue: it unbinds the name, or is a
// receive that had not returned.
fn known_until(queue: &Queue) -> u64 {
    let mut until = queue.until;
    for operation in &queue.operations {
        if operation.call.is_receive() && operation.outcome.is_pending() {
            until = until.min(operation.begin);
        }
    }
    until
}

// What may have been passed over in a queue.
fn suspect(alloc: Global, queue: &Queue) -> Result<Option<Passed>, AllocError> {
    let uses = uses_of(alloc, &queue.operations)?;
    let stays = stays_of(alloc, &uses, known_until(queue))?;
    let misses = misses_of(alloc, &queue.operations)?;
    let Some((stay, miss)) = contradiction(alloc, &stays, &misses)? else {
        return Ok(None);
    };
    if stay >= stays.len() || miss >= misses.len() {
        return Ok(None);
    }
    let message = stays[stay].message.to_vec(alloc)?;
    let name = queue.name.to_vec(alloc)?;
    let other = match misses[miss].other {
        None => None,
        Some(other) => {
            let other = other.to_vec(alloc)?;
            Some(other)
        }
    };
    Ok(Some(Passed {
        prio: stays[stay].prio,
        message,
        name,
        other,
        from: stays[stay].from,
        to: misses[miss].end,
    }))
}

// The first of what may have been passed over in the queues.
fn first_suspect(
    alloc: Global,
    histories: &Vec<Vec<Operation>>,
) -> Result<Option<Passed>, AllocError> {
    let queues = queues_of(alloc, histories)?;
    let mut first: Option<Passed> = None;
    for queue in &queues {
        if let Some(found) = suspect(alloc, queue)? {
            first = match first {
                Some(other) if other.to <= found.to => Some(other),
                _ => Some(found),
            };
        }
    }
    Ok(first)
}

/// A message that lay in its queue while a receive passed over it, if one is found. Such a history
/// has no linearization.
pub fn find_passed(
    alloc: Global,
    histories: &Vec<Vec<Operation>>,
) -> Result<Option<Passed>, AllocError>
    ensures is { IfOk result (λ found. IfSome found (IsPassed histories.now.items)) }
    ensures none { IfOk result (λ found. IsSome found → HasNoOrder histories.now.items) }
{
    match first_suspect(alloc, histories)? {
        None => Ok(None),
        Some(passed) => Ok(checked(passed, histories)),
    }
}
