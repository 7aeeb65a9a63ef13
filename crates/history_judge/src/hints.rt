//! The hints: in which order the operations of a history are best tried.
ghost use Rattle.std.specs.Prelude.{◌≡◌, ◌+◌, IfOk, OnOk, length};

use crate::tasks::tasks_of;
use histories::operation::{Operation, Outcome};
use schedules::likely::order_of;
use std::alloc::{AllocError, Global};

// The minimum number of steps of the heuristic, and the additional steps for each operation.
const STEPS: u64 = 100_000;

const STEPS_EACH: u64 = 50;

/// A number for each operation, and one more at the end for each process. They are the positions in
/// an order that the heuristic finds, or if it finds none, the ends of the operations. These are
/// taken at once if a search of `budget` steps is too short for any order.
pub fn hints_of(
    alloc: Global,
    histories: &Vec<Vec<Operation>>,
    budget: u64,
) -> Result<Vec<Vec<u64>>, AllocError>
    ensures { IfOk result (λ hints. length hints.items ≡ length histories.now.items) }
{
    if budget < returned_count(histories) {
        return hints_by_ends(alloc, histories);
    }
    let tasks = tasks_of(alloc, histories)?;
    let steps = STEPS_EACH
        .saturating_mul(operation_count(histories))
        .saturating_add(STEPS);
    match order_of(alloc, tasks, steps)? {
        Some(order) => hints_by_order(alloc, histories, &order),
        None => hints_by_ends(alloc, histories),
    }
}

// How many operations have returned: an order has a step for each.
fn returned_count(histories: &Vec<Vec<Operation>>) -> u64 {
    let mut count: u64 = 0;
    for operations in histories {
        for operation in operations {
            if !operation.outcome.is_pending() {
                count = count.saturating_add(1);
            }
        }
    }
    count
}

fn operation_count(histories: &Vec<Vec<Operation>>) -> u64 {
    let mut count: u64 = 0;
    for operations in histories {
        count = count.saturating_add(operations.len() as u64);
    }
    count
}

// The positions of the operations in an order of their processes. Those that are not in it come
// last.
fn hints_by_order(
    alloc: Global,
    histories: &Vec<Vec<Operation>>,
    order: &[usize],
) -> Result<Vec<Vec<u64>>, AllocError>
    ensures { IfOk result (λ hints. length hints.items ≡ length histories.now.items) }
{
    let mut hints = last_of(alloc, histories)?;
    let mut made = vec![in alloc; 0usize; histories.len()]?;
    for (place, process) in order.iter().enumerate() {
        if *process < made.len() {
            hint(&mut hints, *process, made[*process], place as u64);
            made[*process] = made[*process].saturating_add(1);
        }
    }
    Ok(hints)
}

// The greatest number for each operation, and one more for each process.
fn last_of(alloc: Global, histories: &Vec<Vec<Operation>>) -> Result<Vec<Vec<u64>>, AllocError>
    ensures { IfOk result (λ hints. length hints.items ≡ length histories.now.items) }
{
    let mut hints: Vec<Vec<u64>> = Vec::new(alloc);
    for operations in histories {
        push_last(alloc, &mut hints, operations.len())?;
    }
    Ok(hints)
}

fn push_last(alloc: Global, hints: &mut Vec<Vec<u64>>, count: usize) -> Result<(), AllocError>
    ensures { OnOk result (length hints.new.items ≡ length hints.old.items + 1) }
{
    let last = vec![in alloc; u64::MAX; count.saturating_add(1)]?;
    hints.push(last)?;
    Ok(())
}

// The hint of a send is the end of the receive that got its message, and that of any other
// operation is its own end.
fn hints_by_ends(
    alloc: Global,
    histories: &Vec<Vec<Operation>>,
) -> Result<Vec<Vec<u64>>, AllocError>
    ensures { IfOk result (λ hints. length hints.items ≡ length histories.now.items) }
{
    let mut hints = ends_of(alloc, histories)?;
    let received = received(alloc, histories)?;
    let sent = sent(alloc, histories)?;
    let mut at = 0;
    for (prio, message, _, process, index) in &sent {
        at = first_from(&received, at, *prio, message);
        if let Some(end) = end_at(&received, at, *prio, message) {
            hint(&mut hints, *process, *index, end);
            at = at.saturating_add(1);
        }
    }
    Ok(hints)
}

fn ends_of(alloc: Global, histories: &Vec<Vec<Operation>>) -> Result<Vec<Vec<u64>>, AllocError>
    ensures { IfOk result (λ hints. length hints.items ≡ length histories.now.items) }
{
    let mut hints: Vec<Vec<u64>> = Vec::new(alloc);
    for operations in histories {
        push_ends(alloc, &mut hints, operations)?;
    }
    Ok(hints)
}

// Appends the ends of the operations of a process, and one more.
fn push_ends(
    alloc: Global,
    hints: &mut Vec<Vec<u64>>,
    operations: &Vec<Operation>,
) -> Result<(), AllocError>
    ensures { OnOk result (length hints.new.items ≡ length hints.old.items + 1) }
{
    let mut ends = Vec::new(alloc);
    for operation in operations {
        ends.push(operation.end)?;
    }
    ends.push(u64::MAX)?;
    hints.push(ends)?;
    Ok(())
}

// The first index, from `from` on, of a message that is not less than this one.
fn first_from(received: &[(u32, &[u8], u64)], from: usize, prio: u32, message: &[u8]) -> usize {
    for at in from..received.len() {
        if received[at].0 > prio || (received[at].0 == prio && received[at].1 >= message) {
            return at;
        }
    }
    received.len()
}

// The end of the receive at an index, if it got this message.
fn end_at(received: &[(u32, &[u8], u64)], at: usize, prio: u32, message: &[u8]) -> Option<u64> {
    match received.get(at) {
        Some((other, bytes, end)) if *other == prio && *bytes == message => Some(*end),
        _ => None,
    }
}

// The messages that were received, sorted, each with the end of its receive.
fn received(
    alloc: Global,
    histories: &Vec<Vec<Operation>>,
) -> Result<Vec<(u32, &[u8], u64)>, AllocError> {
    let mut received = Vec::new(alloc);
    for operations in histories {
        for operation in operations {
            if let Outcome::Got { prio, message } = &operation.outcome {
                received.push((*prio, message.as_slice(), operation.end))?;
            }
        }
    }
    received.sort()?;
    Ok(received)
}

// The messages that were sent, sorted, each with the begin of its send, its process and its index.
fn sent(
    alloc: Global,
    histories: &Vec<Vec<Operation>>,
) -> Result<Vec<(u32, &[u8], u64, usize, usize)>, AllocError> {
    let mut sent = Vec::new(alloc);
    for (process, operations) in histories.iter().enumerate() {
        for (index, operation) in operations.iter().enumerate() {
            if operation.call.is_send() {
                let prio = operation.call.priority();
                sent.push((
                    prio,
                    operation.given.as_slice(),
                    operation.begin,
                    process,
                    index,
                ))?;
            }
        }
    }
    sent.sort()?;
    Ok(sent)
}

fn hint(hints: &mut Vec<Vec<u64>>, process: usize, index: usize, moment: u64)
    ensures { length hints.new.items ≡ length hints.old.items }
{
    if process < hints.len() && index < hints[process].len() {
        hints[process][index] = moment;
    }
}
