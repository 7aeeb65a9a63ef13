//! The calls of a history by the queues on which they were made, for guesses that are checked.
use crate::named::has_unlinked;
use crate::operation::{Operation, Outcome};
use std::alloc::{AllocError, Global};

/// The calls on the queue of a name.
#[derive(Drop)]
pub struct Queue<'h> {
    pub name: &'h [u8],
    /// The opens that give the name.
    pub opens: Vec<&'h Operation>,
    pub operations: Vec<&'h Operation>,
    /// When the first call began that unlinked the name, or is an open that had not returned.
    pub until: u64,
}

// The names that were opened, sorted.
fn names_of(alloc: Global, histories: &Vec<Vec<Operation>>) -> Result<Vec<&[u8]>, AllocError> {
    let mut names: Vec<&[u8]> = Vec::new(alloc);
    for operations in histories {
        for operation in operations {
            if operation.call.is_open() {
                names.push(operation.given.as_slice())?;
            }
        }
    }
    names.sort()?;
    names.dedup();
    Ok(names)
}

// When the first open began that had not returned.
fn opened_until(histories: &Vec<Vec<Operation>>) -> u64 {
    let mut until = u64::MAX;
    for operations in histories {
        for operation in operations {
            if operation.call.is_open() && operation.outcome.is_pending() {
                until = until.min(operation.begin);
            }
        }
    }
    until
}

/// The queues of the names that were opened.
pub fn queues_of(alloc: Global, histories: &Vec<Vec<Operation>>) -> Result<Vec<Queue>, AllocError> {
    let names = names_of(alloc, histories)?;
    let until = opened_until(histories);
    let mut queues: Vec<Queue> = Vec::new(alloc);
    for name in &names {
        queues.push(Queue {
            name: *name,
            opens: Vec::new(alloc),
            operations: Vec::new(alloc),
            until,
        })?;
    }
    for operations in histories {
        // the queue of each descriptor
        let mut of: [Option<usize>; 16] = [None; 16];
        for operation in operations {
            if let Some(d) = operation.call.descriptor()
                && d < 16
                && let Some(queue) = of[d as usize]
                && queue < queues.len()
            {
                queues[queue].operations.push(operation)?;
            }
            if operation.call.is_open()
                && let Ok(queue) = names.binary_search(&operation.given.as_slice())
                && queue < queues.len()
            {
                queues[queue].opens.push(operation)?;
            }
            if let Ok(queue) = names.binary_search(&operation.given.as_slice())
                && queue < queues.len()
                && has_unlinked(queues[queue].name, operation)
            {
                queues[queue].until = queues[queue].until.min(operation.begin);
            }
            if let Outcome::Opened(d) = &operation.outcome
                && *d < 16
            {
                of[*d as usize] = names.binary_search(&operation.given.as_slice()).ok();
            }
        }
    }
    Ok(queues)
}
