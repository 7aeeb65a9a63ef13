//! Numbers for the queues of a history, as far as its calls distinguish them.
use histories::operation::{Operation, Outcome};
use mq_model::entries::Call;
use mq_model::limits::DESCRIPTORS;
use std::alloc::{AllocError, Global};

/// The names of a history, sorted and without repeats, and its unlinks that succeeded, each with
/// its name and its end.
#[derive(Drop)]
pub struct Names<'h> {
    names: Vec<&'h [u8]>,
    unlinks: Vec<(usize, u64)>,
}

impl<'h> Names<'h> {
    /// The names in these histories, with the unlinks of each. Fails if memory was refused.
    pub fn of(alloc: Global, histories: &'h Vec<Vec<Operation>>) -> Result<Names<'h>, AllocError> {
        let mut names: Vec<&'h [u8]> = Vec::new(alloc);
        for operations in histories {
            for operation in operations {
                if is_named(operation.call) {
                    names.push(operation.given.as_slice())?;
                }
            }
        }
        names.sort()?;
        names.dedup();
        let mut unlinks = Vec::new(alloc);
        for operations in histories {
            for operation in operations {
                if is_unlink_done(operation) {
                    unlinks.push((place_of(&names, &operation.given), operation.end))?;
                }
            }
        }
        unlinks.sort()?;
        Ok(Names { names, unlinks })
    }

    /// The maximum number of queues.
    pub fn count(&self) -> usize {
        self.names.len().saturating_add(self.unlinks.len())
    }

    // The queue that a name was bound to at a time: a new one after each unlink.
    fn queue_at(&self, name: &[u8], moment: u64) -> usize {
        let place = place_of(&self.names, name);
        let unlinks = self
            .unlinks
            .partition_point(|unlink| *unlink < (place, moment));
        place.saturating_add(unlinks)
    }

    /// The queue of each operation of a process, or `count` if it has none.
    pub fn queues_of(
        &self,
        alloc: Global,
        operations: &Vec<Operation>,
    ) -> Result<Vec<usize>, AllocError> {
        let none = self.count();
        let mut held = [none; 16];
        let mut queues = Vec::new(alloc);
        for operation in operations {
            let queue = if is_named(operation.call) {
                self.queue_at(&operation.given, operation.begin)
            } else {
                held_at(&held, operation.call.descriptor(), none)
            };
            if let Outcome::Opened(d) = operation.outcome
                && d < DESCRIPTORS as u32
            {
                held[d as usize] = queue;
            }
            queues.push(queue)?;
        }
        Ok(queues)
    }
}

// The index of a name among those that are sorted.
fn place_of(names: &[&[u8]], name: &[u8]) -> usize {
    match names.binary_search(&name) {
        Ok(place) => place,
        Err(place) => place,
    }
}

fn is_named(call: Call) -> bool {
    call.is_open() || call.is_unlink()
}

fn is_unlink_done(operation: &Operation) -> bool {
    operation.call.is_unlink() && matches!(operation.outcome, Outcome::Done)
}

// The queue that a process holds under a descriptor.
fn held_at(held: &[usize; 16], d: Option<u32>, none: usize) -> usize {
    match d {
        Some(d) if d < DESCRIPTORS as u32 => held[d as usize],
        _ => none,
    }
}
