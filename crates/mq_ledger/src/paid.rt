//! What prepaid systems have paid for: slots for the messages of their queues.

use crate::classes::{self, GROWING};
use std::alloc::{AllocError, Global};

/// The messages for which a queue has slots.
#[derive(Clone, Copy, Debug)]
struct Share {
    queue: u64,
    class: u32,
    messages: usize,
}

/// The shares of the queues that exist, and of the latest queue for which room was made. That queue
/// may not have been created in the end.
#[derive(Debug, Drop)]
pub struct Paid {
    shares: Vec<Share>,
    latest: Option<Share>,
    // how many processes may wait; 0 if nothing was ever paid for
    processes: usize,
}

/// How many slots a call may need, beyond one for each process: for its two entries, and for one
/// that has ended but has not left its slot yet.
const SPARE: usize = 3;

impl Paid {
    /// Nothing is paid for.
    pub fn new(alloc: Global) -> Paid {
        Paid {
            shares: Vec::new(alloc),
            latest: None,
            processes: 0,
        }
    }

    /// Whether nothing was ever paid for, so that no queue has slots of its own.
    #[inline(always)]
    pub fn is_empty(&self) -> bool {
        self.processes == 0
    }

    /// The latest queue that was paid for.
    pub fn latest(&self) -> Option<u64> {
        match self.latest {
            Some(share) => Some(share.queue),
            None => None,
        }
    }

    /// Adds the share of the queue that the next entry may create. `exists` says whether the latest
    /// one before it was created.
    pub fn expect(
        &mut self,
        exists: bool,
        queue: u64,
        messages: usize,
        size: usize,
        processes: usize,
    ) -> Result<(), AllocError> {
        if let Some(share) = self.latest {
            if exists {
                self.shares.push(share)?;
            }
        }
        self.processes = processes;
        self.latest = Some(Share {
            queue,
            class: classes::class_of(size),
            messages,
        });
        Ok(())
    }

    /// How many slots of a class the queues need: for their messages, for the messages of waiting
    /// calls, and for names.
    pub fn owed(&self, class: u32) -> usize {
        if class == GROWING {
            return self.processes.saturating_add(SPARE);
        }
        let mut messages: usize = 0;
        let mut queues: usize = 0;
        for share in self.shares.iter().chain(self.latest.iter()) {
            if share.class == class {
                messages = messages.saturating_add(share.messages);
                queues = queues.saturating_add(1);
            }
        }
        if queues > 0 {
            messages = messages.saturating_add(self.processes);
        }
        if class == classes::class_of_names() {
            messages = messages.saturating_add(self.shares.len()).saturating_add(1);
        }
        messages
    }

    /// Removes the share of a queue that no longer exists.
    pub fn forget(&mut self, queue: u64) {
        self.shares.retain(|share| share.queue != queue);
        if self.latest() == Some(queue) {
            self.latest = None;
        }
    }

    /// The class of slots for the messages of a queue.
    #[inline(never)]
    pub fn class_for(&self, queue: u64) -> u32 {
        if let Some(share) = self.latest {
            if share.queue == queue {
                return share.class;
            }
        }
        for share in &self.shares {
            if share.queue == queue {
                return share.class;
            }
        }
        GROWING
    }
}
