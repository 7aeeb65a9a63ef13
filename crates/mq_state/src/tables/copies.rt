//! Copies of the tables.
ghost use Rattle.std.specs.Prelude.{◌≡◌, ◌≤◌, ◌<◌, ℕ, IfOk, length};
ghost use Rattle.mq_state.specs.Kept.{SaysSame};
ghost use Rattle.mq_state.specs.Inboxes.{notices_in, room_in};

use crate::notices::Inbox;
use crate::queues::Queue;
use crate::tables::Tables;
use std::alloc::{AllocError, Global};

impl Tables {
    /// Tables that say the same, without spare slots. Fails if memory was refused.
    pub fn copy(&self) -> Result<Tables, AllocError>
        ensures { IfOk result (SaysSame self.now) }
    {
        let owners = Vec::from_slice(self.alloc, &self.owners)?;
        let callers = Vec::from_slice(self.alloc, &self.callers)?;
        let calls = Vec::from_slice(self.alloc, &self.calls)?;
        let queues = copy_queues(self.alloc, &self.queues)?;
        let inboxes = copy_inboxes(self.alloc, &self.inboxes)?;
        Ok(Tables {
            alloc: self.alloc,
            n: self.n,
            bounds: self.bounds,
            owners,
            callers,
            waits: self.waits,
            calls,
            queues,
            spares: Vec::new(self.alloc),
            inboxes,
            is_prepaid: self.is_prepaid,
            hints: self.hints,
        })
    }
}

fn copy_queues(alloc: Global, queues: &[Queue]) -> Result<Vec<Queue>, AllocError>
    ensures { IfOk result (λ copies. copies.items ≡ queues.now) }
{
    let mut copies = Vec::with_capacity(alloc, queues.len())?;
    for queue in queues {
        copies.push(queue.copy(alloc)?)?;
    }
    Ok(copies)
}

// Inboxes with the same notices, and at least as much room for further ones.
fn copy_inboxes(alloc: Global, inboxes: &[Inbox]) -> Result<Vec<Inbox>, AllocError>
    ensures count { IfOk result (λ copies. length copies.items ≡ length inboxes.now) }
    ensures notices { IfOk result (λ copies. (p : ℕ) →
        notices_in copies.items p ≡ notices_in inboxes.now p) }
    ensures room { IfOk result (λ copies. (p : ℕ) →
        room_in inboxes.now p ≤ room_in copies.items p) }
{
    let mut copies = Vec::with_capacity(alloc, inboxes.len())?;
    for inbox in inboxes {
        copies.push(inbox.copy(alloc)?)?;
    }
    Ok(copies)
}
