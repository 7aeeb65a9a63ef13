//! The contents of the queues of a history, as far as the heuristic tracks them.
use super::{Effect, Task};
use std::alloc::{AllocError, Global};

// A queue: whether it is bound to its name, for how many messages it has room, and the priorities
// and kinds of its messages, the one that is received first in front.
#[derive(Drop)]
struct Contents {
    is_bound: bool,
    room: i64,
    messages: Vec<(u32, usize)>,
}

/// What changed when a task took effect, as far as undoing it needs.
#[derive(Clone, Copy)]
pub enum Change {
    Nothing,
    /// A message entered at this index.
    Entered(usize),
    /// This message left.
    Left((u32, usize)),
    /// The name was bound or unbound. This is the state before, with the room of the queue.
    Bound { is_bound: bool, room: i64 },
}

/// The queues.
#[derive(Drop)]
pub struct Queues {
    queues: Vec<Contents>,
}

impl Queues {
    /// This number of queues, whose names are not bound.
    pub fn new(alloc: Global, count: usize) -> Result<Queues, AllocError> {
        let mut queues = Vec::new(alloc);
        for _ in 0..count {
            queues.push(Contents {
                is_bound: false,
                room: 0,
                messages: Vec::new(alloc),
            })?;
        }
        Ok(Queues { queues })
    }

    /// The number of queues.
    pub fn count(&self) -> usize {
        self.queues.len()
    }

    /// The priorities and kinds of the messages of a queue, in the order in which they are
    /// received.
    pub fn messages(&self, queue: usize) -> &[(u32, usize)] {
        match self.queues.get(queue) {
            Some(contents) => contents.messages.as_slice(),
            None => &[],
        }
    }

    /// Whether the task can take effect.
    pub fn allow(&self, task: &Task) -> bool {
        let Some(queue) = self.queues.get(task.queue) else {
            return task.effect == Effect::Nothing;
        };
        let count = queue.messages.len() as i128;
        let is_full = count >= i128::from(queue.room);
        match task.effect {
            Effect::Nothing => true,
            Effect::Sends => !is_full,
            Effect::Receives => match queue.messages.first() {
                Some((_, kind)) => *kind == task.kind,
                None => false,
            },
            Effect::ReceivesAny => count != 0,
            Effect::FindsFull => is_full,
            Effect::FindsEmpty => count == 0,
            Effect::Counts(curmsgs) => count == i128::from(curmsgs),
            Effect::Opens { creates, room: _ } => creates || queue.is_bound,
            Effect::Unlinks => queue.is_bound,
            Effect::FindsBound => queue.is_bound,
            Effect::FindsUnbound => !queue.is_bound,
            Effect::LeftOut => false,
        }
    }

    /// Whether the task changes something.
    pub fn is_change(&self, task: &Task) -> bool {
        match task.effect {
            Effect::Sends | Effect::Receives | Effect::ReceivesAny | Effect::Unlinks => true,
            Effect::Opens { .. } => match self.queues.get(task.queue) {
                Some(queue) => !queue.is_bound,
                None => false,
            },
            _ => false,
        }
    }

    /// Applies the effect of a task, which must be able to take effect.
    pub fn change(&mut self, task: &Task) -> Result<Change, AllocError> {
        if task.queue >= self.queues.len() {
            return Ok(Change::Nothing);
        }
        let queue = &mut self.queues[task.queue];
        match task.effect {
            Effect::Sends => enter(queue, task),
            Effect::Receives | Effect::ReceivesAny => Ok(leave(queue)),
            Effect::Opens { creates: _, room } => Ok(bind(queue, room)),
            Effect::Unlinks => Ok(unbind(queue)),
            _ => Ok(Change::Nothing),
        }
    }

    /// Undoes the last change of a queue.
    pub fn restore(&mut self, queue: usize, change: Change) -> Result<(), AllocError> {
        if queue >= self.queues.len() {
            return Ok(());
        }
        let queue = &mut self.queues[queue];
        match change {
            Change::Nothing => {}
            Change::Entered(place) => {
                if place < queue.messages.len() {
                    let _message = queue.messages.remove(place);
                }
            }
            Change::Left(message) => queue.messages.insert(0, message)?,
            Change::Bound { is_bound, room } => {
                queue.is_bound = is_bound;
                queue.room = room;
            }
        }
        Ok(())
    }

    /// A hash of what the queues contain, mixed with `start`.
    pub fn digest(&self, start: u64) -> u64 {
        let mut digest = start;
        for queue in &self.queues {
            digest = mixed(digest, u64::MAX);
            for (_, kind) in &queue.messages {
                digest = mixed(digest, *kind as u64);
            }
        }
        digest
    }
}

/// Mixes a number into a hash.
pub fn mixed(digest: u64, number: u64) -> u64 {
    let product = (digest ^ number).wrapping_mul(0x9E37_79B9_7F4A_7C15);
    product ^ (product >> 29)
}

// A message enters after those of its priority.
fn enter(queue: &mut Contents, task: &Task) -> Result<Change, AllocError> {
    let count = queue.messages.len();
    let place = queue
        .messages
        .iter()
        .position(|(prio, _)| *prio < task.prio)
        .unwrap_or(count)
        .min(count);
    queue.messages.insert(place, (task.prio, task.kind))?;
    Ok(Change::Entered(place))
}

// The first message leaves.
fn leave(queue: &mut Contents) -> Change {
    if queue.messages.is_empty() {
        return Change::Nothing;
    }
    Change::Left(queue.messages.remove(0))
}

// A name is bound to its queue, unless it already is.
fn bind(queue: &mut Contents, room: i64) -> Change {
    if queue.is_bound {
        return Change::Nothing;
    }
    let before = Change::Bound {
        is_bound: false,
        room: queue.room,
    };
    queue.is_bound = true;
    queue.room = room;
    before
}

fn unbind(queue: &mut Contents) -> Change {
    let before = Change::Bound {
        is_bound: queue.is_bound,
        room: queue.room,
    };
    queue.is_bound = false;
    before
}
