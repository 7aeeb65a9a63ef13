//! A likely order of the calls of a history, by what each needs of its queue and its effect on it.
//!
//! It is a hint for a search, whose result does not depend on it. Nothing is proved about it,
//! except that working it out ends and is safe.
mod by_queue;
mod contents;
mod heuristic;
mod tightening;
mod windows;

pub use by_queue::order_of;

/// What an operation needs of its queue, and its effect on it.
#[derive(Clone, Copy, PartialEq, Eq)]
pub enum Effect {
    /// It needs nothing and has no effect.
    Nothing,
    /// There is room, and a message enters.
    Sends,
    /// The first message is of its kind, and leaves.
    Receives,
    /// The first message, of any kind, leaves: for a receive that had not returned.
    ReceivesAny,
    /// There is no room.
    FindsFull,
    /// There is no message.
    FindsEmpty,
    /// There are this many messages.
    Counts(i64),
    /// The name is bound; or, if `creates`, it is bound to a new queue with room for this many
    /// messages.
    Opens { creates: bool, room: i64 },
    /// The name is bound, and is unbound.
    Unlinks,
    /// The name is bound.
    FindsBound,
    /// The name is not bound.
    FindsUnbound,
    /// It had not returned, and is left out.
    LeftOut,
}

/// An operation as the heuristic sees it.
#[derive(Clone, Copy)]
pub struct Task {
    pub begin: u64,
    pub end: u64,
    pub queue: usize,
    /// The kind of the message that is sent or was received. Equal messages of one queue have the
    /// same kind.
    pub kind: usize,
    pub prio: u32,
    pub effect: Effect,
}

/// The tasks of each process, in the order of its calls.
#[derive(Drop)]
pub struct Tasks {
    pub tasks: Vec<Vec<Task>>,
    /// The maximum number of queues and of kinds of messages.
    pub queues: usize,
    pub kinds: usize,
}
