//! The ghost state of a seat at the table. No value of `View` exists at run time.
use crate::seats::RestView;
use lamport_core::At;
use std::collections::LinkedList;

/// What the process has stored in its critical section, and what its polls found.
pub struct Plan<I> {
    /// In the critical section: the list that the process will give back, once it has stored a word
    /// s. Before that it is the list found.
    pub next: LinkedList<I>,
    /// The processes whose words s it has stored in this critical section.
    pub stored: LinkedList<u64>,
    /// Whether a poll since its last critical section found its own wait answered.
    pub told: bool,
}

/// What the proof knows of a seat of Lamport's lock. Nothing of it exists at run time.
pub struct View<I> {
    pub at: At,
    /// In the critical section: the list found.
    pub found: LinkedList<I>,
    /// The number of processes, and the fixed part of the state.
    pub fixed: (u64, LinkedList<u64>),
    /// The number of this process with the list that it last left, and the same for each seat
    /// joined to this one.
    pub claims: LinkedList<(u64, LinkedList<I>)>,
    pub plan: Plan<I>,
    /// The number of accesses that the seat has made to words of the table.
    pub accesses: u64,
}

impl<I> RestView<I> for View<I> {
    ghost use Rattle.fast_mutex.specs.Fast.{resting};

    ghost resting = { resting };
}
