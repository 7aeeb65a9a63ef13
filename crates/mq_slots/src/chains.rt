//! The messages present in one queue.
ghost use Rattle.std.specs.Prelude.{◌≡◌, ◌≢◌, ℕ, ◌+◌, ◌-◌, ◌<◌, ◌≤◌, ◌↔◌, ◌⊎◌, [], ◌∷◌, length, Contains, IfOk, IfSome, IsNone, IsTrue};
ghost use Rattle.mq_slots.specs.Messages.{IsBest, without};

use crate::cells::{self, Cell};
use crate::levels::{self, Level};
use std::alloc::{AllocError, Global};
use std::marker::Model;

/// The messages present in one queue, each with its priority and the sequence number of its send.
/// The next to be received is the oldest one of the highest priority.
///
/// The messages form a linked list of slots, in the order in which they are received, and the spare
/// slots another. A table has the last slot of each priority in use. So a push finds the position
/// of its message by binary search among the priorities, and a pop takes the first of the list.
#[derive(Debug, Drop)]
pub struct Slots {
    // the slots, of which the first is the head of the list
    cells: Vec<Cell>,
    // the table of the priorities in use, rising
    levels: Vec<Level>,
    // the first spare slot, if there is one
    free: u32,
    // the number of spare slots
    spare: u32,
}

impl Model for Slots {
    ghost use Rattle.mq_slots.specs.Held.{Held};

    ghost Value = { Held };

    ghost use Rattle.mq_slots.specs.Sound.{shown, AreSound};

    ghost view = { shown };

    ghost invariant = { AreSound };
}

impl Slots {
    /// An empty queue with room for `cap` messages, 1 to 4,096. It takes all the memory that later
    /// calls need. Fails if memory was refused.
    pub fn new(alloc: Global, cap: u32) -> Result<Slots, AllocError>
        requires some { 1 ≤ cap }
        requires few { cap ≤ 4096 }
        ensures empty { IfOk result (λ slots. slots.messages ≡ []) }
        ensures cap { IfOk result (λ slots. slots.cap ≡ cap) }
    {
        let cells = cells::fresh(alloc, cap)?;
        let levels = Vec::with_capacity(alloc, cap as usize)?;
        Ok(Slots {
            cells,
            levels,
            free: cap,
            spare: cap,
        })
    }

    /// Adds a message. There must be room for it. Its priority is 0 to 32,767, and its sequence
    /// number is above that of each message present.
    #[inline(always)]
    pub fn push(&mut self, prio: u32, place: u64)
        requires room { length self.old.messages < self.old.cap }
        requires prio { prio < 32768 }
        requires newest { (m : ℕ × ℕ) → Contains self.old.messages m → m.1 < place }
        ensures messages { (m : ℕ × ℕ) → Contains self.new.messages m ↔ ((m ≡ (prio, place)) ⊎
            Contains self.old.messages m) }
        ensures newest { (m : ℕ × ℕ) → Contains self.new.messages m → m.1 ≤ place }
        ensures count { length self.new.messages ≡ length self.old.messages + 1 }
        ensures latest { self.new.messages ≡ (prio, place) ∷ self.old.messages }
        ensures cap { self.new.cap ≡ self.old.cap }
    {
        let new = self.free;
        let at = levels::find_level(&self.levels, prio);
        let before = levels::last_from(&self.levels, at);
        self.free = cells::at(&self.cells, new).next;
        self.spare -= 1;
        cells::link(&mut self.cells, before, new, prio, place);
        levels::note_level(&mut self.levels, at, prio, new);
    }

    /// Removes the message that is received next, the oldest of the highest priority, and returns
    /// its priority and sequence number.
    #[inline(always)]
    pub fn pop(&mut self) -> Option<(u32, u64)>
        ensures none { IsNone result ↔ (self.old.messages ≡ []) }
        ensures best { IfSome result (λ m. IsBest self.old.messages m) }
        ensures rest { IfSome result (λ m. (other : ℕ × ℕ) →
            Contains self.new.messages other ↔ (Contains self.old.messages other × (other ≢ m))) }
        ensures kept { (m : ℕ × ℕ) → Contains self.new.messages m → Contains self.old.messages m }
        ensures others { IfSome result (λ m. self.new.messages ≡ without m.1 self.old.messages) }
        ensures count { length self.new.messages ≡ length self.old.messages - 1 }
        ensures cap { self.new.cap ≡ self.old.cap }
    {
        if self.spare as usize + 1 == self.cells.len() {
            return None;
        }
        let first = cells::at(&self.cells, 0).next;
        let best = cells::at(&self.cells, first);
        cells::unlink(&mut self.cells, first, self.free, self.spare);
        self.free = first;
        self.spare += 1;
        levels::drop_level(&mut self.levels, first);
        Some((best.prio, best.place))
    }

    /// Removes all messages. The room stays the same.
    pub fn clear(&mut self)
        ensures empty { self.new.messages ≡ [] }
        ensures cap { self.new.cap ≡ self.old.cap }
    {
        while self.pop().is_some() {}
    }

    /// The message that is received next, as its priority and its sequence number.
    pub fn best(&self) -> Option<(u32, u64)>
        ensures none { IsNone result ↔ (self.now.messages ≡ []) }
        ensures best { IfSome result (λ m. IsBest self.now.messages m) }
    {
        if self.spare as usize + 1 == self.cells.len() {
            return None;
        }
        let first = cells::at(&self.cells, 0).next;
        let slot = cells::at(&self.cells, first);
        Some((slot.prio, slot.place))
    }

    /// The number of messages present.
    pub fn len(&self) -> usize
        ensures count { result ≡ length self.now.messages }
        ensures within { result ≤ self.now.cap }
        ensures few { result ≤ 4096 }
    {
        self.cells.len() - 1 - self.spare as usize
    }

    /// The messages present, each as its priority and its sequence number, the latest first.
    pub fn messages(&self, alloc: Global) -> Result<Vec<(u32, u64)>, AllocError>
        ensures { IfOk result (λ messages. messages.items ≡ self.now.messages) }
    {
        cells::messages(alloc, &self.cells)
    }

    /// A copy with the same room. Fails if memory was refused.
    pub fn copy(&self, alloc: Global) -> Result<Slots, AllocError>
        ensures { IfOk result (λ slots. slots ≡ self.now) }
    {
        let cells = Vec::from_slice(alloc, &self.cells)?;
        let mut levels = Vec::with_capacity(alloc, self.cells.len())?;
        levels.extend_from_slice(&self.levels)?;
        Ok(Slots {
            cells,
            levels,
            free: self.free,
            spare: self.spare,
        })
    }

    /// Whether there is no room for another message.
    pub fn is_full(&self) -> bool
        ensures { IsTrue result ↔ (length self.now.messages ≡ self.now.cap) }
    {
        self.spare == 0
    }

    /// Whether no message is present.
    pub fn is_empty(&self) -> bool
        ensures { IsTrue result ↔ (self.now.messages ≡ []) }
    {
        self.len() == 0
    }
}
