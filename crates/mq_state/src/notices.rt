//! The notices that each process has not yet taken. The inbox of a process is at the index of its
//! first thread.
ghost use Rattle.std.specs.Prelude.{◌≡◌, ◌<◌, ◌≤◌, ◌++◌, ◌∷◌, [], length, IfOk, OnOk, OnErr, drop, slice_get, Some, None, ◌+◌, ◌-◌, ℕ, ◌==◌, if◌then◌else◌};
ghost use Rattle.mq_model.specs.Threads.{owner_of, shares};
ghost use Rattle.std.specs.Prelude.{All};
ghost use Rattle.mq_state.specs.Inboxes.{notices_in, room_in};
ghost use Rattle.mq_state.specs.Raising.{IsEmptyInbox};

use mq_model::callers::owner_of;
use std::alloc::{AllocError, Global};
use std::collections::VecDeque;
use std::marker::Model;

/// The notices of one process, the oldest first.
#[derive(Debug, Drop)]
pub struct Inbox {
    values: VecDeque<u64>,
}

impl Model for Inbox {
    ghost use Rattle.mq_state.specs.InboxShown.{InboxShown};

    ghost Value = { InboxShown };

    ghost use Rattle.mq_state.specs.InboxModel.{shown};

    ghost view = { shown };
}

impl Inbox {
    /// No notices, and room for this many. Without room it takes no memory.
    pub fn new(alloc: Global, room: usize) -> Result<Inbox, AllocError>
        ensures values { IfOk result (λ b. b.values ≡ []) }
        ensures room { IfOk result (λ b. room ≤ b.room) }
    {
        Ok(Inbox {
            values: VecDeque::with_capacity(alloc, room)?,
        })
    }

    /// Makes room for `more` further notices.
    pub fn reserve(&mut self, more: usize) -> Result<(), AllocError>
        ensures values { self.new.values ≡ self.old.values }
        ensures room { self.old.room ≤ self.new.room }
        ensures ok { OnOk result (more ≤ self.new.room) }
        ensures err { OnErr result (self.old.room < more) }
    {
        self.values.reserve(more)
    }

    /// Appends a notice. There must be room for it.
    pub fn push(&mut self, value: u64)
        requires { 0 < self.old.room }
        ensures values { self.new.values ≡ self.old.values ++ value ∷ [] }
        ensures room { self.new.room + 1 ≡ self.old.room }
    {
        self.values.push_back_reserved(value);
    }

    /// Removes the oldest notice.
    pub fn pop(&mut self)
        ensures values { self.new.values ≡ drop 1 self.old.values }
        ensures room { self.old.room ≤ self.new.room }
    {
        let _ = self.values.pop_front();
    }

    /// The oldest notice.
    pub fn first(&self) -> Option<u64>
        ensures { result ≡ slice_get self.now.values 0 }
    {
        self.values.front().copied()
    }

    /// The notice with this many older ones.
    pub fn nth(&self, index: usize) -> Option<u64>
        ensures { result ≡ slice_get self.now.values index }
    {
        self.values.get(index).copied()
    }

    /// A copy, with at least as much room.
    pub fn copy(&self, alloc: Global) -> Result<Inbox, AllocError>
        ensures values { IfOk result (λ copy. copy.values ≡ self.now.values) }
        ensures room { IfOk result (λ copy. self.now.room ≤ copy.room) }
    {
        let mut copy = Inbox::new(alloc, self.values.capacity())?;
        for index in 0..self.values.len() {
            copy.push(self.values[index]);
        }
        Ok(copy)
    }

    /// The number of notices.
    pub fn len(&self) -> usize
        ensures { result ≡ length self.now.values }
    {
        self.values.len()
    }
}

/// The oldest notice of the process of caller p.
#[tactic(auto, unfolding(crate::specs::Inboxes::notices_in))]
pub fn first(inboxes: &[Inbox], p: u32) -> Option<u64>
    ensures { result ≡ slice_get (notices_in inboxes.now p) 0 }
{
    match inboxes.get(owner_of(p) as usize) {
        None => None,
        Some(inbox) => inbox.first(),
    }
}

/// The notice of the process of caller p with this many older ones.
#[tactic(auto, unfolding(crate::specs::Inboxes::notices_in))]
pub fn nth(inboxes: &[Inbox], p: u32, index: usize) -> Option<u64>
    ensures { result ≡ slice_get (notices_in inboxes.now p) index }
{
    match inboxes.get(owner_of(p) as usize) {
        None => None,
        Some(inbox) => inbox.nth(index),
    }
}

/// The number of notices of the process of caller p.
#[tactic(auto, unfolding(crate::specs::Inboxes::notices_in))]
pub fn count(inboxes: &[Inbox], p: u32) -> usize
    ensures { result ≡ length (notices_in inboxes.now p) }
{
    match inboxes.get(owner_of(p) as usize) {
        None => 0,
        Some(inbox) => inbox.len(),
    }
}

/// Appends a notice to the inbox of caller p's process. There must be room for it.
pub fn push(inboxes: &mut [Inbox], p: u32, value: u64)
    requires { 0 < room_in inboxes.old p }
    ensures notices { (k : ℕ) → notices_in inboxes.new k ≡
        (if shares p k then notices_in inboxes.old k ++ value ∷ [] else notices_in inboxes.old k) }
    ensures room { (k : ℕ) → room_in inboxes.old k ≤ room_in inboxes.new k +
        (if shares p k then 1 else 0) }
{
    inboxes[owner_of(p) as usize].push(value);
}

/// Removes the oldest notice of caller p's process.
pub fn take(inboxes: &mut [Inbox], p: u32)
    requires { owner_of p < length inboxes.old }
    ensures notices { (k : ℕ) → notices_in inboxes.new k ≡
        (if shares p k then drop 1 (notices_in inboxes.old k) else notices_in inboxes.old k) }
    ensures room { (k : ℕ) → room_in inboxes.old k ≤ room_in inboxes.new k }
{
    inboxes[owner_of(p) as usize].pop();
}

/// Makes room for `more` further notices of caller p's process.
pub fn make_room(inboxes: &mut [Inbox], p: u32, more: usize) -> Result<(), AllocError>
    requires { owner_of p < length inboxes.old }
    ensures same { (k : ℕ) → notices_in inboxes.new k ≡ notices_in inboxes.old k }
    ensures room { (k : ℕ) → room_in inboxes.old k ≤ room_in inboxes.new k }
    ensures ok { OnOk result (more ≤ room_in inboxes.new p) }
    ensures err { OnErr result (room_in inboxes.old p < more) }
{
    inboxes[owner_of(p) as usize].reserve(more)
}

/// The inboxes of `count` processes, without notices, and each with room for `room` of them.
pub fn empty(alloc: Global, count: usize, room: usize) -> Result<Vec<Inbox>, AllocError>
    ensures count { IfOk result (λ v. length v.items ≡ count) }
    ensures empty { IfOk result (λ v. (k : ℕ) → notices_in v.items k ≡ []) }
    ensures room { IfOk result (λ v. (k : ℕ) →
        owner_of k < count → room ≤ room_in v.items k) }
    ensures each { IfOk result (λ v. All (IsEmptyInbox room) v.items) }
{
    let mut inboxes = Vec::with_capacity(alloc, count)?;
    for _ in 0..count {
        inboxes.push(Inbox::new(alloc, room)?)?;
    }
    Ok(inboxes)
}
