//! The effects of a step, as far as other steps can depend on them.
ghost use Rattle.std.specs.Prelude.{◌≡◌};
ghost use Rattle.exploration.specs.Dependence.{is_exit, is_on_names, is_receive, is_send, is_wait, tells_time};
ghost use Rattle.exploration.specs.Locks.{is_lock, is_rwunlock, is_unlock, is_write_lock};

use crate::kind::Kind;
use crate::operation::Choice;
use std::alloc::{AllocError, Global};

/// The effect of a step on one object.
#[derive(Clone, Copy)]
pub struct Effect {
    pub kind: Kind,
    pub object: u32,
    /// It changed nothing: the step only read the object, or failed.
    pub looks: bool,
    /// It could have gone on without the step that let it go on here: it is a try, or a call with a
    /// deadline.
    pub is_free: bool,
    /// The number of the send of its message, counted from 1; 0 if unknown.
    pub message: u32,
    /// The priority of that message.
    pub priority: u32,
    /// For a send or a receive, how many of these the queue had, including this one; 0 if unknown.
    pub number: u32,
    /// The maximum number of messages in its queue.
    pub room: u32,
    /// The number of older messages that a receive left.
    pub older: u32,
}

/// A step, without the threads that were parked.
#[derive(Drop)]
pub struct Deed {
    pub choice: Choice,
    pub kind: Kind,
    /// Its deadline passed.
    pub is_late: bool,
    /// Whether it can be exchanged with no other step.
    pub stands_still: bool,
    pub effects: Vec<Effect>,
    /// The threads that it created.
    pub created: Vec<u32>,
    /// The index of the step that let it go on, if it had to wait for one.
    pub cause: Option<usize>,
}

impl Deed {
    /// A copy of the deed.
    pub fn copy(&self, alloc: Global) -> Result<Deed, AllocError> {
        let effects = self.effects.to_vec(alloc)?;
        let created = self.created.to_vec(alloc)?;
        Ok(Deed {
            choice: self.choice,
            kind: self.kind,
            is_late: self.is_late,
            stands_still: self.stands_still,
            effects,
            created,
            cause: self.cause,
        })
    }

    /// Whether it is no choice: its time does not matter, only what its thread does after it.
    pub fn is_local(&self) -> bool {
        match self.kind {
            Kind::Start | Kind::Join => true,
            Kind::Collect => !self.is_late,
            _ => false,
        }
    }
}

/// Whether the operation ends the program.
pub fn is_exit(kind: Kind) -> bool
    ensures { result ≡ is_exit kind }
{
    matches!(kind, Kind::Exit)
}

/// Whether the call may bind a name, unbind it, or end a queue.
pub fn is_on_names(kind: Kind) -> bool
    ensures { result ≡ is_on_names kind }
{
    matches!(kind, Kind::Open | Kind::Close | Kind::Unlink)
}

/// Whether the operation sends a message.
pub fn is_send(kind: Kind) -> bool
    ensures { result ≡ is_send kind }
{
    matches!(kind, Kind::Send)
}

/// Whether the operation receives a message.
pub fn is_receive(kind: Kind) -> bool
    ensures { result ≡ is_receive kind }
{
    matches!(kind, Kind::Receive)
}

/// Whether the operation locks a mutex.
pub fn is_lock(kind: Kind) -> bool
    ensures { result ≡ is_lock kind }
{
    matches!(kind, Kind::Lock)
}

/// Whether the operation unlocks a mutex.
pub fn is_unlock(kind: Kind) -> bool
    ensures { result ≡ is_unlock kind }
{
    matches!(kind, Kind::Unlock)
}

/// Whether the operation locks a lock of readers and writers for a writer.
pub fn is_write_lock(kind: Kind) -> bool
    ensures { result ≡ is_write_lock kind }
{
    matches!(kind, Kind::WriteLock)
}

/// Whether the operation unlocks a lock of readers and writers.
pub fn is_rwunlock(kind: Kind) -> bool
    ensures { result ≡ is_rwunlock kind }
{
    matches!(kind, Kind::RwUnlock)
}

/// Whether the operation is a half of a wait on a condition variable.
pub fn is_wait(kind: Kind) -> bool
    ensures { result ≡ is_wait kind }
{
    matches!(kind, Kind::Register | Kind::Wake)
}

/// Whether the operation reads a clock.
pub fn tells_time(kind: Kind) -> bool
    ensures { result ≡ tells_time kind }
{
    matches!(kind, Kind::Clock)
}
