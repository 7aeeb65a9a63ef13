//! The end of a process.

use super::{Process, arrive};
use crate::guarded::Guarded;
use crate::system::Mq;
use fast_mutex::Look;
use mq_model::faults::Fault;
use std::sync::Wait;

impl<L: Look<Guarded>> Process<L> {
    ghost use Rattle.std.specs.Prelude.{◌≡◌};
    ghost use Rattle.mq.specs.Calls.{IsFree, Exits};

    /// Closes the descriptors of the process in rising order, in one critical section, as POSIX
    /// does when a process ends. Fails only with `NoMemory` or `JournalFull`. Then those closed so
    /// far stay closed, the others stay open, and it may be called again.
    pub fn exit<R: Wait>(&mut self, rt: &R, mq: &Mq<L>) -> Result<(), Fault>
        requires made { self.old.lock ≡ mq.now }
        requires free { IsFree self.old }
        ensures call { Exits self.old self.new result }
        ensures free { IsFree self.new }
    {
        in_one_stay!(self, rt, mq, |guard| guard.exit(mq))
    }
}
