//! POSIX message queues that processes share, over any lock.
//!
//! Everything that a caller needs is exported here. [`FastMq`] is the system over Lamport's lock,
//! and [`FastProcess`] one of its processes. The calls of a process require two things, which the
//! prover checks: the process was made with this `Mq`, and for most calls it has no open wait.
#![tactic(auto)]

mod acquisition;
mod departed;
mod guard;
mod guarded;
mod judging;
mod monotonic;
mod process;
mod returned;
mod sleep_times;
mod stays;
mod system;

pub use acquisition::Acquisition;
pub use departed::Departed;
use fast_mutex::FastMutex;
pub use fast_mutex::Missing;
pub use guard::Guard;
pub use guarded::{Guarded, LoggedRecord};
pub use judging::verdict;
pub use monotonic::Monotonic;
pub use mq_checker::checker::check_history;
pub use mq_ledger::history::History;
pub use mq_model::bounds::Bounds;
pub use mq_model::clock::Clock;
pub use mq_model::entries::{
    Access, Attr, Call, Deadline, Entry, OpenFlags, Received, Reply, Status,
};
pub use mq_model::faults::Fault;
pub use mq_model::journals::Journal;
pub use mq_model::names::Name;
pub use mq_state::collected::Collected;
pub use mq_state::memory::memory_of;
pub use mq_state::replay::{Cause, Departure, replay};
pub use process::Process;
pub use returned::Returned;
pub use sleep_times::SleepTimes;
pub use system::Mq;

/// The system over Lamport's lock.
pub type FastMq = Mq<FastMutex<Guarded>>;

/// A process of the system over Lamport's lock.
pub type FastProcess = Process<FastMutex<Guarded>>;

/// A process of that system that is acquiring the lock.
pub type FastAcquisition = Acquisition<FastMutex<Guarded>>;

/// A process of that system in its critical section.
pub type FastGuard = Guard<FastMutex<Guarded>>;

/// A process of that system that has not yet woken those who wait for its call.
pub type FastDeparted = Departed<FastMutex<Guarded>>;
