//! Locks that hand a state from process to process. Their contracts say what each process finds
//! when it acquires the lock.
#![tactic(auto)]

mod await_answer;
mod backoff;
mod enter;
mod fast;
mod fast_lock;
mod futex_words;
mod lock;
mod logged;
mod seats;
mod slot;
mod word;

pub use await_answer::AwaitAnswer;
pub use enter::{Enter, FAST_PATH_STEPS};
pub use fast::{FastInside, FastMutex, FastSeat, Walk};
pub use futex_words::FutexWords;
pub use lock::{Lock, Look, Missing, Path};
pub use logged::Logged;
pub use word::{WordInside, WordLock, WordSeat, WordWalk};
