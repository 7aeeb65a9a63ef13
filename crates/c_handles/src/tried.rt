//! The results of tries.
use mq::Collected;

/// The result of a try of a call that needs a process without an open wait.
#[derive(Drop)]
pub enum Tried<R> {
    /// The process has an open wait. Nothing has changed.
    Waiting,
    /// The lock is not acquired yet. The acquisition is in progress, and nothing else has changed.
    Retry,
    /// The call was made, and returned this.
    Made(R),
}

/// The result of a try of a call that ends an open wait.
#[derive(Drop)]
pub enum Ending {
    /// The process has no open wait. Nothing has changed.
    NotWaiting,
    /// The buffer is shorter than that of the waiting receive. Nothing has changed.
    Short,
    /// The wait has no deadline, or one that has not passed at the given time. Nothing has changed.
    TooEarly,
    /// The lock is not acquired yet. The acquisition is in progress, and nothing else has changed.
    Retry,
    /// The wait is not answered, and continues.
    Unanswered,
    /// The deadline has passed, and the wait was withdrawn.
    Withdrawn,
    /// The wait was answered, with this outcome.
    Came(Collected),
}

/// The result of a poll of an open wait.
#[derive(Clone, Copy)]
pub enum Looked {
    /// The process has no open wait.
    NotWaiting,
    /// An acquisition is in progress, and the next try of its call may tell.
    UnderWay,
    /// The wait is answered. The next collect that acquires the lock ends it.
    Answered,
    /// The wait was not answered.
    Unanswered,
}
