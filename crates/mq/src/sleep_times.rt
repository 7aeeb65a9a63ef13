//! How long a blocked call sleeps that also looks at something else than its answer.
use std::time::Duration;

// The first sleep and the longest, in milliseconds.
const FIRST_SLEEP: u64 = 10;

const LONGEST_SLEEP: u64 = 80;

/// The upper bounds of the sleeps of a blocked call that looks at something besides its answer, one
/// after the other: 10 milliseconds, and then each time twice as long, up to 80. The process that
/// answers a wait wakes the waiting thread. Nobody does if the clock that a timed call was lent
/// moves.
#[derive(Drop)]
pub struct SleepTimes {
    next: u64,
}

impl SleepTimes {
    /// Begins with the shortest.
    pub fn new() -> SleepTimes {
        SleepTimes { next: FIRST_SLEEP }
    }

    /// The longest time of the next sleep.
    pub fn next(&mut self) -> Duration {
        let delay = Duration::from_millis(self.next);
        self.next = self.next.saturating_mul(2).min(LONGEST_SLEEP);
        delay
    }
}
