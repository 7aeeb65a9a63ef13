//! Backoff of a thread that polls.
use crate::futex_words::FutexWords;

// The shortest and the longest, in loads of a word.
const SHORTEST: u32 = 1_024;

const LONGEST: u32 = 16_384;

/// Exponential backoff: half a microsecond, then each time twice as long, up to some microseconds.
/// A poll takes the words of the lock out of the holder's cache, so a thread polls only now and
/// then. Under contention long pauses let the holder make several calls in a row, with all that
/// they touch in its own cache.
#[derive(Drop)]
pub(crate) struct Backoff {
    next: u32,
}

impl Backoff {
    /// Begins with the shortest.
    pub(crate) fn new() -> Backoff {
        Backoff { next: SHORTEST }
    }

    /// Passes the time of the next pause.
    pub(crate) fn back_off(&mut self, futex_words: &FutexWords) {
        futex_words.load_again(self.next);
        self.next = self.next.saturating_mul(2).min(LONGEST);
    }
}
