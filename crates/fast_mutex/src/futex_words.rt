//! The futex words on which threads sleep, and the word by which a thread that starves comes next.
//! The lock's algorithm never reads them, and nothing is proved of them.
use crate::backoff::Backoff;
use std::alloc::{AllocError, Global};
use std::sync::Wait;
use std::sync::atomic::AtomicU64;
use std::sync::atomic::Ordering::SeqCst;
use std::time::Duration;

// Enough for the most processes: the futex word of y, one for each flag b[j], one for the answer to
// each process, and then the misses of each process. Behind them is a word that never changes, with
// fifteen unused words on either side. A thread that backs off loads it again and again. Without
// the unused words it would take its neighbours, or what the allocator puts next, out of the cache
// of the lock's holder.
// Threads outside Rattle keep who of them starves in word 104.
const WORDS: u32 = 128;

const UNCHANGED: usize = 112;

// Added to the number of the process that starves if threads sleep until it is inside.
const HELD: u64 = 64;

// How often a thread that is held back polls before it sleeps, and for how many milliseconds it
// then sleeps at most. A process that starves and is stopped delays the others by that time.
const POLLS_HELD_BACK: u32 = 8;

const LONGEST_HOLD: u64 = 1;

// Adaptive spinning. A process polls for its answer some seven times before it sleeps, or once if
// at least one in four of its recent waits missed, that is, no poll found the answer. It polls once
// for the next 64 waits, and then tries seven times again.
const LONG_POLLS: u32 = 7;

const SHORT_POLLS: u32 = 1;

const MOST_MISSES: u64 = 12;

const FOR_A_MISS: u64 = 3;

const WAITS_WITH_FEW_POLLS: u64 = 64;

/// Futex words. Each is 1 if a thread may sleep on it. A thread that is about to sleep stores 1,
/// checks once more what it waits for, and sleeps while the word is 1. A thread that changes what
/// others wait for stores 0 and wakes one. All accesses are sequentially consistent.
#[derive(Drop)]
pub struct FutexWords {
    words: Vec<AtomicU64>,
    // how many threads that wait for the lock sleep, or are about to
    sleepers: AtomicU64,
    // who starves, and `HELD` more if threads sleep until it is inside; 0 if nobody does
    starving: AtomicU64,
}

impl FutexWords {
    pub(crate) fn new(alloc: Global) -> Result<FutexWords, AllocError> {
        let mut words = Vec::with_capacity(alloc, WORDS as usize)?;
        for _ in 0..WORDS {
            words.push(AtomicU64::new(0))?;
        }
        Ok(FutexWords {
            words,
            sleepers: AtomicU64::new(0),
            starving: AtomicU64::new(0),
        })
    }

    /// The futex word of y.
    pub(crate) fn of_y() -> u32 {
        0
    }

    /// The futex word of the flag b[process].
    pub(crate) fn of_flag(process: u32) -> u32 {
        process
    }

    // The futex word of the answer to a process.
    fn of_answer(process: u32) -> u32 {
        process.saturating_add(32)
    }

    fn set(&self, word: u32, value: u64) {
        if let Some(word) = self.words.get(word as usize) {
            word.store(value, SeqCst);
        }
    }

    // Sleeps while the announced futex word is 1, for `at_most` at the longest.
    fn sleep<R: Wait>(&self, rt: &R, futex_word: u32, at_most: Duration) {
        if let Some(word) = self.words.get(futex_word as usize) {
            word.park_timeout(rt, 1, at_most);
        }
    }

    // Wakes one thread that announced that it sleeps on this futex word.
    fn wake(&self, futex_word: u32) {
        if let Some(word) = self.words.get(futex_word as usize)
            && word.load(SeqCst) == 1
        {
            word.store(0, SeqCst);
            word.wake_one();
        }
    }

    /// Announces a sleep on this futex word, and wakes one thread that sleeps until this one lowers
    /// its own flag.
    pub(crate) fn announce_sleep(&self, futex_word: u32, own: u32) {
        self.wake(own);
        self.sleepers.fetch_add(1, SeqCst);
        self.set(futex_word, 1);
    }

    /// Sleeps until another thread wakes it, if its last step did not bring it further, for at most
    /// this long.
    pub(crate) fn sleep_until_free<R: Wait>(&self, rt: &R, futex_word: u32, at_most: Duration) {
        self.sleep(rt, futex_word, at_most);
    }

    /// Ends an announced sleep. The thread that was woken announces for those that still sleep, and
    /// the next release wakes the next one. Perhaps no other thread lowers that flag again, so a
    /// thread that slept on a flag's word wakes the next one there itself.
    pub(crate) fn end_sleep(&self, futex_word: u32) {
        if self.sleepers.fetch_sub(1, SeqCst) != 1 {
            self.set(futex_word, 1);
            if futex_word != FutexWords::of_y() {
                self.wake(futex_word);
            }
        }
    }

    /// Says that a process starves, unless another one does. `own` is the futex word of its flag.
    pub(crate) fn starve(&self, own: u32) {
        if self.starving.load(SeqCst) == 0 {
            let _ = self
                .starving
                .compare_exchange(0, who_starves(own), SeqCst, SeqCst);
        }
    }

    /// Says that it no longer starves, if it did, and wakes those that it held back.
    pub(crate) fn end_starving(&self, own: u32) {
        if self.starving.load(SeqCst) % HELD == who_starves(own)
            && self.starving.swap(0, SeqCst) >= HELD
        {
            self.starving.wake_all();
        }
    }

    /// Holds back a process that is about to begin an acquisition while another one starves. If
    /// nobody starves, it is one load.
    #[inline(always)]
    pub(crate) fn let_starving_in<R: Wait>(&self, rt: &R) {
        if self.starving.load(SeqCst) != 0 {
            self.hold_back(rt);
        }
    }

    // Polls some times whether a process still starves, and then sleeps until it is inside, for a
    // millisecond at the longest. Then it lets all go on, since that process may be stopped. One
    // that only was late says again that it starves.
    #[cold]
    #[inline(never)]
    fn hold_back<R: Wait>(&self, rt: &R) {
        let mut backoff = Backoff::new();
        for _ in 0..POLLS_HELD_BACK {
            if self.starving.load(SeqCst) == 0 {
                return;
            }
            backoff.back_off(self);
        }
        let starving = self.starving.load(SeqCst);
        let held = starving % HELD + HELD;
        if starving == 0 || !self.is_marked(starving, held) {
            return;
        }
        self.starving
            .park_timeout(rt, held as u32, Duration::from_millis(LONGEST_HOLD));
        if self
            .starving
            .compare_exchange(held, 0, SeqCst, SeqCst)
            .is_ok()
        {
            self.starving.wake_all();
        }
    }

    // Whether the word of who starves now says that threads sleep.
    fn is_marked(&self, starving: u64, held: u64) -> bool {
        starving == held
            || self
                .starving
                .compare_exchange(starving, held, SeqCst, SeqCst)
                .is_ok()
    }

    /// Announces that a process may sleep until it is answered.
    pub(crate) fn announce_wait(&self, process: u32) {
        self.set(FutexWords::of_answer(process), 1);
    }

    /// Sleeps until the process is answered, if its last poll found no answer, for `at_most` at the
    /// longest.
    pub(crate) fn sleep_until_answered<R: Wait>(&self, rt: &R, process: u32, at_most: Duration) {
        self.sleep(rt, FutexWords::of_answer(process), at_most);
    }

    /// Takes the announcement back.
    pub(crate) fn end_wait(&self, process: u32) {
        self.set(FutexWords::of_answer(process), 0);
    }

    /// Wakes one thread that sleeps until this process releases the lock, and the threads of the
    /// processes whose waits it answered. If nobody sleeps and it answered no wait, it is one load.
    #[inline(always)]
    pub(crate) fn wake_after(&self, process: u32, answered: u32) {
        if self.sleepers.load(SeqCst) != 0 {
            self.wake_walks(process);
        }
        if answered != 0 {
            self.wake_answered(answered);
        }
    }

    // Outlined, as the next function is, so that a release that wakes nobody is short.
    #[cold]
    #[inline(never)]
    fn wake_walks(&self, process: u32) {
        self.wake(FutexWords::of_y());
        self.wake(FutexWords::of_flag(process));
    }

    // Wakes the processes that sleep until they are answered and whose bits are set: bit p - 1
    // stands for process p.
    #[cold]
    #[inline(never)]
    fn wake_answered(&self, answered: u32) {
        let mut left = answered;
        for process in 1..33 {
            if left % 2 == 1 {
                self.wake(FutexWords::of_answer(process));
            }
            left /= 2;
        }
    }

    /// Takes the time of a number of loads. The compiler leaves out a loop that only says that it
    /// spins.
    pub(crate) fn load_again(&self, loads: u32) {
        if let Some(word) = self.words.get(UNCHANGED) {
            for _ in 0..loads {
                let _ = word.load(SeqCst);
            }
        }
    }

    /// How often a process polls for its answer before it sleeps.
    pub(crate) fn polls(&self, process: u32) -> u32 {
        if self.misses(process) < MOST_MISSES {
            LONG_POLLS
        } else {
            SHORT_POLLS
        }
    }

    /// Updates the misses of a process after its polls: whether one found the answer.
    pub(crate) fn learn(&self, process: u32, was_answered: bool) {
        let misses = self.misses(process);
        let next = if misses >= MOST_MISSES + WAITS_WITH_FEW_POLLS {
            MOST_MISSES - FOR_A_MISS
        } else if misses >= MOST_MISSES {
            misses + 1
        } else if was_answered {
            misses.saturating_sub(1)
        } else {
            misses + FOR_A_MISS
        };
        if next != misses {
            self.set(FutexWords::of_misses(process), next);
        }
    }

    fn of_misses(process: u32) -> u32 {
        process.saturating_add(64)
    }

    fn misses(&self, process: u32) -> u64 {
        match self.words.get(FutexWords::of_misses(process) as usize) {
            Some(word) => word.load(SeqCst),
            None => 0,
        }
    }

    /// The address of the first of the 65 futex words, for threads that sleep on them outside
    /// Rattle: that of y, then one for each flag b[j], then one for the answer to each process. A
    /// thread stores 1, checks once more, and sleeps while the word is 1. The thread that stores 0
    /// wakes it. The words stay at their addresses as long as the lock lives.
    pub fn address(&self) -> Option<*const u64> {
        match self.words.first() {
            Some(word) => Some(word.as_ptr() as *const u64),
            None => None,
        }
    }
}

// What the word of who starves is while it is the process whose flag has this futex word.
fn who_starves(own: u32) -> u64 {
    u64::from(own) + 1
}
