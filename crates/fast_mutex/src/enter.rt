//! Acquiring a lock step by step, with a wait while another process holds it.
ghost use Rattle.std.specs.Prelude.{◌≡◌, ◌≤◌, ◌+◌, true, false, []};
ghost use Rattle.fast_mutex.specs.Items.{Grows};

use crate::backoff::Backoff;
use crate::lock::Lock;
use crate::logged::Logged;
use std::sync::Wait;
use std::time::Duration;

/// How many steps an acquisition takes if it meets nobody (Lamport's fast path).
pub const FAST_PATH_STEPS: u32 = 5;

// How often an acquisition that makes no progress backs off before it sleeps.
const MOST_PAUSES: u32 = 12;

// How long an acquisition sleeps at most, in microseconds: the first time, and then each time twice
// as long. No wake-up is lost between calls of a `Process`; the first sleeps are short so that a
// process soon finds out that it starves. The last bound is for the caller of a `Guard`, who has to
// wake others itself: if it forgets that, they are as late.
const FIRST_SLEEP: u64 = 500;

const LONGEST_SLEEP: u64 = 1_000_000;

// How long the next sleep may be once an acquisition starves: it has slept twice.
const STARVING_SLEEP: u64 = 2_000;

/// Acquiring with a wait, for every lock. It is a trait of its own, so that code that never waits
/// can use a lock.
pub trait Enter<S: Logged>: Lock<S> {
    /// Takes [`FAST_PATH_STEPS`] steps, or fewer if the lock is acquired before. It takes none once
    /// the lock is acquired. It never waits.
    fn take_fast_path(&self, walk: Self::Walk) -> Self::Walk
        requires { (Self.walking walk).lock ≡ Self.id self.now }
        ensures ticket { Self.walking result ≡ Self.walking walk }
        ensures few { Self.walk_accesses result ≤ Self.walk_accesses walk + 5 }
        ensures all { Self.is_in result ≡ false →
            Self.walk_accesses result ≡ Self.walk_accesses walk + 5 }
        ensures inside { Self.is_in walk ≡ true → result ≡ walk };

    /// Takes steps until the lock is acquired, and waits while another process holds it. Before the
    /// first one it lets a process in that has waited for long.
    fn come_in<R: Wait>(&self, rt: &R, walk: Self::Walk) -> Self::Walk
        requires { (Self.walking walk).lock ≡ Self.id self.now }
        ensures ticket { Self.walking result ≡ Self.walking walk }
        ensures inside { Self.is_in result ≡ true };

    /// Acquires the lock, waiting while another process holds it, and takes the state.
    fn enter<R: Wait>(&self, rt: &R, seat: Self::Seat) -> (Self::Inside, S)
        requires { (Self.ticket seat).lock ≡ Self.id self.now }
        ensures stay { Self.stay result.0 ≡ record (Self.ticket seat) { left = S.items result.1 } }
        ensures fixed { S.fixed result.1 ≡ (Self.id self.now).fixed }
        ensures grows { Grows S.author (Self.ticket seat).number (Self.ticket seat).left
            (S.items result.1) [] }
        ensures told { (Self.ticket seat).told ≡ true →
            S.is_answered (Self.ticket seat).number (S.items result.1) ≡ true }
        ensures number { (1 ≤ (Self.ticket seat).number) ×
            ((Self.ticket seat).number ≤ (Self.id self.now).count) };

    /// Wakes the threads that sleep until this process releases the lock, and those whose waits its
    /// last critical section answered. If nobody sleeps, it is a few loads. A thread that is not
    /// woken polls again after a second.
    fn wake(&self, seat: &Self::Seat);
}

impl<S: Logged, L: Lock<S>> Enter<S> for L {
    // The steps are unrolled, so that the compiler knows at which step the acquisition is.
    #[inline(always)]
    fn take_fast_path(&self, walk: L::Walk) -> L::Walk {
        let walk = next(self, walk);
        let walk = next(self, walk);
        let walk = next(self, walk);
        let walk = next(self, walk);
        next(self, walk)
    }

    #[inline(always)]
    fn come_in<R: Wait>(&self, rt: &R, walk: L::Walk) -> L::Walk {
        self.futex_words().let_starving_in(rt);
        let tried = self.take_fast_path(walk);
        if L::is_admitted(&tried) {
            return tried;
        }
        wait_apart(self, rt, tried)
    }

    fn enter<R: Wait>(&self, rt: &R, seat: L::Seat) -> (L::Inside, S) {
        L::admitted(self.come_in(rt, self.begin(seat)))
    }

    #[inline(always)]
    fn wake(&self, seat: &L::Seat) {
        self.futex_words()
            .wake_after(L::number(seat), L::answered_by(seat));
    }
}

// The acquisition is moved into variables of its own here, so that one that meets nobody stays in
// registers.
#[inline(always)]
fn wait_apart<S: Logged, L: Lock<S>, R: Wait>(lock: &L, rt: &R, walk: L::Walk) -> L::Walk
    requires { (L.walking walk).lock ≡ L.id lock.now }
    ensures ticket { L.walking result ≡ L.walking walk }
    ensures inside { L.is_in result ≡ true }
{
    let apart = walk;
    let waited = wait_in(lock, rt, apart);
    waited
}

// Takes step after step. After a step without progress it backs off, each time longer, and after
// twelve such steps it sleeps. Backoff starts again with the shortest pause after progress or a
// sleep. It never yields: beside a busy thread, a yield costs a whole time slice of that thread.
// After its second sleep it starves: other processes then begin no acquisition until it is inside
// or sleeps again. It is outlined, so that an acquisition that meets nobody has only the code that
// it needs.
#[inline(never)]
fn wait_in<S: Logged, L: Lock<S>, R: Wait>(lock: &L, rt: &R, mut walk: L::Walk) -> L::Walk
    requires { (L.walking walk).lock ≡ L.id lock.now }
    ensures ticket { L.walking result ≡ L.walking walk }
    ensures inside { L.is_in result ≡ true }
{
    let own = L::own_futex_word(&walk);
    let mut backoff = Backoff::new();
    let mut paused = 0;
    let mut longest_sleep = FIRST_SLEEP;
    for _ in rt.forever() {
        if L::is_admitted(&walk) {
            if longest_sleep >= STARVING_SLEEP {
                lock.futex_words().end_starving(own);
            }
            return walk;
        }
        if longest_sleep >= STARVING_SLEEP {
            lock.futex_words().starve(own);
        }
        let is_tired = paused >= MOST_PAUSES;
        let (next, has_moved) = if is_tired {
            lock.futex_words().end_starving(own);
            sleep_apart(lock, rt, walk, Duration::from_micros(longest_sleep))
        } else {
            lock.step(walk)
        };
        walk = next;
        if is_tired {
            longest_sleep = longest_sleep.saturating_mul(2).min(LONGEST_SLEEP);
        }
        if has_moved || is_tired {
            backoff = Backoff::new();
            paused = 0;
        } else {
            backoff.back_off(lock.futex_words());
            paused += 1;
        }
    }
    unreachable!()
}

// Announces that it sleeps, takes the next step, and if that makes no progress, sleeps until it is
// woken, for `at_most` at the longest.
fn sleep_apart<S: Logged, L: Lock<S>, R: Wait>(
    lock: &L,
    rt: &R,
    walk: L::Walk,
    at_most: Duration,
) -> (L::Walk, bool)
    requires lock { (L.walking walk).lock ≡ L.id lock.now }
    requires outside { L.is_in walk ≡ false }
    ensures { L.walking result.0 ≡ L.walking walk }
{
    let futex_words = lock.futex_words();
    let futex_word = L::futex_word(&walk);
    futex_words.announce_sleep(futex_word, L::own_futex_word(&walk));
    let (walk, has_moved) = lock.step(walk);
    if !has_moved {
        futex_words.sleep_until_free(rt, futex_word, at_most);
    }
    futex_words.end_sleep(futex_word);
    (walk, has_moved)
}

// The next step, unless the lock is acquired.
#[inline(always)]
fn next<S: Logged, L: Lock<S>>(lock: &L, walk: L::Walk) -> L::Walk
    requires { (L.walking walk).lock ≡ L.id lock.now }
    ensures ticket { L.walking result ≡ L.walking walk }
    ensures one { L.walk_accesses result ≤ L.walk_accesses walk + 1 }
    ensures inside { L.is_in walk ≡ true → result ≡ walk }
    ensures outside { L.is_in walk ≡ false → L.walk_accesses result ≡ L.walk_accesses walk + 1 }
{
    if !L::is_admitted(&walk) {
        return lock.step(walk).0;
    }
    walk
}
