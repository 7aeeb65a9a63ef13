//! Waiting until the wait of a process is answered, for every lock that can be polled.
ghost use Rattle.std.specs.Prelude.{◌≡◌, ◌||◌, true};

use crate::backoff::Backoff;
use crate::lock::Look;
use crate::logged::Logged;
use std::sync::Wait;
use std::time::Duration;

/// Waiting for an answer. It is a trait of its own, so that code that never waits can poll.
pub trait AwaitAnswer<S: Logged>: Look<S> {
    /// Polls until the wait is answered, for about `at_most` at the longest. It polls a few times,
    /// and then sleeps until the process that answers the wait wakes it. Returns what the last poll
    /// found.
    fn await_answer<R: Wait>(&self, rt: &R, seat: &mut Self::Seat, at_most: Duration) -> bool
        requires { (Self.ticket seat.old).lock ≡ Self.id self.now }
        ensures ticket { Self.ticket seat.new ≡
            record (Self.ticket seat.old) { told = (Self.ticket seat.old).told || result } }
        ensures again { (Self.ticket seat.old).told ≡ true → result ≡ true }
        ensures left { S.is_answered (Self.ticket seat.old).number (Self.ticket seat.old).left ≡
            true → result ≡ true };
}

impl<S: Logged, L: Look<S>> AwaitAnswer<S> for L {
    fn await_answer<R: Wait>(&self, rt: &R, seat: &mut L::Seat, at_most: Duration) -> bool {
        look_some_times(self, seat) || look_after_sleep(self, rt, seat, at_most)
    }
}

// Polls a few times, with a longer backoff after each, so that a wait that is soon answered ends
// without a sleep.
fn look_some_times<S: Logged, L: Look<S>>(lock: &L, seat: &mut L::Seat) -> bool
    requires { (L.ticket seat.old).lock ≡ L.id lock.now }
    ensures { L.ticket seat.new ≡ record (L.ticket seat.old) {
      told = (L.ticket seat.old).told || result;
    } }
{
    let futex_words = lock.futex_words();
    let process = L::number(seat);
    let mut backoff = Backoff::new();
    for _ in 0..futex_words.polls(process) {
        if lock.answered(seat) {
            futex_words.learn(process, true);
            return true;
        }
        backoff.back_off(futex_words);
    }
    futex_words.learn(process, false);
    false
}

// Announces that it may sleep, polls, sleeps until it is woken or the time is over, and polls
// again.
fn look_after_sleep<S: Logged, L: Look<S>, R: Wait>(
    lock: &L,
    rt: &R,
    seat: &mut L::Seat,
    at_most: Duration,
) -> bool
    requires { (L.ticket seat.old).lock ≡ L.id lock.now }
    ensures ticket { L.ticket seat.new ≡
        record (L.ticket seat.old) { told = (L.ticket seat.old).told || result } }
    ensures again { (L.ticket seat.old).told ≡ true → result ≡ true }
    ensures left { S.is_answered (L.ticket seat.old).number (L.ticket seat.old).left ≡ true →
        result ≡ true }
{
    let futex_words = lock.futex_words();
    let process = L::number(seat);
    futex_words.announce_wait(process);
    if !lock.answered(seat) {
        futex_words.sleep_until_answered(rt, process, at_most);
    }
    futex_words.end_wait(process);
    lock.answered(seat)
}
