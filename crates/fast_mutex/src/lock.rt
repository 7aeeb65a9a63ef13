//! The contract of a lock: what a process finds when it acquires the lock, and what it owes when it
//! releases it.
ghost use Rattle.std.specs.Prelude.{◌≡◌, ◌≤◌, ◌+◌, ◌↔◌, ◌||◌, ℕ, Bool, true, false, [], map, length, IfOk, IfErr, IsOk};
ghost use Rattle.std.specs.List.{All};
ghost use Rattle.fast_mutex.specs.Items.{LockId, Ticket, tickets_with, Grows, GrowsBy};

use crate::futex_words::FutexWords;
use crate::logged::Logged;
use std::alloc::{AllocError, Global};

/// How a process acquired the lock, in the terms of Lamport, "A Fast Mutual Exclusion Algorithm"
/// (1987).
#[derive(Clone, Copy, Debug, PartialEq, Eq)]
pub enum Path {
    /// It found its own number in x. It did not load the flags of the others.
    Fast,
    /// It found its own number in y, after it had waited for the flag of each other process.
    Slow,
}

/// `finish` got fewer seats than the lock has. The lock and the seats come back unchanged.
#[derive(Drop)]
pub struct Missing<L, T> {
    pub whole: L,
    pub parts: Vec<T>,
}

/// A lock around a state, which it hands to the one process that is in its critical section.
///
/// While a process is outside, other processes put items of their own in front of the state's list,
/// and the list changes in no other way. So a process that acquires the lock finds the list that it
/// last left, with only items of others in front. An acquisition is a sequence of single steps,
/// none of which waits; [`Enter`](crate::Enter) takes them until the lock is acquired. There is no
/// guarantee that a waiting process ever acquires the lock, or which one is next.
pub trait Lock<S: Logged>: Sized + Drop {
    /// The right of one process to acquire the lock. If a seat is dropped it is lost, and `finish`
    /// then never succeeds.
    type Seat: Drop;

    /// An acquisition in progress, step by step. Once the lock is acquired it holds the state. If
    /// it takes no further steps, or is dropped, it can keep all others out.
    type Walk: Drop;

    /// The guard of a critical section. `leave` consumes it.
    type Inside;

    // the identity of the lock
    ghost id: { Self → LockId };

    // what the proof knows of a seat
    ghost ticket: { Self.Seat → Ticket S.Item };

    // what it knows of an acquisition: the ticket of its seat
    ghost walking: { Self.Walk → Ticket S.Item };

    // whether the acquisition has the lock
    ghost is_in: { Self.Walk → Bool };

    // what it knows of a process in its critical section; `left` is the list found
    ghost stay: { Self.Inside → Ticket S.Item };

    // how many accesses to words of the lock the process of a seat has made
    ghost seat_accesses: { Self.Seat → ℕ };

    // the same for the process of an acquisition
    ghost walk_accesses: { Self.Walk → ℕ };

    // the same for a process in its critical section
    ghost stay_accesses: { Self.Inside → ℕ };

    /// A lock for the processes 1 to `n`, and their seats in order. Each counts as having left the
    /// list of the state. It takes all the memory that later calls need. If memory is refused, the
    /// state comes back.
    fn new(alloc: Global, n: u32, state: S) -> Result<(Self, Vec<Self::Seat>), (S, AllocError)>
        requires { (1 ≤ n) × (n ≤ 32) }
        ensures lock { IfOk result (λ r. ((id r.0).count ≡ n) × ((id r.0).fixed ≡ S.fixed state)) }
        ensures seats { IfOk result (λ r. map ticket r.1.items ≡
            tickets_with (id r.0) (S.items state) 1 n) }
        ensures back { IfErr result (λ r. r.0 ≡ state) };

    /// The number of the process.
    fn number(seat: &Self::Seat) -> u32
        ensures { result ≡ (ticket seat.now).number };

    /// An acquisition that has not begun. No word is accessed.
    fn begin(&self, seat: Self::Seat) -> Self::Walk
        requires { (ticket seat).lock ≡ id self.now }
        ensures ticket { walking result ≡ ticket seat }
        ensures outside { is_in result ≡ false }
        ensures untouched { walk_accesses result ≡ seat_accesses seat };

    /// The next step of an acquisition: one access to one word. It never waits. Returns the
    /// acquisition, and whether the step made progress. If not, what it waits for has not happened,
    /// and the caller should back off.
    fn step(&self, walk: Self::Walk) -> (Self::Walk, bool)
        requires lock { (walking walk).lock ≡ id self.now }
        requires outside { is_in walk ≡ false }
        ensures ticket { walking result.0 ≡ walking walk }
        ensures access { walk_accesses result.0 ≡ walk_accesses walk + 1 };

    /// Whether the lock is acquired.
    fn is_admitted(walk: &Self::Walk) -> bool
        ensures { result ≡ is_in walk.now };

    /// The guard and the state, once the lock is acquired.
    fn admitted(walk: Self::Walk) -> (Self::Inside, S)
        requires { is_in walk ≡ true }
        ensures stay { stay result.0 ≡ record (walking walk) { left = S.items result.1 } }
        ensures fixed { S.fixed result.1 ≡ (walking walk).lock.fixed }
        ensures grows { Grows S.author (walking walk).number (walking walk).left
            (S.items result.1) [] }
        ensures told { (walking walk).told ≡ true →
            S.is_answered (walking walk).number (S.items result.1) ≡ true }
        ensures number { (1 ≤ (walking walk).number) ×
            ((walking walk).number ≤ (walking walk).lock.count) }
        ensures untouched { stay_accesses result.0 ≡ walk_accesses walk };

    /// How the lock was acquired for this critical section. Each lock says which paths it has.
    fn path(inside: &Self::Inside) -> Path;

    /// The atomic steps of the attempt that acquired the lock, in Lamport's algorithm from its last
    /// `b[i] := true` on. The count stops at `u64::MAX`.
    fn steps(inside: &Self::Inside) -> u64;

    /// Releases the lock and gives the state back. Its list must be the one found, with only items
    /// of this process in front. It never waits, and makes at most one access for each process and
    /// two more.
    fn leave(&self, inside: Self::Inside, state: S) -> Self::Seat
        requires lock { (stay inside).lock ≡ id self.now }
        requires fixed { S.fixed state ≡ (id self.now).fixed }
        requires grows { GrowsBy S.author (stay inside).number (stay inside).left (S.items state) }
        ensures ticket { ticket result ≡ record (stay inside) {
          left = S.items state;
          told = false;
        } }
        ensures few { seat_accesses result ≤ stay_accesses inside + (id self.now).count + 2 };

    /// The words that threads sleep on. They are not words of the lock.
    fn futex_words(&self) -> &FutexWords;

    /// The futex word on which an acquisition without progress sleeps.
    fn futex_word(walk: &Self::Walk) -> u32;

    /// The futex word on which others sleep that wait for this process.
    fn own_futex_word(walk: &Self::Walk) -> u32;

    /// The processes whose waits this process's last critical section answered, as bits: bit p - 1
    /// stands for process p. [`Enter::wake`](crate::Enter) wakes them. It is a hint: no contract
    /// says that it is right.
    fn answered_by(seat: &Self::Seat) -> u32;

    /// Ends the lock and returns the state. If all seats are given, no process is in its critical
    /// section. It never waits, and takes no memory.
    fn finish(self, seats: Vec<Self::Seat>) -> Result<S, Missing<Self, Self::Seat>>
        requires { All (λ s. (ticket s).lock ≡ id self) seats.items }
        ensures all { ((id self).count ≤ length seats.items) ↔ IsOk result }
        ensures fixed { IfOk result (λ s. S.fixed s ≡ (id self).fixed) }
        ensures grows { IfOk result (λ s.
            All (λ t. Grows S.author (ticket t).number (ticket t).left
            (S.items s) []) seats.items) }
        ensures back { IfErr result (λ m. (m.whole ≡ self) × (m.parts ≡ seats)) };
}

/// Polling from outside the critical section, by one load, whether the wait of a seat's process is
/// answered. It never waits.
pub trait Look<S: Logged>: Lock<S> {
    /// One poll. If it returns true, the ticket of the seat records that (`told`), and every later
    /// poll returns true until the next critical section of the process. A poll also returns true
    /// if the list that the process last left answers its wait.
    fn answered(&self, seat: &mut Self::Seat) -> bool
        requires { (Self.ticket seat.old).lock ≡ Self.id self.now }
        ensures ticket { Self.ticket seat.new ≡
            record (Self.ticket seat.old) { told = (Self.ticket seat.old).told || result } }
        ensures again { (Self.ticket seat.old).told ≡ true → result ≡ true }
        ensures left { S.is_answered (Self.ticket seat.old).number (Self.ticket seat.old).left ≡
            true → result ≡ true }
        ensures access { Self.seat_accesses seat.new ≡ Self.seat_accesses seat.old + 1 };
}
