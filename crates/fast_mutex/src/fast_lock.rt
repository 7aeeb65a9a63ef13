//! `FastMutex` implements `Lock` and `Look`. This module has no access to the words: an acquisition
//! consists of public steps.
ghost use Rattle.std.specs.Prelude.{◌≡◌, ◌≤◌, ◌+◌, ◌↔◌, [], length, IfOk, IfErr, IsOk};
ghost use Rattle.std.specs.List.{All};
ghost use Rattle.lamport_core.specs.declared.At.TheVariants.{Fast as FastAt, Slow as SlowAt};
ghost use Rattle.fast_mutex.specs.Items.{Grows};
ghost use Rattle.fast_mutex.specs.Word.{lock_id, made_with};
ghost use Rattle.fast_mutex.specs.Fast.{is_inside, ticket_of, stay_of, accesses_of};
ghost use Rattle.fast_mutex.specs.declared.lock.Path.TheVariants.{Fast};

use crate::fast::{FastInside, FastMutex, FastSeat, Walk};
use crate::futex_words::FutexWords;
use crate::lock::{Lock, Look, Missing, Path};
use crate::logged::Logged;
use lamport_core::At;
use std::alloc::{AllocError, Global};

impl<S: Logged + Drop> Lock<S> for FastMutex<S> {
    type Seat = FastSeat<S>;

    type Walk = Walk<S>;

    type Inside = FastInside<S>;

    ghost id = { λ l. lock_id l.table.shared.table_id (made_with S.fixed l.table.shared.key) };

    ghost ticket = { λ s. ticket_of s.number s.seat };

    ghost walking = { λ w. ticket_of w.number w.seat };

    ghost is_in = { λ w. is_inside w.at };

    ghost stay = { λ s. stay_of s.number s.seat };

    ghost seat_accesses = { λ s. accesses_of s.seat };

    ghost walk_accesses = { λ w. accesses_of w.seat };

    ghost stay_accesses = { λ s. accesses_of s.seat };

    fn new(
        alloc: Global,
        n: u32,
        state: S,
    ) -> Result<(FastMutex<S>, Vec<FastSeat<S>>), (S, AllocError)> {
        FastMutex::make(alloc, n, state)
    }

    #[inline(always)]
    fn number(seat: &FastSeat<S>) -> u32 {
        FastMutex::number_of(seat)
    }

    #[inline(always)]
    fn begin(&self, seat: FastSeat<S>) -> Walk<S> {
        FastMutex::begin(self, seat)
    }

    /// One line. While the algorithm waits, at `At::AwaitY`, `At::Scan` and `At::SlowAwait`, it
    /// makes no progress.
    #[inline(always)]
    fn step(&self, walk: Walk<S>) -> (Walk<S>, bool) {
        let before = FastMutex::at(&walk);
        let walk = FastMutex::step(self, walk);
        let has_moved = match before {
            At::AwaitY | At::Scan(_) | At::SlowAwait => FastMutex::at(&walk) != before,
            _ => true,
        };
        (walk, has_moved)
    }

    #[inline(always)]
    fn is_admitted(walk: &Walk<S>) -> bool {
        match FastMutex::at(walk) {
            At::Fast | At::Slow => true,
            _ => false,
        }
    }

    #[inline(always)]
    fn admitted(walk: Walk<S>) -> (FastInside<S>, S) {
        FastMutex::admitted(walk)
    }

    /// `Path::Fast` if and only if the lock was acquired at `At::Fast`.
    fn path(inside: &FastInside<S>) -> Path
        ensures { (inside.now.at ≡ FastAt) ↔ (result ≡ Fast) }
    {
        match FastMutex::at_of(inside) {
            At::Fast => Path::Fast,
            _ => Path::Slow,
        }
    }

    /// The steps of the acquisition: 5 on the fast path, and at least n + 7 on the slow path.
    fn steps(inside: &FastInside<S>) -> u64
        ensures steps { result ≡ inside.now.steps }
        ensures fast { inside.now.at ≡ FastAt → result ≡ 5 }
        ensures slow { inside.now.at ≡ SlowAt →
            (stay_of inside.now.number inside.now.seat).lock.count + 7 ≤ result }
    {
        FastMutex::steps_of(inside)
    }

    #[inline(always)]
    fn leave(&self, inside: FastInside<S>, state: S) -> FastSeat<S> {
        self.depart(inside, state)
    }

    #[inline(always)]
    fn futex_words(&self) -> &FutexWords {
        FastMutex::futex_words(self)
    }

    fn futex_word(walk: &Walk<S>) -> u32 {
        FastMutex::futex_word_of(walk)
    }

    fn own_futex_word(walk: &Walk<S>) -> u32 {
        FastMutex::own_futex_word_of(walk)
    }

    #[inline(always)]
    fn answered_by(seat: &FastSeat<S>) -> u32 {
        seat.answered
    }

    fn finish(self, seats: Vec<FastSeat<S>>) -> Result<S, Missing<FastMutex<S>, FastSeat<S>>>
        requires { All (λ s. (⟦<Self as Lock<S>>⟧.ticket s).lock ≡
            ⟦<Self as Lock<S>>⟧.id self) seats.items }
        ensures all { ((⟦<Self as Lock<S>>⟧.id self).count ≤ length seats.items) ↔ IsOk result }
        ensures fixed { IfOk result (λ s. S.fixed s ≡ (⟦<Self as Lock<S>>⟧.id self).fixed) }
        ensures grows { IfOk result (λ s.
            All (λ t. Grows S.author (⟦<Self as Lock<S>>⟧.ticket t).number
            (⟦<Self as Lock<S>>⟧.ticket t).left (S.items s) []) seats.items) }
        ensures back { IfErr result (λ m. (m.whole ≡ self) × (m.parts ≡ seats)) }
    {
        self.gather(seats)
    }
}

impl<S: Logged + Drop> Look<S> for FastMutex<S> {
    fn answered(&self, seat: &mut FastSeat<S>) -> bool {
        self.look(seat)
    }
}
