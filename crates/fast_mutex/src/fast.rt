//! Lamport's lock: Algorithm 2 of "A Fast Mutual Exclusion Algorithm" (1987) over atomic words.
//! Only this module has access to the words. Each line of the algorithm accesses one word, by one
//! load or one store.
//!
//! Word 0 is x, and word 1 is y. For n processes, word i + 1 is the flag b[i] of process i, 1 if it
//! is up. Word n + 1 + i is s[i], 1 if the wait of process i is answered. The state is in the one
//! slot of the table, except while a process is in its critical section.
ghost use Rattle.std.specs.Prelude.{ℕ, slice_index, ◌≡◌, ◌<◌, ◌≤◌, ◌+◌, ◌-◌, ◌*◌, ◌||◌, ◌⊎◌, ◌↔◌, [], ◌∷◌, true, false, Some, None, map, length, IfOk, IfErr, IsOk};
ghost use Rattle.std.specs.List.{All};
ghost use Rattle.lamport_core.specs.Line.{IsLine, IsCounted, one_more, pass_steps};
ghost use Rattle.lamport_core.specs.declared.At.TheVariants.{Rest, Start, SetX, TestY, BackB, AwaitY, SetY, TestX, SlowB, Scan, SlowY, SlowAwait, Fast, Slow, Leaving};
ghost use Rattle.fast_mutex.specs.Items.{tickets_with, Grows, GrowsBy};
ghost use Rattle.fast_mutex.specs.Seats.{first_view, last_left, lock_id, made_with};
ghost use Rattle.fast_mutex.specs.Word.{HasGrown};
ghost use Rattle.fast_mutex.specs.Marks.{flag, answer_bits};
ghost use Rattle.fast_mutex.specs.Fast.{seat_view, view_planned, view_marked, list_in, IsReady, Shows, resting, is_inside, slots_at, state_shown, state_at, counted_prop, ticket_of, stay_of, accesses_of, IsSeatOf};

use crate::futex_words::FutexWords;
use crate::lock::Missing;
use crate::logged::Logged;
use crate::seats::{About, LockSeat, close, deal};
use crate::slot::{furnish, put_in, take_out};
use atomic_table::{Seat, Table};
use lamport_core::At;
use std::alloc::{AllocError, Global};
use std::snapshot::Snapshot;

mod rule;
mod view;

use rule::{FastRule, Leaves, Loads, Looks, Marks, Stores, Tests};
use view::View;

const X: usize = 0;

const Y: usize = 1;

type TableSeat<S> = Seat<Option<S>, View<<S as Logged>::Item>>;

/// Lamport's lock, by loads and stores alone. Without contention an acquisition takes five steps
/// and a release two.
///
/// It guards any state that may be dropped. There is no guarantee which process is next, or that a
/// waiting process ever acquires the lock. A `Walk` that takes no further steps can keep all others
/// out.
#[derive(Drop)]
pub struct FastMutex<S: Logged> {
    table: Table<Option<S>, View<S::Item>, About<S>, FastRule<S>, Global>,
    count: u32,
    futex_words: FutexWords,
    ghost shape: { (table.shared.table_id.words ≡ 2 * count + 2) ×
        (table.shared.table_id.slots ≡ 1) × (count ≡ table.shared.key.count) × (1 ≤ count) ×
        (count ≤ 32) },
}

/// The right of one process to acquire a `FastMutex`. The process is outside its critical section.
pub type FastSeat<S> = LockSeat<S, View<<S as Logged>::Item>>;

/// An acquisition in progress, step by step. Once the lock is acquired it holds the state, which
/// `FastMutex::admitted` returns. If it is dropped or takes no further steps, it can keep all
/// others out.
#[derive(Drop)]
pub struct Walk<S: Logged> {
    number: u32,
    at: At,
    steps: u64,
    state: Option<S>,
    seat: Seat<Option<S>, View<S::Item>>,
    ghost range: { (1 ≤ number) × (number ≤ seat.me.0.fixed.0) },
    ghost alone: { seat.me ≡ (
      seat_view at seat.me.0.found seat.me.0.fixed
          ((number, last_left seat.me.0.claims) ∷ []) seat.me.0.plan seat.me.0.accesses,
      slots_at at,
    ) },
    ghost held: { state_shown S.items S.fixed state ≡ state_at at seat.me.0.found seat.me.0.fixed },
    ghost grown: { is_inside at ≡ true →
        HasGrown S.author number (last_left seat.me.0.claims) seat.me.0.found },
    ghost unstored: { is_inside at ≡ true → seat.me.0.plan.stored ≡ [] },
    ghost told: { is_inside at ≡ true → seat.me.0.plan.told ≡ true →
        S.is_answered number seat.me.0.found ≡ true },
    ghost entering: { at ≡ Leaving → ⊥ },
    ghost counted: { IsCounted seat.me.0.fixed.0 at steps } by { counted_prop seat.me.0.fixed.0 at steps },
}

/// The guard of a critical section. `leave` consumes it.
pub struct FastInside<S: Logged> {
    number: u32,
    at: At,
    steps: u64,
    answers: u32,
    seat: Seat<Option<S>, View<S::Item>>,
    ghost range: { (1 ≤ number) × (number ≤ seat.me.0.fixed.0) },
    ghost is_in: { is_inside at ≡ true },
    ghost unstored: { seat.me.0.plan.stored ≡ [] },
    ghost known: { answers ≡ answer_bits (λ p. S.is_answered p seat.me.0.found) 1 32 },
    ghost alone: { seat.me ≡ (
      seat_view at seat.me.0.found seat.me.0.fixed
          ((number, last_left seat.me.0.claims) ∷ []) seat.me.0.plan seat.me.0.accesses,
      (0, None) ∷ [],
    ) },
    ghost counted: { IsCounted seat.me.0.fixed.0 at steps } by { counted_prop seat.me.0.fixed.0 at steps },
}

// One step more. The count stops at the greatest number.
fn one_more(steps: u64) -> u64
    ensures { result ≡ one_more steps }
{
    steps.saturating_add(1)
}

// The lines of an acquisition, one function each. Each accesses one word once.
impl<S: Logged> FastMutex<S> {
    // b[i] := true, the first step of each attempt
    #[inline(always)]
    fn raise_b(&self, mut walk: Walk<S>) -> Walk<S>
        requires lock { IsSeatOf S.fixed self.now.table.shared.table_id
            self.now.table.shared.key walk.seat }
        requires at { (walk.at ≡ Rest) ⊎ (walk.at ≡ Start) }
        ensures at { result.at ≡ SetX }
        ensures steps { result.steps ≡ 1 }
        ensures access { accesses_of result.seat ≡ accesses_of walk.seat + 1 }
        ensures ticket { ticket_of result.number result.seat ≡ ticket_of walk.number walk.seat }
    {
        let flag = walk.number as usize + 1;
        self.table.shared.store::<Stores>(&mut walk.seat, flag, 1);
        walk.at = At::SetX;
        walk.steps = 1;
        walk
    }

    // x := i
    #[inline(always)]
    fn set_x(&self, mut walk: Walk<S>) -> Walk<S>
        requires lock { IsSeatOf S.fixed self.now.table.shared.table_id
            self.now.table.shared.key walk.seat }
        requires at { walk.at ≡ SetX }
        ensures at { result.at ≡ TestY }
        ensures steps { result.steps ≡ one_more walk.steps }
        ensures access { accesses_of result.seat ≡ accesses_of walk.seat + 1 }
        ensures ticket { ticket_of result.number result.seat ≡ ticket_of walk.number walk.seat }
    {
        let number = walk.number as u64;
        self.table.shared.store::<Stores>(&mut walk.seat, X, number);
        walk.at = At::TestY;
        walk.steps = one_more(walk.steps);
        walk
    }

    // load y: go on if it is 0, else back out
    #[inline(always)]
    fn test_y(&self, mut walk: Walk<S>) -> Walk<S>
        requires lock { IsSeatOf S.fixed self.now.table.shared.table_id
            self.now.table.shared.key walk.seat }
        requires at { walk.at ≡ TestY }
        ensures at { (result.at ≡ SetY) ⊎ (result.at ≡ BackB) }
        ensures steps { result.steps ≡ one_more walk.steps }
        ensures access { accesses_of result.seat ≡ accesses_of walk.seat + 1 }
        ensures ticket { ticket_of result.number result.seat ≡ ticket_of walk.number walk.seat }
    {
        let ahead = self.table.shared.load::<Loads>(&mut walk.seat, Y);
        walk.at = if ahead == 0 { At::SetY } else { At::BackB };
        walk.steps = one_more(walk.steps);
        walk
    }

    // b[i] := false, when backing out
    fn back_b(&self, mut walk: Walk<S>) -> Walk<S>
        requires lock { IsSeatOf S.fixed self.now.table.shared.table_id
            self.now.table.shared.key walk.seat }
        requires at { walk.at ≡ BackB }
        ensures at { result.at ≡ AwaitY }
        ensures steps { result.steps ≡ one_more walk.steps }
        ensures access { accesses_of result.seat ≡ accesses_of walk.seat + 1 }
        ensures ticket { ticket_of result.number result.seat ≡ ticket_of walk.number walk.seat }
    {
        let flag = walk.number as usize + 1;
        self.table.shared.store::<Stores>(&mut walk.seat, flag, 0);
        walk.at = At::AwaitY;
        walk.steps = one_more(walk.steps);
        walk
    }

    // load y: start again if it is 0, else wait
    fn await_y(&self, mut walk: Walk<S>) -> Walk<S>
        requires lock { IsSeatOf S.fixed self.now.table.shared.table_id
            self.now.table.shared.key walk.seat }
        requires at { walk.at ≡ AwaitY }
        ensures at { (result.at ≡ Start) ⊎ (result.at ≡ AwaitY) }
        ensures steps { result.steps ≡ one_more walk.steps }
        ensures access { accesses_of result.seat ≡ accesses_of walk.seat + 1 }
        ensures ticket { ticket_of result.number result.seat ≡ ticket_of walk.number walk.seat }
    {
        let found = self.table.shared.load::<Loads>(&mut walk.seat, Y);
        walk.at = if found == 0 { At::Start } else { At::AwaitY };
        walk.steps = one_more(walk.steps);
        walk
    }

    // y := i
    #[inline(always)]
    fn set_y(&self, mut walk: Walk<S>) -> Walk<S>
        requires lock { IsSeatOf S.fixed self.now.table.shared.table_id
            self.now.table.shared.key walk.seat }
        requires at { walk.at ≡ SetY }
        ensures at { result.at ≡ TestX }
        ensures steps { result.steps ≡ one_more walk.steps }
        ensures access { accesses_of result.seat ≡ accesses_of walk.seat + 1 }
        ensures ticket { ticket_of result.number result.seat ≡ ticket_of walk.number walk.seat }
    {
        let number = walk.number as u64;
        self.table.shared.store::<Stores>(&mut walk.seat, Y, number);
        walk.at = At::TestX;
        walk.steps = one_more(walk.steps);
        walk
    }

    // load x: acquired if it is i, else the slow path
    #[inline(always)]
    fn test_x(&self, mut walk: Walk<S>) -> Walk<S>
        requires lock { IsSeatOf S.fixed self.now.table.shared.table_id
            self.now.table.shared.key walk.seat }
        requires at { walk.at ≡ TestX }
        ensures at { (result.at ≡ Fast) ⊎ (result.at ≡ SlowB) }
        ensures steps { result.steps ≡ one_more walk.steps }
        ensures access { accesses_of result.seat ≡ accesses_of walk.seat + 1 }
        ensures ticket { ticket_of result.number result.seat ≡ ticket_of walk.number walk.seat }
    {
        let number = walk.number as u64;
        let found = self.table.shared.load::<Tests<S>>(&mut walk.seat, X);
        walk.steps = one_more(walk.steps);
        if found == number {
            let state = take_out(&self.table.shared, &mut walk.seat);
            walk.at = At::Fast;
            let before = walk.state.replace(state);
            let None = before else { unreachable!() };
        } else {
            walk.at = At::SlowB;
        }
        walk
    }

    // b[i] := false, before the scan
    fn slow_b(&self, mut walk: Walk<S>) -> Walk<S>
        requires lock { IsSeatOf S.fixed self.now.table.shared.table_id
            self.now.table.shared.key walk.seat }
        requires at { walk.at ≡ SlowB }
        ensures at { result.at ≡ Scan 1 }
        ensures steps { result.steps ≡ one_more walk.steps }
        ensures access { accesses_of result.seat ≡ accesses_of walk.seat + 1 }
        ensures ticket { ticket_of result.number result.seat ≡ ticket_of walk.number walk.seat }
    {
        let flag = walk.number as usize + 1;
        self.table.shared.store::<Stores>(&mut walk.seat, flag, 0);
        walk.at = At::Scan(1);
        walk.steps = one_more(walk.steps);
        walk
    }

    // load b[j]: the next flag if it is down, else again
    fn scan(&self, mut walk: Walk<S>, j: u32) -> Walk<S>
        requires lock { IsSeatOf S.fixed self.now.table.shared.table_id
            self.now.table.shared.key walk.seat }
        requires at { walk.at ≡ Scan j }
        ensures at { IsLine self.now.count (Scan j) result.at }
        ensures steps { result.steps ≡ one_more walk.steps }
        ensures access { accesses_of result.seat ≡ accesses_of walk.seat + 1 }
        ensures ticket { ticket_of result.number result.seat ≡ ticket_of walk.number walk.seat }
    {
        let flag = j as usize + 1;
        let found = self.table.shared.load::<Loads>(&mut walk.seat, flag);
        walk.at = if found == 1 {
            At::Scan(j)
        } else if j == self.count {
            At::SlowY
        } else {
            At::Scan(j + 1)
        };
        walk.steps = one_more(walk.steps);
        walk
    }

    // load y after the scan: acquired if it is i, else wait
    fn slow_y(&self, mut walk: Walk<S>) -> Walk<S>
        requires lock { IsSeatOf S.fixed self.now.table.shared.table_id
            self.now.table.shared.key walk.seat }
        requires at { walk.at ≡ SlowY }
        ensures at { (result.at ≡ Slow) ⊎ (result.at ≡ SlowAwait) }
        ensures steps { result.steps ≡ one_more walk.steps }
        ensures access { accesses_of result.seat ≡ accesses_of walk.seat + 1 }
        ensures ticket { ticket_of result.number result.seat ≡ ticket_of walk.number walk.seat }
    {
        let number = walk.number as u64;
        let found = self.table.shared.load::<Tests<S>>(&mut walk.seat, Y);
        walk.steps = one_more(walk.steps);
        if found == number {
            let state = take_out(&self.table.shared, &mut walk.seat);
            walk.at = At::Slow;
            let before = walk.state.replace(state);
            let None = before else { unreachable!() };
        } else {
            walk.at = At::SlowAwait;
        }
        walk
    }

    // load y after the scan: start again if it is 0, else wait
    fn slow_await(&self, mut walk: Walk<S>) -> Walk<S>
        requires lock { IsSeatOf S.fixed self.now.table.shared.table_id
            self.now.table.shared.key walk.seat }
        requires at { walk.at ≡ SlowAwait }
        ensures at { (result.at ≡ Start) ⊎ (result.at ≡ SlowAwait) }
        ensures steps { result.steps ≡ one_more walk.steps }
        ensures access { accesses_of result.seat ≡ accesses_of walk.seat + 1 }
        ensures ticket { ticket_of result.number result.seat ≡ ticket_of walk.number walk.seat }
    {
        let found = self.table.shared.load::<Loads>(&mut walk.seat, Y);
        walk.at = if found == 0 { At::Start } else { At::SlowAwait };
        walk.steps = one_more(walk.steps);
        walk
    }
}

// An acquisition step by step.
impl<S: Logged> FastMutex<S> {
    /// An acquisition that has not begun: it is at `At::Rest`, and no word has been accessed.
    #[inline(always)]
    pub fn begin(&self, seat: FastSeat<S>) -> Walk<S>
        requires { IsSeatOf S.fixed self.now.table.shared.table_id
            self.now.table.shared.key seat.seat }
        ensures at { result.at ≡ Rest }
        ensures steps { result.steps ≡ 0 }
        ensures untouched { accesses_of result.seat ≡ accesses_of seat.seat }
        ensures ticket { ticket_of result.number result.seat ≡ ticket_of seat.number seat.seat }
    {
        let LockSeat {
            number,
            answered: _,
            seat,
        } = seat;
        Walk {
            number,
            at: At::Rest,
            steps: 0,
            state: None,
            seat,
        }
    }

    /// The point of the acquisition, which says what its next step does.
    #[inline(always)]
    pub fn at(walk: &Walk<S>) -> At
        ensures { result ≡ walk.now.at }
    {
        let Walk { at, .. } = walk;
        *at
    }

    /// The next atomic step: one line of the algorithm, one load or store of one word.
    #[inline(always)]
    pub fn step(&self, walk: Walk<S>) -> Walk<S>
        requires lock { IsSeatOf S.fixed self.now.table.shared.table_id
            self.now.table.shared.key walk.seat }
        requires outside { is_inside walk.at ≡ false }
        ensures line { IsLine self.now.count walk.at result.at }
        ensures steps { result.steps ≡ pass_steps walk.at walk.steps }
        ensures access { accesses_of result.seat ≡ accesses_of walk.seat + 1 }
        ensures ticket { ticket_of result.number result.seat ≡ ticket_of walk.number walk.seat }
    {
        match walk.at {
            At::Rest | At::Start => self.raise_b(walk),
            At::SetX => self.set_x(walk),
            At::TestY => self.test_y(walk),
            At::BackB => self.back_b(walk),
            At::AwaitY => self.await_y(walk),
            At::SetY => self.set_y(walk),
            At::TestX => self.test_x(walk),
            At::SlowB => self.slow_b(walk),
            At::Scan(j) => self.scan(walk, j),
            At::SlowY => self.slow_y(walk),
            At::SlowAwait => self.slow_await(walk),
            At::Fast | At::Slow | At::Leaving => unreachable!(),
        }
    }

    /// The guard and the state, once the lock is acquired.
    #[inline(always)]
    pub fn admitted(walk: Walk<S>) -> (FastInside<S>, S)
        requires inside { is_inside walk.at ≡ true }
        ensures stay { stay_of result.0.number result.0.seat ≡
            record (ticket_of walk.number walk.seat) { left = S.items result.1 } }
        ensures fixed { S.fixed result.1 ≡ (ticket_of walk.number walk.seat).lock.fixed }
        ensures grows { Grows S.author walk.number (ticket_of walk.number walk.seat).left
            (S.items result.1) [] }
        ensures told { (ticket_of walk.number walk.seat).told ≡ true →
            S.is_answered walk.number (S.items result.1) ≡ true }
        ensures number { (1 ≤ walk.number) ×
            (walk.number ≤ (ticket_of walk.number walk.seat).lock.count) }
        ensures steps { (result.0.at ≡ walk.at) × (result.0.steps ≡ walk.steps) }
        ensures untouched { accesses_of result.0.seat ≡ accesses_of walk.seat }
    {
        let Walk {
            number,
            at,
            steps,
            state,
            seat,
        } = walk;
        let Some(state) = state else { unreachable!() };
        let answers = state.answers();
        (
            FastInside {
                number,
                at,
                steps,
                answers,
                seat,
            },
            state,
        )
    }
}

// The words s.
impl<S: Logged> FastMutex<S> {
    // s[process] := 1 if the list to be given back answers its wait, else 0
    fn set_mark(&self, mut seat: TableSeat<S>, process: u32, mark: u64) -> TableSeat<S>
        requires lock { IsSeatOf S.fixed self.now.table.shared.table_id
            self.now.table.shared.key seat }
        requires ready { IsReady S.items S.fixed S.author S.is_answered seat.me }
        requires process { (1 ≤ process) × (process ≤ self.now.count) }
        requires mark { mark ≡ flag (S.is_answered process (list_in S.items seat.me.1)) }
        ensures own { (result.table_id ≡ seat.table_id) × (result.id ≡ seat.id) }
        ensures view { result.me ≡ (
          view_marked process
              (list_in S.items seat.me.1) seat.me.0,
          seat.me.1,
        ) }
    {
        let word = self.count as usize + 1 + process as usize;
        self.table.shared.store::<Marks<S>>(&mut seat, word, mark);
        seat
    }

    // Stores the word s of each process whose answer differs between `before` and `after` the
    // critical section.
    fn set_marks(&self, mut seat: TableSeat<S>, before: u32, after: u32) -> TableSeat<S>
        requires lock { IsSeatOf S.fixed self.now.table.shared.table_id
            self.now.table.shared.key seat }
        requires ready { IsReady S.items S.fixed S.author S.is_answered seat.me }
        requires before { before ≡ answer_bits (λ p. S.is_answered p seat.me.0.found) 1 32 }
        requires after { after ≡ answer_bits (λ p.
            S.is_answered p (list_in S.items seat.me.1)) 1 32 }
        ensures own { (result.table_id ≡ seat.table_id) × (result.id ≡ seat.id) }
        ensures view { result.me ≡ (
          view_planned result.me.0.plan result.me.0.accesses seat.me.0,
          seat.me.1,
        ) }
        ensures ready { IsReady S.items S.fixed S.author S.is_answered result.me }
        ensures shows { Shows S.is_answered seat.me.0.fixed.0 seat.me.0.found result.me.0.plan
            (list_in S.items seat.me.1) }
        ensures few { accesses_of result ≤ accesses_of seat + self.now.count }
    {
        let mut old = before;
        let mut new = after;
        let mut process = 1;
        while old != new && process <= self.count {
            if old % 2 != new % 2 {
                seat = self.set_mark(seat, process, (new % 2) as u64);
            }
            old /= 2;
            new /= 2;
            process += 1;
        }
        seat
    }

    // Loads s[i], outside the critical section.
    pub(crate) fn look(&self, seat: &mut FastSeat<S>) -> bool
        requires { IsSeatOf S.fixed self.now.table.shared.table_id self.now.table.shared.key
            seat.old.seat }
        ensures ticket { ticket_of seat.new.number seat.new.seat ≡
            record (ticket_of seat.old.number seat.old.seat) {
              told = (ticket_of seat.old.number seat.old.seat).told || result;
            } }
        ensures again { (ticket_of seat.old.number seat.old.seat).told ≡ true → result ≡ true }
        ensures left { S.is_answered seat.old.number
            (ticket_of seat.old.number seat.old.seat).left ≡ true → result ≡ true }
        ensures access { accesses_of seat.new.seat ≡ accesses_of seat.old.seat + 1 }
    {
        let word = self.count as usize + 1 + seat.number as usize;
        let found = self.table.shared.load::<Looks<S>>(&mut seat.seat, word);
        found == 1
    }
}

// The futex words. They are not words of the table, and no step of the algorithm accesses them.
impl<S: Logged> FastMutex<S> {
    pub(crate) fn futex_words(&self) -> &FutexWords {
        &self.futex_words
    }

    // An acquisition waits at y, or at the flag that its scan has reached.
    pub(crate) fn futex_word_of(walk: &Walk<S>) -> u32 {
        match walk.at {
            At::Scan(j) => FutexWords::of_flag(j),
            _ => FutexWords::of_y(),
        }
    }

    // The futex word of the process's own flag, which it lowers before it waits.
    pub(crate) fn own_futex_word_of(walk: &Walk<S>) -> u32 {
        FutexWords::of_flag(walk.number)
    }
}

// The bodies of the calls of `Lock` for `FastMutex` (`fast_lock.rt`).
impl<S: Logged> FastMutex<S> {
    // Stores the words s that change, then y := 0, then b[i] := false.
    #[inline(always)]
    pub(crate) fn depart(&self, inside: FastInside<S>, state: S) -> FastSeat<S>
        requires lock { IsSeatOf S.fixed self.now.table.shared.table_id self.now.table.shared.key
            inside.seat }
        requires fixed { S.fixed state ≡ S.fixed self.now.table.shared.key.state.value }
        requires grows { GrowsBy S.author inside.number inside.seat.me.0.found (S.items state) }
        ensures ticket { ticket_of result.number result.seat ≡
            record (stay_of inside.number inside.seat) { left = S.items state; told = false } }
        ensures few { accesses_of result.seat ≤ accesses_of inside.seat + self.now.count + 2 }
    {
        let FastInside {
            number,
            at: _,
            steps: _,
            answers,
            mut seat,
        } = inside;
        let after = state.answers();
        put_in(&self.table.shared, &mut seat, state);
        let mut seat = self.set_marks(seat, answers, after);
        self.table.shared.store::<Leaves<S>>(&mut seat, Y, 0);
        let flag = number as usize + 1;
        self.table.shared.store::<Stores>(&mut seat, flag, 0);
        LockSeat {
            number,
            answered: after & !answers,
            seat,
        }
    }

    pub(crate) fn at_of(inside: &FastInside<S>) -> At
        ensures at { result ≡ inside.now.at }
        ensures inside { is_inside result ≡ true }
    {
        inside.at
    }

    pub(crate) fn steps_of(inside: &FastInside<S>) -> u64
        ensures steps { result ≡ inside.now.steps }
        ensures fast { inside.now.at ≡ Fast → result ≡ 5 }
        ensures slow { inside.now.at ≡ Slow →
            (stay_of inside.now.number inside.now.seat).lock.count + 7 ≤ result }
    {
        inside.steps
    }

    #[inline(always)]
    pub(crate) fn number_of(seat: &FastSeat<S>) -> u32
        ensures { result ≡ seat.now.number }
    {
        seat.number
    }

    // The words of a new lock. All are 0 except the words s of the processes whose waits the
    // state's list answers.
    fn first_words(count: u32, state: &S) -> [u64; 66]
        requires { (1 ≤ count) × (count ≤ 32) }
        ensures low { (i : ℕ) → i < count + 2 → slice_index result i ≡ 0 }
        ensures marks { (p : ℕ) → 1 ≤ p → p ≤ count → slice_index result (count + 1 + p) ≡
            flag (S.is_answered p (S.items state.now)) }
    {
        let mut words = [0; 66];
        for process in 1..count + 1 {
            let word = (count + 1 + process) as usize;
            words[word] = if state.answered(process) { 1 } else { 0 };
        }
        words
    }

    // A lock with the state in its slot, and the one seat at its table, which stands for all
    // processes.
    fn furnish(
        alloc: Global,
        count: u32,
        futex_words: FutexWords,
        state: S,
    ) -> Result<(FastMutex<S>, TableSeat<S>), (S, AllocError)>
        requires { (1 ≤ count) × (count ≤ 32) }
        ensures items { IfOk result (λ r.
            S.items r.0.table.shared.key.state.value ≡ S.items state) }
        ensures made { IfOk result (λ r. made_with S.fixed r.0.table.shared.key ≡
            (count, S.fixed state)) }
        ensures first { IfOk result (λ r. (r.1.table_id ≡ r.0.table.shared.table_id) ×
            (r.1.me ≡ (first_view resting S.items S.fixed r.0.table.shared.key, []))) }
        ensures back { IfErr result (λ r. r.0 ≡ state) }
    {
        let about = About {
            count,
            state: Snapshot::of(&state),
        };
        let words = FastMutex::first_words(count, &state);
        let (table, first) = furnish(alloc, &words[..2 * count as usize + 2], &about, state)?;
        Ok((
            FastMutex {
                table,
                count,
                futex_words,
            },
            first,
        ))
    }

    #[tactic(auto, using(crate::proofs::FastKeeps::fast_deals))]
    pub(crate) fn make(
        alloc: Global,
        n: u32,
        state: S,
    ) -> Result<(FastMutex<S>, Vec<FastSeat<S>>), (S, AllocError)>
        requires { (1 ≤ n) × (n ≤ 32) }
        ensures lock { IfOk result (λ r. made_with S.fixed r.0.table.shared.key ≡
            (n, S.fixed state)) }
        ensures seats { IfOk result (λ r. map (λ s. ticket_of s.number s.seat) r.1.items ≡
            tickets_with (lock_id r.0.table.shared.table_id
            (made_with S.fixed r.0.table.shared.key)) (S.items state) 1 n) }
        ensures back { IfErr result (λ r. r.0 ≡ state) }
    {
        let seats = match Vec::with_capacity(alloc, n as usize) {
            Ok(seats) => seats,
            Err(failed) => return Err((state, failed)),
        };
        let futex_words = match FutexWords::new(alloc) {
            Ok(futex_words) => futex_words,
            Err(failed) => {
                seats.destroy_empty();
                return Err((state, failed));
            }
        };
        match FastMutex::furnish(alloc, n, futex_words, state) {
            Ok((lock, first)) => {
                let seats = deal(&lock.table.shared, n, first, seats);
                Ok((lock, seats))
            }
            Err(refused) => {
                seats.destroy_empty();
                Err(refused)
            }
        }
    }

    #[tactic(auto, using(crate::proofs::FastKeeps::fast_deals))]
    pub(crate) fn gather(
        self,
        seats: Vec<FastSeat<S>>,
    ) -> Result<S, Missing<FastMutex<S>, FastSeat<S>>>
        requires own { All (λ s. IsSeatOf S.fixed self.table.shared.table_id self.table.shared.key
            s.seat) seats.items }
        ensures all { (self.table.shared.key.count ≤ length seats.items) ↔ IsOk result }
        ensures fixed { IfOk result (λ s. S.fixed s ≡ S.fixed self.table.shared.key.state.value) }
        ensures grows { IfOk result (λ s.
            All (λ t. Grows S.author t.number (last_left t.seat.me.0.claims)
            (S.items s) []) seats.items) }
        ensures back { IfErr result (λ m. (m.whole ≡ self) × (m.parts ≡ seats)) }
    {
        if seats.len() < self.count as usize {
            return Err(Missing {
                whole: self,
                parts: seats,
            });
        }
        let FastMutex {
            table,
            count: _,
            futex_words: _,
        } = self;
        Ok(close(table, seats))
    }
}
