//! Threads over each lock, each with many critical sections of one process.
ghost use Rattle.std.specs.Prelude.{◌≡◌, ◌≤◌, ◌∷◌, []};
ghost use Rattle.fast_mutex.specs.Word.{ticket_of, lock_id, made_with};
ghost use Rattle.fast_mutex.specs.Fast.{IsSeatOf};

use super::{Notes, add_many, no_notes};
use fast_mutex::{FastMutex, FastSeat, Lock, WordLock, WordSeat};
use std::alloc::Global;
use std::io::Print;
use std::process::Abort;
use std::sync::Wait;
use std::thread::{Threads, map_vec};

const STAYS: u32 = 1000;

/// The notes of this number of threads over the lock of one word.
fn over_word_lock<R: Wait + Threads + Print + Abort + Sync>(
    rt: &R,
    alloc: Global,
    threads: u32,
) -> Notes
    requires { (1 ≤ threads) × (threads ≤ 32) }
{
    let notes = no_notes(rt, alloc, 7, threads as usize * STAYS as usize).expect(rt, "memory");
    let Ok((lock, seats)) = WordLock::new(alloc, threads, notes) else {
        panic!(rt; "memory")
    };
    let seats = map_vec(
        rt,
        seats,
        &|seat: WordSeat<Notes>| -> WordSeat<Notes>
            requires { (ticket_of seat.number seat.seat).lock ≡ lock_id lock.table.shared.table_id
                (made_with (λ s. s.title ∷ []) lock.table.shared.key) }
            ensures { (ticket_of result.number result.seat).lock ≡
                lock_id lock.table.shared.table_id (made_with (λ s. s.title ∷
                []) lock.table.shared.key) }
        { add_many(rt, &lock, seat, STAYS) },
    )
    .ok()
    .expect(rt, "memory");
    lock.finish(seats).ok().expect(rt, "all seats")
}

/// The notes of this number of threads over Lamport's lock.
fn over_fast_mutex<R: Wait + Threads + Print + Abort + Sync>(
    rt: &R,
    alloc: Global,
    threads: u32,
) -> Notes
    requires { (1 ≤ threads) × (threads ≤ 32) }
{
    let notes = no_notes(rt, alloc, 7, threads as usize * STAYS as usize).expect(rt, "memory");
    let Ok((lock, seats)) = FastMutex::new(alloc, threads, notes) else {
        panic!(rt; "memory")
    };
    let seats = map_vec(
        rt,
        seats,
        &|seat: FastSeat<Notes>| -> FastSeat<Notes>
            requires { IsSeatOf (λ s. s.title ∷
                []) lock.table.shared.table_id lock.table.shared.key seat.seat }
            ensures { IsSeatOf (λ s. s.title ∷
                []) lock.table.shared.table_id lock.table.shared.key result.seat }
        { add_many(rt, &lock, seat, STAYS) },
    )
    .ok()
    .expect(rt, "memory");
    lock.finish(seats).ok().expect(rt, "all seats")
}

// The notes of each process are all there, in its order.
fn expect_all<A: Abort>(rt: &A, notes: &Notes, threads: u32)
    requires { threads ≤ 32 }
{
    let mut next = [0u32; 33];
    for (process, value) in &notes.items {
        let place = (*process).min(32) as usize;
        assert_eq!(rt; *value, next[place], "of process {process}");
        next[place] = next[place].saturating_add(1);
    }
    for process in 1..=threads {
        assert_eq!(rt; next[process as usize], STAYS, "of process {process}");
    }
}

#[test]
fn threads_lose_no_note_of_a_word_lock(rt: HostRuntime) {
    for threads in [2, 8] {
        let notes = over_word_lock(&rt, rt.alloc(), threads);
        expect_all(&rt, &notes, threads);
    }
}

#[test]
fn threads_lose_no_note_of_lamports_lock(rt: HostRuntime) {
    for threads in [2, 8] {
        let notes = over_fast_mutex(&rt, rt.alloc(), threads);
        expect_all(&rt, &notes, threads);
    }
}
