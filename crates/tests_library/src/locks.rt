//! Each lock over a state with a list, by functions that are generic over the lock.
ghost use Rattle.std.specs.Prelude.{◌≡◌, ◌≤◌, [], ◌∷◌, false, refl, map, IfOk, IfSome, MatchResult};
ghost use Rattle.fast_mutex.specs.Items.{Grows, tickets_from};

use crate::refusals::{refuse_all, say_refused};
use crate::same::same;
use fast_mutex::{Enter, FastMutex, Lock, Logged, Path, WordLock};
use std::alloc::{AllocError, Global};
use std::io::Print;
use std::process::Abort;
use std::sync::Wait;

mod threads;
mod walks;

/// Notes with a title. Each note is the number of its process with a value, and the latest is last
/// in the vector.
#[derive(Drop)]
pub struct Notes {
    title: u32,
    items: Vec<(u32, u32)>,
}

impl Logged for Notes {
    type Item = (u32, u32);

    ghost use Rattle.std.specs.Prelude.{reverse};

    ghost items = { λ s. reverse s.items.items };

    ghost fixed = { λ s. s.title ∷ [] };

    ghost author = { λ x. x.0 };

    ghost is_answered = { λ p xs. false };

    fn answered(&self, _process: u32) -> bool {
        false
    }

    #[tactic(auto, unfolding(fast_mutex::specs::Marks::answer_bits))]
    fn answers(&self) -> u32 {
        0
    }

    ghost nobody = { λ p. refl };

    ghost stays = { λ p more before others h. h };
}

// One allocation may be made to fail from outside.
fn no_notes<R: Print>(rt: &R, alloc: Global, title: u32, room: usize) -> Result<Notes, AllocError>
    ensures { IfOk result (λ s. s.items.items ≡ []) }
{
    let items = match Vec::with_capacity(alloc, room) {
        Ok(items) => items,
        Err(_) => {
            say_refused(rt, "room for notes");
            Vec::with_capacity(alloc, room)?
        }
    };
    Ok(Notes { title, items })
}

/// What a process saw in one critical section: the latest note, its path and its steps.
type Stay = (Option<(u32, u32)>, Path, u64);

/// One critical section, which adds a note.
fn add<L: Lock<Notes>, R: Wait>(
    rt: &R,
    lock: &L,
    seat: L::Seat,
    value: u32,
) -> (L::Seat, Result<Stay, AllocError>)
    requires { (L.ticket seat).lock ≡ L.id lock.now }
    ensures seat { ((L.ticket result.0).lock ≡ L.id lock.now) ×
        ((L.ticket result.0).number ≡ (L.ticket seat).number) }
    ensures added { MatchResult result.1 (λ n.
        Grows (λ x. x.0) (L.ticket seat).number (L.ticket seat).left (L.ticket result.0).left
        (((L.ticket seat).number, value) ∷ [])) (λ _.
        Grows (λ x. x.0) (L.ticket seat).number (L.ticket seat).left (L.ticket result.0).left []) }
{
    let number = L::number(&seat);
    let (inside, mut notes) = lock.enter(rt, seat);
    let latest = notes.items.last().copied();
    let stay = (latest, L::path(&inside), L::steps(&inside));
    match notes.items.push((number, value)) {
        Ok(()) => (lock.leave(inside, notes), Ok(stay)),
        Err(_) => (lock.leave(inside, notes), Err(AllocError)),
    }
}

/// A lock for n processes. One allocation may be made to fail from outside. Then the state comes
/// back unchanged, and `new` is tried again.
fn lock_for<L: Lock<Notes>, R: Print>(
    rt: &R,
    alloc: Global,
    n: u32,
    notes: Notes,
) -> Option<(L, Vec<L::Seat>)>
    requires count { (1 ≤ n) × (n ≤ 32) }
    requires empty { notes.items.items ≡ [] }
    ensures { IfSome result (λ r. map L.ticket r.1.items ≡ tickets_from (L.id r.0) 1 n) }
{
    let (title, room) = (notes.title, notes.items.capacity());
    match L::new(alloc, n, notes) {
        Ok(made) => Some(made),
        Err((notes, _)) => {
            if (notes.title, notes.items.capacity()) == (title, room) {
                say_refused(rt, "the making");
            }
            L::new(alloc, n, notes).ok()
        }
    }
}

// Process 1 adds 10, and process 2 adds 20, each by this path and in this number of steps. With
// both seats, `finish` returns the notes of both.
fn expect_turns<L: Lock<Notes>, R: Wait + Print + Abort>(
    rt: &R,
    alloc: Global,
    path: Path,
    steps: u64,
) {
    let notes = no_notes(rt, alloc, 7, 2).expect(rt, "memory");
    let (lock, mut seats) = lock_for::<L, R>(rt, alloc, 2, notes).expect(rt, "memory");
    refuse_all(rt, alloc);
    let two = seats.pop().expect(rt, "two seats");
    let one = seats.pop().expect(rt, "two seats");
    let (one, first) = add(rt, &lock, one, 10);
    let (two, second) = add(rt, &lock, two, 20);
    same(rt, first.ok(), Some((None, path, steps)), "the first note");
    same(
        rt,
        second.ok(),
        Some((Some((1, 10)), path, steps)),
        "the second note",
    );
    seats.push(one).ok().expect(rt, "room for two seats");
    seats.push(two).ok().expect(rt, "room for two seats");
    let notes = lock.finish(seats).ok().expect(rt, "all seats");
    same(rt, notes.title, 7, "the title");
    assert_eq!(rt; notes.items.as_slice(), [(1, 10), (2, 20)].as_slice());
}

#[test]
fn a_word_lock_hands_its_state_over_in_turn(rt: HostRuntime) {
    expect_turns::<WordLock<Notes>, _>(&rt, rt.alloc(), Path::Fast, 1);
}

/// This number of critical sections of one process, which adds the values from 0 on.
fn add_many<L: Lock<Notes>, R: Wait>(rt: &R, lock: &L, seat: L::Seat, stays: u32) -> L::Seat
    requires { (L.ticket seat).lock ≡ L.id lock.now }
    ensures { (L.ticket result).lock ≡ L.id lock.now }
{
    let mut seat = seat;
    for value in 0..stays {
        let (next, _) = add(rt, lock, seat, value);
        seat = next;
    }
    seat
}

// A lock for each number of processes, with as many seats.
fn expect_made<L: Lock<Notes>, R: Print + Abort>(rt: &R, alloc: Global) {
    for n in 1..=32 {
        let notes = no_notes(rt, alloc, 7, 0).expect(rt, "memory");
        let (_lock, seats) = lock_for::<L, R>(rt, alloc, n, notes).expect(rt, "memory");
        same(rt, seats.len(), n as usize, "the seats");
    }
}

#[test]
fn locks_are_made_for_1_to_32_processes(rt: HostRuntime) {
    expect_made::<WordLock<Notes>, _>(&rt, rt.alloc());
    expect_made::<FastMutex<Notes>, _>(&rt, rt.alloc());
}
