//! Lamport's lock in one thread: two processes take turns, and their acquisitions proceed step by
//! step in a fixed order.
ghost use Rattle.std.specs.Prelude.{◌≡◌, ◌∷◌, [], map};
ghost use Rattle.fast_mutex.specs.Fast.{ticket_of, IsSeatOf};
ghost use Rattle.fast_mutex.specs.Items.{tickets_from};
ghost use Rattle.fast_mutex.specs.Word.{lock_id, made_with};

use super::{Notes, expect_turns, lock_for, no_notes};
use crate::refusals::refuse_all;
use crate::same::same;
use fast_mutex::{FastMutex, FastSeat, Lock, Path, Walk};
use lamport_core::At;
use std::alloc::Global;
use std::io::Print;
use std::process::Abort;

// One step of an acquisition, which does not have the lock yet.
fn step<A: Abort>(rt: &A, lock: &FastMutex<Notes>, walk: Walk<Notes>) -> Walk<Notes>
    requires { IsSeatOf (λ s. s.title ∷
        []) lock.now.table.shared.table_id lock.now.table.shared.key walk.seat }
    ensures { ticket_of result.number result.seat ≡ ticket_of walk.number walk.seat }
{
    match FastMutex::at(&walk) {
        At::Fast | At::Slow => panic!(rt; "the entry is inside"),
        _ => {}
    }
    lock.step(walk)
}

// A step of process 1 or 2 for each number in the schedule, in its order.
fn by_schedule<A: Abort>(
    rt: &A,
    lock: &FastMutex<Notes>,
    one: Walk<Notes>,
    two: Walk<Notes>,
    schedule: &[u32],
) -> (Walk<Notes>, Walk<Notes>)
    requires one { IsSeatOf (λ s. s.title ∷
        []) lock.now.table.shared.table_id lock.now.table.shared.key one.seat }
    requires two { IsSeatOf (λ s. s.title ∷
        []) lock.now.table.shared.table_id lock.now.table.shared.key two.seat }
    ensures one { ticket_of result.0.number result.0.seat ≡ ticket_of one.number one.seat }
    ensures two { ticket_of result.1.number result.1.seat ≡ ticket_of two.number two.seat }
{
    let mut one = one;
    let mut two = two;
    for i in schedule {
        if *i == 1 {
            one = step(rt, lock, one);
        } else {
            two = step(rt, lock, two);
        }
    }
    (one, two)
}

// The critical section of an acquisition that has the lock, by this path and after this number of
// steps, and the begin of the next acquisition.
fn again<A: Abort>(
    rt: &A,
    lock: &FastMutex<Notes>,
    walk: Walk<Notes>,
    wanted: (Path, u64),
) -> Walk<Notes>
    requires { IsSeatOf (λ s. s.title ∷
        []) lock.now.table.shared.table_id lock.now.table.shared.key walk.seat }
    ensures { IsSeatOf (λ s. s.title ∷
        []) lock.now.table.shared.table_id lock.now.table.shared.key result.seat }
{
    match FastMutex::at(&walk) {
        At::Fast | At::Slow => {}
        _ => panic!(rt; "the entry is not inside"),
    }
    let (inside, notes) = FastMutex::admitted(walk);
    let path = <FastMutex<Notes> as Lock<Notes>>::path(&inside);
    let steps = <FastMutex<Notes> as Lock<Notes>>::steps(&inside);
    same(rt, (path, steps), wanted, "the path and the steps");
    lock.begin(lock.leave(inside, notes))
}

// Steps by a schedule, and the points that they lead to. Then the critical section of one process,
// if any, by a path and after a number of steps.
struct Phase {
    schedule: &'static [u32],
    points: (At, At),
    stay: Option<(u32, Path, u64)>,
}

// Two acquisitions that have not begun.
fn begin_two<A: Abort>(
    rt: &A,
    lock: &FastMutex<Notes>,
    mut seats: Vec<FastSeat<Notes>>,
) -> (Walk<Notes>, Walk<Notes>)
    requires { map (λ seat. ticket_of seat.number seat.seat) seats.items ≡
        tickets_from (lock_id lock.now.table.shared.table_id (made_with (λ s. s.title ∷
        []) lock.now.table.shared.key)) 1 2 }
    ensures one { IsSeatOf (λ s. s.title ∷
        []) lock.now.table.shared.table_id lock.now.table.shared.key result.0.seat }
    ensures two { IsSeatOf (λ s. s.title ∷
        []) lock.now.table.shared.table_id lock.now.table.shared.key result.1.seat }
{
    let two = seats.pop().expect(rt, "two seats");
    let one = seats.pop().expect(rt, "two seats");
    (lock.begin(one), lock.begin(two))
}

fn expect_phases<A: Abort + Print>(rt: &A, alloc: Global, phases: &'static [Phase]) {
    let notes = no_notes(rt, alloc, 7, 0).expect(rt, "memory");
    let (lock, seats) = lock_for::<FastMutex<Notes>, A>(rt, alloc, 2, notes).expect(rt, "memory");
    refuse_all(rt, alloc);
    let (mut one, mut two) = begin_two(rt, &lock, seats);
    for phase in phases {
        (one, two) = by_schedule(rt, &lock, one, two, phase.schedule);
        same(
            rt,
            (FastMutex::at(&one), FastMutex::at(&two)),
            phase.points,
            "the points",
        );
        match phase.stay {
            Some((1, path, steps)) => one = again(rt, &lock, one, (path, steps)),
            Some((_, path, steps)) => two = again(rt, &lock, two, (path, steps)),
            None => {}
        }
    }
}

static SLOW_FIRST: [Phase; 2] = [
    Phase {
        schedule: &[1, 1, 1, 2, 2, 1, 1, 2, 2, 1, 1, 1, 1],
        points: (At::Slow, At::AwaitY),
        stay: Some((1, Path::Slow, 9)),
    },
    Phase {
        schedule: &[2, 2, 2, 2, 2, 2],
        points: (At::Rest, At::Fast),
        stay: Some((2, Path::Fast, 5)),
    },
];

// Process 2 backs out at y and waits while process 1 acquires the lock by the slow path.
#[test]
fn slow_entry_goes_first_and_the_other_begins_again(rt: HostRuntime) {
    expect_phases(&rt, rt.alloc(), &SLOW_FIRST);
}

static SECOND_FIRST: [Phase; 3] = [
    Phase {
        schedule: &[1, 1, 1, 2, 2, 2],
        points: (At::SetY, At::SetY),
        stay: None,
    },
    Phase {
        schedule: &[1, 1, 2, 2, 1, 1, 1],
        points: (At::Scan(2), At::Fast),
        stay: Some((2, Path::Fast, 5)),
    },
    Phase {
        schedule: &[1, 1, 1, 1, 1, 1, 1, 1],
        points: (At::Fast, At::Rest),
        stay: Some((1, Path::Fast, 5)),
    },
];

// Both processes load y while it is 0. An exchange of y instead of that load would let process 1
// take y there, and make process 2 back out.
#[test]
fn both_pass_the_gate_and_the_second_goes_first(rt: HostRuntime) {
    expect_phases(&rt, rt.alloc(), &SECOND_FIRST);
}

#[test]
fn lamports_lock_hands_its_state_over_in_turn(rt: HostRuntime) {
    expect_turns::<FastMutex<Notes>, _>(&rt, rt.alloc(), Path::Fast, 5);
}
