//! Progress of Lamport's Algorithm 2, as the pure machine of `lamport_core`: it is free of deadlock
//! and of livelock, for every number of processes and every schedule, while a single process may
//! starve.
//!
//! A process *waits* if its next step leaves the world unchanged. In a *fair round* each process
//! that neither rests nor waits when the round begins takes a step. `deadlock_freedom`,
//! `fair_rounds` and `starvation` do nothing: their clauses are the theorems. There is no guarantee
//! that a thread is scheduled.
#![tactic(auto)]

ghost use Rattle.std.specs.Prelude.{◌≡◌, ◌≢◌, ℕ, ◌-◌, ◌<◌, ◌≤◌, List, length, replicate, IfOk, true, false};
ghost use Rattle.std.specs.List.{concat};
ghost use Rattle.lamport_core.specs.State.{State, Reach, IsProcess, IsSchedule, point_of, run, start};
ghost use Rattle.lamport_core.specs.Safe.{IsSafe};
ghost use Rattle.lamport_core.specs.Machine.{count};
ghost use Rattle.lamport_core.specs.declared.At.TheVariants.{Rest};
ghost use Rattle.lamport_progress.specs.Progress.{LeadsInside, NeverWaits, EnabledProcess, IsEntering, AreFairRounds, IsWayInside, Enters, CanEnter, Starves, Delays, round_robin, IsOccupied, IsEnabled, IsOwned, IsLeader, work_bound, round_bound};

use lamport_core::{At, World};
use std::alloc::{AllocError, Global};

/// No reachable world is a dead end: unless all processes are at rest, one that is not can change
/// the world. Under any schedule with more than `work_bound` steps that change the world, some
/// process enters its critical section. So from each reachable world some steps take a process into
/// its critical section, and for each process some steps take that one there.
pub fn deadlock_freedom()
    ensures no_dead_end { (n : ℕ) (w : State) (i : ℕ) → Reach n w → point_of w i ≢ Rest →
        EnabledProcess w }
    ensures no_livelock { (n : ℕ) (w : State) (schedule : List ℕ) → Reach n w →
        IsSchedule n schedule → NeverWaits w schedule → work_bound n < length schedule →
        LeadsInside w schedule }
    ensures way_inside { (n : ℕ) (w : State) → 0 < n → Reach n w →
        (steps : List ℕ) × IsWayInside n w steps }
    ensures nobody_is_locked_out { (n : ℕ) (w : State) (i : ℕ) → Reach n w → IsProcess n i →
        CanEnter n w i }
{}

/// If some process is in its entry, some process enters its critical section within `round_bound`
/// fair rounds, whatever other processes do, even if one is inside at first. A round robin is a
/// fair round. For two processes the bound is exact.
pub fn fair_rounds()
    ensures enters { (n : ℕ) (w : State) (i : ℕ) (rounds : List (List ℕ)) → Reach n w →
        IsEntering (point_of w i) → AreFairRounds n w rounds → round_bound n ≤ length rounds →
        Enters w (concat rounds) }
    ensures round_robin { (n : ℕ) (w : State) (i : ℕ) → Reach n w → IsEntering (point_of w i) →
        Enters w (concat (replicate (round_bound n) (round_robin n))) }
    ensures exact_for_two { Delays 2 (round_bound 2 - 1) }
{}

/// There is no such bound for a single process: for every k, process 1 of two can stay out for k
/// fair rounds, in each of which process 2 enters and leaves its critical section.
pub fn starvation()
    ensures { (k : ℕ) → Starves 2 1 k }
{}

/// Steps that take some process into its critical section after this schedule of n processes. Fails
/// if memory was refused.
pub fn way_inside(alloc: Global, n: u32, schedule: &[u32]) -> Result<Vec<u32>, AllocError>
    requires some { 1 ≤ n }
    requires processes { IsSchedule n schedule.now }
    ensures { IfOk result (λ steps. IsWayInside n (run (start n) schedule.now) steps.items) }
{
    let mut world = World::new(alloc, n)?;
    world.run(schedule);
    let mut steps = Vec::new(alloc);
    'way: while !is_occupied(&world) {
        let i = find_enabled(&world);
        world.step(i);
        steps.push(i)?;
    }
    Ok(steps)
}

// Whether some process is in its critical section.
fn is_occupied(world: &World) -> bool
    ensures yes { result ≡ true → IsOccupied world.now.state }
    ensures no { result ≡ false → ¬ IsOccupied world.now.state }
{
    match world.inside() {
        Some(_) => true,
        None => false,
    }
}

// The process whose number is in y, or any process while y is 0.
fn find_leader(world: &World) -> u32
    requires some { 0 < count world.now }
    requires safe { IsSafe world.now.state }
    requires owned { IsOwned world.now.state }
    ensures { IsLeader world.now.state result }
{
    let y = world.y();
    if y == 0 { 1 } else { y }
}

// A process whose next step changes the world: the leader, or the process whose flag it waits for.
fn find_enabled(world: &World) -> u32
    requires some { 0 < count world.now }
    requires safe { IsSafe world.now.state }
    requires owned { IsOwned world.now.state }
    ensures process { IsProcess (count world.now) result }
    ensures enabled { IsEnabled world.now.state result }
{
    let leader = find_leader(world);
    match world.at(leader) {
        At::Scan(j) => { if world.b(j) { j } else { leader } }
        _ => leader,
    }
}
