//! Algorithm 2 of Leslie Lamport, "A Fast Mutual Exclusion Algorithm" (ACM Transactions on Computer
//! Systems 5(1), 1987), as a pure machine, for any number of processes and any schedule.
//!
//! A step is one load or one store of one shared word: x, y, or the flag b[i] of process i. `World`
//! runs the machine. `mutual_exclusion`, `lines` and `alone` are the theorems. The functions named
//! `*_laws` have, line by line, what a lock over real words needs. Progress is proved in
//! `lamport_progress`.
#![tactic(auto)]

ghost use Rattle.std.specs.Prelude.{◌≡◌, ℕ, ◌+◌, ◌-◌, ◌^◌, ◌<◌, ◌≤◌, ◌↔◌, List, length, IfOk, IfSome, IfNone, Some};
ghost use Rattle.lamport_core.specs.State.{IsProcess, IsSchedule, IsInside, IsInsidePoint, point_of, flag_of, of_process, with_process, step_from, run};
ghost use Rattle.lamport_core.specs.declared.At.TheVariants.{Rest};
ghost use Rattle.lamport_core.specs.declared.At.{At};
ghost use Rattle.lamport_core.specs.Line.{one_more};
ghost use Rattle.lamport_core.specs.Safe.{IsSafe, IsPoint};
ghost use Rattle.lamport_core.specs.Machine.{state_of, stepped, run_through, begun, count};

mod laws;
mod theorems;

pub use laws::{change_laws, inside_laws, line_laws};
use std::alloc::{AllocError, Global};
use std::marker::Model;
pub use theorems::{alone, lines, mutual_exclusion};

/// The point of a process, which says what its next step does. The comments give that step for
/// process i.
#[derive(Clone, Copy, Debug, PartialEq, Eq)]
pub enum At {
    /// Outside, with no acquisition begun: `b[i] := true`, the first step of an acquisition.
    Rest,
    /// Starting again, after y was found 0: `b[i] := true`.
    Start,
    /// `x := i`.
    SetX,
    /// Load y: go to `SetY` if it is 0, else to `BackB`.
    TestY,
    /// `b[i] := false`.
    BackB,
    /// Load y: go to `Start` if it is 0, else stay at `AwaitY`.
    AwaitY,
    /// `y := i`.
    SetY,
    /// Load x: go to `Fast`, in the critical section, if it is i, else to `SlowB`.
    TestX,
    /// `b[i] := false`, then scan all flags, starting with that of process 1.
    SlowB,
    /// Load the flag of this process: stay while it is up, else go to the next one, or to `SlowY`
    /// after the last.
    Scan(u32),
    /// Load y: go to `Slow`, in the critical section, if it is i, else to `SlowAwait`.
    SlowY,
    /// Load y: go to `Start` if it is 0, else stay at `SlowAwait`.
    SlowAwait,
    /// In the critical section by the fast path, with the flag up: `y := 0`.
    Fast,
    /// In the critical section by the slow path, with the flag down: `y := 0`.
    Slow,
    /// After the critical section: `b[i] := false`, then go to `Rest`.
    Leaving,
}

/// A world of n processes, numbered from 1 to n: the words x and y, a flag and a point for each
/// process, and the number of steps that each has taken. x and y hold process numbers, or 0. Each
/// world satisfies the invariant, so at most one process is in its critical section.
#[derive(Drop)]
pub struct World {
    x: u32,
    y: u32,
    flags: Vec<bool>,
    points: Vec<At>,
    steps: Vec<u64>,
}

impl Model for World {
    ghost use Rattle.lamport_core.specs.Machine.{Machine, IsSound, state_of};

    ghost Value = { Machine };

    ghost view = { λ a. record {
      state = state_of a.x a.y a.flags.items a.points.items;
      steps = a.steps.items;
    } };

    ghost invariant = { λ a. IsSound
        (record { state = state_of a.x a.y a.flags.items a.points.items; steps = a.steps.items }) };
}

impl World {
    /// The start: n processes at rest, x and y 0, all flags down, no step taken. Fails if memory
    /// was refused. No later call takes memory.
    pub fn new(alloc: Global, n: u32) -> Result<Self, AllocError>
        requires { 1 ≤ n }
        ensures begun { IfOk result (λ world. world ≡ begun n) }
        ensures count { IfOk result (λ world. count world ≡ n) }
    {
        Ok(World {
            x: 0,
            y: 0,
            flags: vec![in alloc; false; n as usize]?,
            points: vec![in alloc; At::Rest; n as usize]?,
            steps: vec![in alloc; 0; n as usize]?,
        })
    }

    /// The next atomic step of process i.
    pub fn step(&mut self, i: u32)
        requires { IsProcess (count self.old) i }
        ensures step { self.new ≡ stepped self.old i }
        ensures count { count self.new ≡ count self.old }
        ensures safe { IsSafe self.new.state }
    {
        let place = (i - 1) as usize;
        let point = self.points[place];
        let next = operate(i, point, &mut self.x, &mut self.y, &mut self.flags);
        self.points[place] = next;
        self.steps[place] = one_more(self.steps[place]);
    }

    /// One step for each number in the schedule, in its order.
    pub fn run(&mut self, schedule: &[u32])
        requires { IsSchedule (count self.old) schedule.now }
        ensures run { self.new ≡ run_through self.old schedule.now }
        ensures state { self.new.state ≡ run self.old.state schedule.now }
        ensures count { count self.new ≡ count self.old }
        ensures safe { IsSafe self.new.state }
    {
        for i in schedule {
            self.step(*i);
        }
        // Reading a field gives the proof the invariant of the world.
        let _ = &self.x;
    }

    /// The process in its critical section, at `At::Fast` or `At::Slow`.
    pub fn inside(&self) -> Option<u32>
        ensures found { (i : ℕ) → (result ≡ Some i) ↔ IsInside self.now.state i }
        ensures at_most_one { (i j : ℕ) → IsInside self.now.state i →
            IsInside self.now.state j → i ≡ j }
    {
        first_inside(&self.points)
    }

    /// The word x: the last process that stored its number there, or 0 before the first.
    pub fn x(&self) -> u32
        ensures { result ≡ self.now.state.x }
    {
        self.x
    }

    /// The word y: a process number, or 0.
    pub fn y(&self) -> u32
        ensures { result ≡ self.now.state.y }
    {
        self.y
    }

    /// The flag of process i.
    pub fn b(&self, i: u32) -> bool
        requires { IsProcess (count self.now) i }
        ensures { result ≡ flag_of self.now.state i }
    {
        self.flags[(i - 1) as usize]
    }

    /// The point of process i.
    pub fn at(&self, i: u32) -> At
        requires { IsProcess (count self.now) i }
        ensures { result ≡ point_of self.now.state i }
    {
        self.points[(i - 1) as usize]
    }

    /// The number of steps of process i since the start. The count stops at `u64::MAX`.
    pub fn steps(&self, i: u32) -> u64
        requires { IsProcess (count self.now) i }
        ensures { result ≡ of_process 0 self.now.steps i }
    {
        self.steps[(i - 1) as usize]
    }
}

// One step more. The count stops at the greatest number.
fn one_more(steps: u64) -> u64
    ensures { result ≡ one_more steps }
{
    steps.saturating_add(1)
}

// The process with the lowest number whose point is in the critical section.
fn first_inside(points: &[At]) -> Option<u32>
    requires { length points.now < 2 ^ 32 }
    ensures found { IfSome result (λ i. IsInsidePoint (of_process Rest points.now i)) }
    ensures none { IfNone result ((i : ℕ) → ¬ IsInsidePoint (of_process Rest points.now i)) }
{
    let mut i = 0;
    for point in points {
        i += 1;
        if matches!(point, At::Fast | At::Slow) {
            return Some(i);
        }
    }
    None
}

// The load or store of process i at a point, and the next point.
fn operate(i: u32, point: At, x: &mut u32, y: &mut u32, flags: &mut [bool]) -> At
    requires process { IsProcess (length flags.old) i }
    requires point { IsPoint (length flags.old) point }
    requires numbered { length flags.old < 2 ^ 32 }
    ensures { (points : List At) → state_of x.new y.new flags.new (with_process points i result) ≡
        step_from point (state_of x.old y.old flags.old points) i }
{
    let place = (i - 1) as usize;
    match point {
        At::Rest | At::Start => {
            flags[place] = true;
            At::SetX
        }
        At::SetX => {
            *x = i;
            At::TestY
        }
        At::TestY => { if *y == 0 { At::SetY } else { At::BackB } }
        At::BackB => {
            flags[place] = false;
            At::AwaitY
        }
        At::AwaitY => { if *y == 0 { At::Start } else { At::AwaitY } }
        At::SetY => {
            *y = i;
            At::TestX
        }
        At::TestX => { if *x == i { At::Fast } else { At::SlowB } }
        At::SlowB => {
            flags[place] = false;
            At::Scan(1)
        }
        At::Scan(j) => {
            if flags[(j - 1) as usize] {
                At::Scan(j)
            } else if j as usize == flags.len() {
                At::SlowY
            } else {
                At::Scan(j + 1)
            }
        }
        At::SlowY => { if *y == i { At::Slow } else { At::SlowAwait } }
        At::SlowAwait => { if *y == 0 { At::Start } else { At::SlowAwait } }
        At::Fast | At::Slow => {
            *y = 0;
            At::Leaving
        }
        At::Leaving => {
            flags[place] = false;
            At::Rest
        }
    }
}
