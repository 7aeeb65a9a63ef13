//! Worked schedules of Lamport's machine, with everything that a world shows after them, and steps
//! into the critical section.
ghost use Rattle.std.specs.Prelude.{◌≡◌, ◌≤◌, IfOk};
ghost use Rattle.lamport_core.specs.Machine.{count};

use crate::refusals::{refuse_all, say_refused};
use crate::same::same;
use lamport_core::{At, World};
use lamport_progress::way_inside;
use std::alloc::{AllocError, Global};
use std::io::Print;
use std::process::Abort;
use std::test::Fail;

// The start. One allocation may be made to fail from outside.
fn start<R: Print>(rt: &R, alloc: Global, n: u32) -> Result<World, AllocError>
    requires { 1 ≤ n }
    ensures { IfOk result (λ world. count world ≡ n) }
{
    match World::new(alloc, n) {
        Ok(world) => Ok(world),
        Err(_) => {
            say_refused(rt, "the making");
            World::new(alloc, n)
        }
    }
}

// The point, the flag and the steps of a process.
type Seen = (At, bool, u64);

// A schedule, what each process shows after it, the words x and y, and the process in its critical
// section.
type Row = (&'static [u32], &'static [Seen], (u32, u32, Option<u32>));

// In the last row process 2 sets y to 0 while process 1 is at its test of x.
static ROWS: [Row; 3] = [
    (
        &[1, 1, 1, 2, 2, 1, 1, 2, 2, 1, 1, 1, 1],
        &[(At::Slow, false, 9), (At::AwaitY, false, 4)],
        (2, 1, Some(1)),
    ),
    (
        &[1, 1, 1, 2, 2, 2, 1, 1, 2, 2, 1, 1, 1],
        &[(At::Scan(2), false, 8), (At::Fast, true, 5)],
        (2, 2, Some(2)),
    ),
    (
        &[1, 1, 1, 2, 2, 2, 2, 2, 1, 2, 3, 3, 3, 3, 3, 1, 1, 1, 1],
        &[
            (At::Scan(2), false, 8),
            (At::Leaving, true, 6),
            (At::Fast, true, 5),
        ],
        (3, 3, Some(3)),
    ),
];

// Takes the steps of a row. After the start every allocation may be made to fail from outside, if
// the row is the last one.
fn expect_row<A: Abort + Print>(
    rt: &A,
    alloc: Global,
    row: Row,
    is_last: bool,
) -> Result<(), AllocError> {
    let (schedule, wanted, words) = row;
    let n = (wanted.len().min(3) as u32).max(1);
    let mut world = start(rt, alloc, n)?;
    if is_last {
        refuse_all(rt, alloc);
    }
    for i in schedule {
        world.step((*i).clamp(1, n));
    }
    for i in 1..=n {
        let found = (world.at(i), world.b(i), world.steps(i));
        let seen = wanted.get((i - 1) as usize).copied();
        same(rt, Some(found), seen, "a process");
    }
    same(
        rt,
        (world.x(), world.y(), world.inside()),
        words,
        "the words",
    );
    Ok(())
}

#[test]
fn worked_schedules_lead_where_the_algorithm_says(rt: HostRuntime) -> Result<(), Fail> {
    let mut world = start(&rt, rt.alloc(), 1)?;
    world.run(&[1, 1, 1, 1, 1]);
    same(&rt, world.inside(), Some(1), "the process inside");
    for (k, row) in ROWS.iter().enumerate() {
        expect_row(&rt, rt.alloc(), *row, k == 2)?;
    }
    Ok(())
}

// The process in its scan waits for the flag of one that has not yet seen that y is not 0.
#[test]
fn a_way_leads_inside(rt: HostRuntime) -> Result<(), Fail> {
    let way = way_inside(rt.alloc(), 2, &[1, 1, 1, 2, 2, 1, 1, 1, 1])?;
    assert!(rt; way.as_slice() == [2, 2, 1, 1].as_slice());
    Ok(())
}
