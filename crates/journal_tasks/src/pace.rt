//! Budgets for a search that is made again, each time with more steps, until some time has passed.
ghost use Rattle.std.specs.Prelude.{◌<◌, ◌≤◌, IfSome};

use std::time::{Clock, Duration, Instant};

/// Finds budgets for searches that end after some time all together. A search with a larger budget
/// begins with the steps of the last one, so the time that it takes longer is that of its further
/// steps.
#[derive(Drop)]
pub struct Pace {
    // When the first search began, unless the clock could not be read.
    start: Option<Instant>,
    // The time for all searches.
    time: u64,
    // When the search that is being made began.
    begun: u64,
    // The search before it; with no steps, if there is none.
    last: Run,
}

// A search, with its budget and the time that it took. All times are in microseconds.
#[derive(Clone, Copy, Drop)]
struct Run {
    budget: u64,
    took: u64,
}

impl Pace {
    /// Begins the time for all searches.
    pub fn new(clock: &impl Clock, seconds: u64) -> Pace {
        Pace {
            start: Instant::now(clock).ok(),
            time: seconds.saturating_mul(1_000_000),
            begun: 0,
            last: Run { budget: 0, took: 0 },
        }
    }

    /// The budget of the next search, when one with this budget has ended. It is larger, and at
    /// most `limit`. None if no time is left for a larger one, or if the clock cannot be read.
    pub fn next(&mut self, clock: &impl Clock, budget: u64, limit: u64) -> Option<u64>
        ensures { IfSome result (λ next. (budget < next) × (next ≤ limit)) }
    {
        let now = micros_of(self.start?.elapsed(clock).ok()?);
        let run = Run {
            budget,
            took: now.saturating_sub(self.begun).max(1),
        };
        let more = more_steps(self.last, run, self.time.saturating_sub(now));
        self.begun = now;
        self.last = run;
        let next = budget.saturating_add(more).min(limit);
        if budget < next { Some(next) } else { None }
    }
}

fn micros_of(time: Duration) -> u64 {
    time.as_secs()
        .saturating_mul(1_000_000)
        .saturating_add(u64::from(time.subsec_micros()))
}

// How many steps more than the last search the next one can take in the time that is left. If there
// is time for more than one, the next is a short one: it shows the speed, which may have changed.
fn more_steps(before: Run, last: Run, left: u64) -> u64 {
    let time = if left > last.took.saturating_mul(6) {
        last.took.saturating_mul(3)
    } else {
        left
    };
    let steps = last.budget.saturating_sub(before.budget);
    let cost = last.took.saturating_sub(before.took);
    // A cost near 0 says only that other things took most of the time.
    let cost = cost.max(last.took / 8).max(1);
    time.saturating_sub(last.took).saturating_mul(steps) / cost
}
