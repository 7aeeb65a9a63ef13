//! A monotonic clock.
ghost use Rattle.std.specs.Prelude.{◌≡◌, true};
ghost use Rattle.mq.specs.Moments.{moment_past};
ghost use Rattle.mq_model.specs.Deadlines.{has_passed, is_moment};

use mq_model::clock::Clock;
use mq_model::entries::Deadline;
use std::time::{Duration, Instant};
use std::{io, time};

/// A clock for timed calls: the time since its start, by the monotonic clock of the operating
/// system. If that cannot be read, it returns the time of its start.
#[derive(Drop)]
pub struct Monotonic<'a, R: time::Clock> {
    rt: &'a R,
    start: Instant,
}

impl<'a, R: time::Clock> Monotonic<'a, R> {
    /// A clock that starts now. Fails if the clock of the operating system cannot be read.
    pub fn start(rt: &'a R) -> io::Result<Monotonic<'a, R>> {
        let start = Instant::now(rt)?;
        Ok(Monotonic { rt, start })
    }

    fn elapsed(&self) -> Duration {
        self.start.elapsed(self.rt).unwrap_or(Duration::ZERO)
    }

    /// The deadline of a call that starts now and waits for at most `time`.
    pub fn after(&self, time: Duration) -> Deadline
        ensures moment { is_moment result ≡ true }
        ensures past { has_passed (moment_past time) result ≡ true }
    {
        moment(self.elapsed().saturating_add(time))
    }
}

impl<'a, R: time::Clock> Clock for Monotonic<'a, R> {
    ghost use Rattle.std.specs.Prelude.{◌≡◌, true};
    ghost use Rattle.mq_model.specs.Deadlines.{is_moment};

    ghost gives = { λ clock moment. is_moment moment ≡ true };

    fn now(&self) -> Deadline {
        moment(self.elapsed())
    }
}

// This time after the start of the clock, or the last representable time if the seconds do not fit
// a deadline.
fn moment(time: Duration) -> Deadline
    ensures moment { is_moment result ≡ true }
    ensures past { result ≡ moment_past time }
{
    let Ok(sec) = i64::try_from(time.as_secs()) else {
        return Deadline {
            sec: i64::MAX,
            nsec: 999_999_999,
        };
    };
    Deadline {
        sec,
        nsec: i64::from(time.subsec_nanos()),
    }
}
