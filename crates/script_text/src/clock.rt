//! The clock of a phase.
ghost use Rattle.std.specs.Prelude.{◌≡◌, true};
ghost use Rattle.mq_model.specs.Deadlines.{is_moment};

use mq_model::clock::Clock;
use mq_model::entries::Deadline;

/// A clock that always returns the same time.
#[derive(Clone, Copy, PartialEq, Eq)]
pub struct FixedClock {
    pub moment: Deadline,
    ghost is_moment: { is_moment moment ≡ true },
}

impl Clock for FixedClock {
    ghost gives = { λ clock moment. moment ≡ clock.moment };

    fn now(&self) -> Deadline {
        self.moment
    }
}
