//! The clocks of timed calls.
ghost use Rattle.std.specs.Prelude.{◌≡◌, true};
ghost use Rattle.mq_model.specs.Deadlines.{is_moment};
ghost use Rattle.mq_model.specs.declared.entries.Deadline.{Deadline};

use crate::entries::Deadline;

/// A clock. A timed call asks it for the time of each of its entries. So the caller who lends the
/// clock chooses its unit and its start.
pub trait Clock {
    // the times that this clock can return
    ghost gives: { Self → Deadline → Type 0 };

    /// The current time. Its nanoseconds are 0 to 999,999,999.
    fn now(&self) -> Deadline
        ensures given { gives self.now result }
        ensures moment { is_moment result ≡ true };
}
