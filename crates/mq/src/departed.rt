//! A process that has left its critical section, and owes wake-ups.
ghost use Rattle.std.specs.Prelude.{◌≡◌};
ghost use Rattle.mq_state.specs.Buffers.{waiting_room};

use crate::guarded::Guarded;
use crate::process::{Process, process_of};
use crate::system::Mq;
use fast_mutex::{Enter, Look};
use std::marker::Model;

/// A process that has made a call and released the lock, and has not yet woken the threads that
/// sleep until then. Each call of a [`Guard`](crate::guard::Guard) returns it, and only
/// [`wake_others`](Departed::wake_others) or [`into_process`](Departed::into_process) gives the
/// [`Process`] back. So no code that goes on with the process can forget whom it has to wake.
#[derive(Drop)]
pub struct Departed<L: Look<Guarded>> {
    process: Process<L>,
}

impl<L: Look<Guarded>> Model for Departed<L> {
    ghost use Rattle.fast_mutex.specs.Items.{Ticket};
    ghost use Rattle.mq_model.specs.Record.{Record};

    ghost Value = { Ticket Record };

    ghost view = { λ d. d.process };
}

/// The process of a seat whose process has released the lock. `waits` is the buffer length that its
/// open wait needs.
#[inline(always)]
pub(crate) fn departed_of<L: Look<Guarded>>(seat: L::Seat, waits: Option<usize>) -> Departed<L>
    requires { waits ≡ waiting_room (L.ticket seat).left (L.ticket seat).number }
    ensures { result ≡ L.ticket seat }
{
    Departed {
        process: process_of(seat, waits),
    }
}

impl<L: Look<Guarded>> Departed<L> {
    ghost use Rattle.std.specs.Prelude.{◌≡◌};

    /// Wakes the threads that sleep until this call: one that waits for the lock, and those whose
    /// waits it answered.
    #[inline(always)]
    pub fn wake_others(self, mq: &Mq<L>) -> Process<L>
        ensures { result ≡ self }
    {
        match &self.process.seat {
            Some(seat) => mq.lock().wake(seat),
            None => unreachable!(),
        }
        self.process
    }

    /// The process, for a caller whose threads sleep outside Rattle. That caller wakes them, by the
    /// futex words ([`Mq::futex_words`]) and [`Process::answered_others`].
    #[inline(always)]
    pub fn into_process(self) -> Process<L>
        ensures { result ≡ self }
    {
        self.process
    }
}
