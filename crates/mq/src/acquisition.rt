//! A process that is acquiring the lock.

use crate::guard::Guard;
use crate::guarded::Guarded;
use crate::process::Process;
use crate::system::Mq;
use fast_mutex::{Enter, FAST_PATH_STEPS, Look};
use std::marker::Model;
use std::sync::Wait;

/// An acquisition of the lock in progress, made by [`Process::acquisition`]. It proceeds in steps
/// that never wait, until it becomes a [`Guard`], which makes one call and becomes a [`Process`]
/// again. So code that must not wait can make calls, and do other work between the steps. Contracts
/// see the process that started it, and how many accesses to words of the lock it has made.
///
/// After its first step it can keep the other processes out until it is finished. If it is dropped
/// or abandoned, it can keep them out for good.
#[derive(Drop)]
pub struct Acquisition<L: Look<Guarded>> {
    number: u32,
    walk: L::Walk,
    waits: Option<usize>,
    // whether its last step made no progress
    is_stuck: bool,
}

impl<L: Look<Guarded>> Model for Acquisition<L> {
    ghost use Rattle.mq.specs.Calls.{Entrant, UnderWay};

    ghost Value = { Entrant };

    ghost view = { λ a. record { process = L.walking a.walk; accesses = L.walk_accesses a.walk } };

    ghost invariant = { λ a. UnderWay (L.walking a.walk) a.number a.waits };
}

impl<L: Look<Guarded>> Acquisition<L> {
    ghost use Rattle.std.specs.Prelude.{◌≡◌, ◌≤◌, ◌+◌, IfOk, IfErr};
    ghost use Rattle.mq_state.specs.Buffers.{waiting_room};

    /// As [`Process::waiting`], for the process that started the acquisition.
    pub fn waiting(&self) -> Option<usize>
        ensures { result ≡ waiting_room self.now.process.left self.now.process.number }
    {
        self.waits
    }

    /// The number of the process.
    pub fn number(&self) -> u32
        ensures { result ≡ self.now.process.number }
    {
        self.number
    }

    /// The futex word on which a thread outside Rattle sleeps if the steps do not acquire the lock
    /// (see [`Mq::futex_words`]). `None` if its last step made progress, or if it has taken none
    /// behind the fast path: then it waits for nothing that it has looked at, and must not sleep.
    pub fn futex_word(&self) -> Option<u32> {
        if self.is_stuck {
            Some(L::futex_word(&self.walk))
        } else {
            None
        }
    }

    /// Takes at most `steps` atomic steps, each one access to a word of the lock. None of them
    /// waits. It stops once the lock is acquired, and after the fifth step also at a step without
    /// progress. There is no guarantee that steps ever acquire the lock. Five are enough if no
    /// other process has the lock or is acquiring it. If others do, let them run before the next
    /// try.
    #[inline(always)]
    pub fn advance(self, mq: &Mq<L>, steps: u32) -> Result<Guard<L>, Acquisition<L>>
        requires made { self.process.lock ≡ mq.now }
        ensures guard { IfOk result (λ guard. guard.process ≡ self.process) }
        ensures under_way { IfErr result (λ acquisition. acquisition.process ≡ self.process) }
        ensures few_inside { IfOk result (λ guard. guard.accesses ≤ self.accesses + steps) }
        ensures few_on_the_way { IfErr result (λ acquisition.
            acquisition.accesses ≤ self.accesses + steps) }
    {
        if steps < FAST_PATH_STEPS {
            return self.go_on(mq, steps);
        }
        let Acquisition {
            number,
            walk,
            waits,
            is_stuck: _,
        } = self;
        let tried = mq.lock().take_fast_path(walk);
        if L::is_admitted(&tried) {
            return Ok(Guard {
                number,
                walk: tried,
                waits,
            });
        }
        let on_its_way = Acquisition {
            number,
            walk: tried,
            waits,
            is_stuck: false,
        };
        if steps == FAST_PATH_STEPS {
            return Err(on_its_way);
        }
        on_its_way.go_on(mq, steps - FAST_PATH_STEPS)
    }

    // The same, one step at a time. It stops at a step without progress, because repeated polls
    // would take the words of the lock out of the holder's cache. It is outlined, so that an
    // acquisition that meets nobody has only the code that it needs.
    #[inline(never)]
    fn go_on(self, mq: &Mq<L>, steps: u32) -> Result<Guard<L>, Acquisition<L>>
        requires made { self.process.lock ≡ mq.now }
        ensures guard { IfOk result (λ guard. guard.process ≡ self.process) }
        ensures under_way { IfErr result (λ acquisition. acquisition.process ≡ self.process) }
        ensures few_inside { IfOk result (λ guard. guard.accesses ≤ self.accesses + steps) }
        ensures few_on_the_way { IfErr result (λ acquisition.
            acquisition.accesses ≤ self.accesses + steps) }
    {
        let Acquisition {
            number,
            mut walk,
            waits,
            mut is_stuck,
        } = self;
        'steps: for taken in 0..steps {
            if L::is_admitted(&walk) {
                break;
            }
            let (next, has_moved) = mq.lock().step(walk);
            walk = next;
            is_stuck = !has_moved;
            if is_stuck {
                break;
            }
        }
        if !L::is_admitted(&walk) {
            return Err(Acquisition {
                number,
                walk,
                waits,
                is_stuck,
            });
        }
        Ok(Guard {
            number,
            walk,
            waits,
        })
    }

    /// Acquires the lock, waiting while another process holds it.
    #[inline(always)]
    pub(crate) fn come_in<R: Wait>(self, rt: &R, mq: &Mq<L>) -> Guard<L>
        requires made { self.process.lock ≡ mq.now }
        ensures { result.process ≡ self.process }
    {
        Guard {
            number: self.number,
            walk: mq.lock().come_in(rt, self.walk),
            waits: self.waits,
        }
    }
}

impl<L: Look<Guarded>> Process<L> {
    ghost use Rattle.std.specs.Prelude.{◌≡◌};

    /// Starts to acquire the lock. The process makes its next call through the [`Guard`] that this
    /// leads to. It changes nothing that other processes see.
    #[inline(always)]
    pub fn acquisition(self, mq: &Mq<L>) -> Acquisition<L>
        requires made { self.lock ≡ mq.now }
        ensures { result.process ≡ self }
    {
        let Process { seat, waits } = self;
        let seat = seat.unwrap();
        Acquisition {
            number: L::number(&seat),
            walk: mq.lock().begin(seat),
            waits,
            is_stuck: false,
        }
    }
}
