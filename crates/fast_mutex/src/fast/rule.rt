//! The rule of the words, and what each kind of access tells the proof.
use super::view::View;
use crate::logged::Logged;
use crate::seats::About;
use atomic_table::{Play, TableRule};
use std::marker::PhantomData;

/// The rule of Lamport's lock: `KeepsRule` of its words, its slot and its views.
pub struct FastRule<S> {
    of: PhantomData<S>,
}

impl<S: Logged> TableRule<Option<S>, View<S::Item>, About<S>> for FastRule<S> {
    ghost use Rattle.fast_mutex.specs.Seats.{first_view};
    ghost use Rattle.fast_mutex.specs.Fast.{KeepsRule, resting};

    ghost holds = { KeepsRule S.items S.fixed S.author S.is_answered };

    ghost first = { first_view resting S.items S.fixed };
}

/// A store of x, of y := i or of the process's own flag.
pub struct Stores;

impl<S: Logged> Play<Option<S>, View<S::Item>> for Stores {
    ghost use Rattle.fast_mutex.specs.Fast.{IsStore};

    ghost then = { IsStore };
}

/// A load of y or of a flag that cannot acquire the lock.
pub struct Loads;

impl<S: Logged> Play<Option<S>, View<S::Item>> for Loads {
    ghost use Rattle.fast_mutex.specs.Fast.{IsLoad};

    ghost then = { IsLoad };
}

/// The load of x at `At::TestX` and the load of y at `At::SlowY`. They acquire the lock if they
/// find the number of the process.
pub struct Tests<S> {
    of: PhantomData<S>,
}

impl<S: Logged> Play<Option<S>, View<S::Item>> for Tests<S> {
    ghost use Rattle.fast_mutex.specs.Fast.{IsTest};

    ghost then = { IsTest S.items S.fixed S.author S.is_answered };
}

/// The load of the process's own word s, outside the critical section.
pub struct Looks<S> {
    of: PhantomData<S>,
}

impl<S: Logged> Play<Option<S>, View<S::Item>> for Looks<S> {
    ghost use Rattle.fast_mutex.specs.Fast.{IsLook};

    ghost then = { IsLook S.is_answered };
}

/// The store of a word s in the critical section, with the state back in its slot.
pub struct Marks<S> {
    of: PhantomData<S>,
}

impl<S: Logged> Play<Option<S>, View<S::Item>> for Marks<S> {
    ghost use Rattle.fast_mutex.specs.Fast.{IsMark};

    ghost then = { IsMark S.items S.is_answered };
}

/// The store of 0 to y, which gives the state back.
pub struct Leaves<S> {
    of: PhantomData<S>,
}

impl<S: Logged> Play<Option<S>, View<S::Item>> for Leaves<S> {
    ghost use Rattle.fast_mutex.specs.Fast.{IsLeave};

    ghost then = { IsLeave S.items };
}
