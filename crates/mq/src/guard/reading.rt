//! Reading the journal in the critical section. Each call here releases the lock without a call of
//! the queues.
ghost use Rattle.std.specs.Prelude.{◌≡◌, IfOk};
ghost use Rattle.std.specs.Option.{option_map};
ghost use Rattle.mq_model.specs.Record.{record_at};
ghost use Rattle.mq.specs.Readings.{record_of};

use super::Guard;
use crate::departed::{Departed, departed_of};
use crate::guarded::Guarded;
use crate::judging::verdict;
use crate::stays::{begin, depart};
use crate::system::Mq;
use fast_mutex::Look;
use mq_model::bounds::Bounds;
use mq_model::entries::Entry;
use mq_model::journals::Journal;
use std::alloc::{AllocError, Global};

impl<L: Look<Guarded>> Guard<L> {
    ghost use Rattle.std.specs.Prelude.{◌≡◌, ◌↔◌, true, IsTrue, IsOk, IfOk, length, []};
    ghost use Rattle.std.specs.Option.{option_map};
    ghost use Rattle.mq_model.specs.Record.{record_at};
    ghost use Rattle.mq_state.specs.Buffers.{waiting_room};
    ghost use Rattle.mq_state.specs.Room.{NobodyCanCall, room_left};
    ghost use Rattle.mq.specs.Calls.{Calls, KeepsAnswered, bounds_of, stored_in};
    ghost use Rattle.mq.specs.Readings.{record_of};

    /// Checks the stored journal from its first entry, as [`verdict`] does.
    pub fn check(self, alloc: Global, mq: &Mq<L>) -> (Departed<L>, Result<(), u64>)
        requires made { self.process.lock ≡ mq.now }
        requires stored { stored_in self.process.lock.fixed ≡ true }
        ensures legal { IsOk result.1 }
        ensures calls { Calls self.process result.0 [] }
        ensures wait { waiting_room result.0.left result.0.number ≡
            waiting_room self.process.left self.process.number }
        ensures told { KeepsAnswered self.process result.0 }
    {
        let (inside, state) = begin::<L>(self.walk, self.number);
        let checked = verdict(alloc, state.books.journal());
        (departed_of(depart(mq, inside, state), self.waits), checked)
    }

    /// The entry of the stored journal with this sequence number, or `None` if the journal has no
    /// such entry.
    pub fn entry(self, mq: &Mq<L>, place: u64) -> (Departed<L>, Option<Entry>)
        requires made { self.process.lock ≡ mq.now }
        requires stored { stored_in self.process.lock.fixed ≡ true }
        ensures entry { result.1 ≡ option_map (λ r. r.entry) (record_at result.0.left place) }
        ensures calls { Calls self.process result.0 [] }
        ensures wait { waiting_room result.0.left result.0.number ≡
            waiting_room self.process.left self.process.number }
        ensures told { KeepsAnswered self.process result.0 }
    {
        let (inside, state) = begin::<L>(self.walk, self.number);
        let entry = state.books.journal().entry(place);
        (departed_of(depart(mq, inside, state), self.waits), entry)
    }

    /// The same with the payload of the entry. Fails if memory for the payload was refused.
    pub fn record(
        self,
        alloc: Global,
        mq: &Mq<L>,
        place: u64,
    ) -> (Departed<L>, Result<Option<(Entry, Vec<u8>)>, AllocError>)
        requires made { self.process.lock ≡ mq.now }
        requires stored { stored_in self.process.lock.fixed ≡ true }
        ensures record { IfOk result.1 (λ read. option_map record_of read ≡
            record_at result.0.left place) }
        ensures calls { Calls self.process result.0 [] }
        ensures wait { waiting_room result.0.left result.0.number ≡
            waiting_room self.process.left self.process.number }
        ensures told { KeepsAnswered self.process result.0 }
    {
        let (inside, state) = begin::<L>(self.walk, self.number);
        let read = record_at(alloc, state.books.journal(), place);
        (departed_of(depart(mq, inside, state), self.waits), read)
    }

    /// As [`Process::room`].
    pub fn room(self, mq: &Mq<L>) -> (Departed<L>, Option<Bounds>)
        requires made { self.process.lock ≡ mq.now }
        ensures room { result.1 ≡ room_left (bounds_of self.process) result.0.left }
        ensures calls { Calls self.process result.0 [] }
        ensures wait { waiting_room result.0.left result.0.number ≡
            waiting_room self.process.left self.process.number }
        ensures told { KeepsAnswered self.process result.0 }
    {
        let (inside, state) = begin::<L>(self.walk, self.number);
        let room = state.books.room();
        (departed_of(depart(mq, inside, state), self.waits), room)
    }

    /// As [`Process::journal_len`].
    pub fn journal_len(self, mq: &Mq<L>) -> (Departed<L>, u64)
        requires made { self.process.lock ≡ mq.now }
        ensures count { result.1 ≡ length result.0.left }
        ensures calls { Calls self.process result.0 [] }
        ensures wait { waiting_room result.0.left result.0.number ≡
            waiting_room self.process.left self.process.number }
        ensures told { KeepsAnswered self.process result.0 }
    {
        let (inside, state) = begin::<L>(self.walk, self.number);
        let count = state.books.journal_len();
        (departed_of(depart(mq, inside, state), self.waits), count)
    }

    /// As [`Process::nobody_can_call`].
    pub fn nobody_can_call(self, mq: &Mq<L>) -> (Departed<L>, bool)
        requires made { self.process.lock ≡ mq.now }
        ensures nobody { IsTrue result.1 ↔ NobodyCanCall
            (bounds_of self.process) result.0.left self.process.lock.count }
        ensures calls { Calls self.process result.0 [] }
        ensures wait { waiting_room result.0.left result.0.number ≡
            waiting_room self.process.left self.process.number }
        ensures told { KeepsAnswered self.process result.0 }
    {
        let (inside, state) = begin::<L>(self.walk, self.number);
        let nobody = state.books.nobody_can_call();
        (departed_of(depart(mq, inside, state), self.waits), nobody)
    }
}

// The entry with this sequence number and a copy of its payload.
fn record_at(
    alloc: Global,
    journal: &Journal,
    place: u64,
) -> Result<Option<(Entry, Vec<u8>)>, AllocError>
    ensures { IfOk result (λ read. option_map record_of read ≡
        record_at journal.now.records place) }
{
    let (Some(entry), Some(payload)) = (journal.entry(place), journal.payload(place)) else {
        return Ok(None);
    };
    Ok(Some((entry, payload.to_vec(alloc)?)))
}
