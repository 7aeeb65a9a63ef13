//! Prefixes of a journal. The tables can be those of any prefix.
ghost use Rattle.std.specs.Prelude.{◌≡◌, ◌≤◌, length, true};
ghost use Rattle.std.specs.Option.{option_map};
ghost use Rattle.mq_model.specs.Record.{first, record_at};
ghost use Rattle.mq_model.specs.Messages.{priority};
ghost use Rattle.mq_ledger.specs.Ledgers.{CanRead};

use mq_ledger::ledger::{Ledger, priority_in};
use mq_model::journals::Journal;
use std::marker::Model;

/// A prefix of a journal, perhaps all of it. It shows the records, and the room that the journal
/// has.
#[derive(Drop)]
pub struct Prefix<'a> {
    source: Source<'a>,
    len: u64,
}

#[derive(Clone, Copy)]
enum Source<'a> {
    Journal(&'a Journal),
    Ledger(&'a Ledger),
}

impl<'a> Model for Prefix<'a> {
    ghost use Rattle.mq_ledger.specs.Ledgers.{Shown};

    ghost Value = { Shown };

    ghost use Rattle.mq_state.specs.Prefixes.{shown, IsWithin};

    ghost view = { shown };

    ghost invariant = { IsWithin };
}

impl<'a> Prefix<'a> {
    /// The whole journal of a system.
    #[inline(always)]
    pub fn whole(ledger: &'a Ledger) -> Prefix<'a>
        ensures { result ≡ ledger.now }
    {
        Prefix {
            source: Source::Ledger(ledger),
            len: ledger.len(),
        }
    }

    /// The whole of a journal.
    pub fn of(journal: &'a Journal) -> Prefix<'a>
        ensures records { result.records ≡ journal.now.records }
        ensures stored { result.stored ≡ true }
    {
        Prefix {
            source: Source::Journal(journal),
            len: journal.len(),
        }
    }

    /// The first `len` entries of a journal.
    pub fn first(journal: &'a Journal, len: u64) -> Prefix<'a>
        requires { len ≤ length journal.now.records }
        ensures records { result.records ≡ first len journal.now.records }
        ensures stored { result.stored ≡ true }
    {
        Prefix {
            source: Source::Journal(journal),
            len,
        }
    }

    /// The number of entries.
    #[inline(always)]
    pub fn len(&self) -> u64
        ensures { result ≡ length self.now.records }
    {
        self.len
    }

    /// The priority of the message sent by entry `place`, if that can be read.
    #[inline(always)]
    pub fn priority(&self, place: u64) -> u32
        ensures { CanRead self.now place → result ≡ priority self.now.records place }
    {
        if place >= self.len {
            return 0;
        }
        match self.source {
            Source::Journal(journal) => priority_in(journal, place),
            Source::Ledger(ledger) => ledger.message(place).1,
        }
    }

    /// The payload of entry `place`, if that can be read.
    #[inline(always)]
    pub fn payload(&self, place: u64) -> Option<&[u8]>
        ensures { CanRead self.now place →
            option_map (λ p. p.now) result ≡ option_map (λ r. r.payload)
            (record_at self.now.records place) }
    {
        if place >= self.len {
            return None;
        }
        match self.source {
            Source::Journal(journal) => journal.payload(place),
            Source::Ledger(ledger) => ledger.message(place).0,
        }
    }
}
