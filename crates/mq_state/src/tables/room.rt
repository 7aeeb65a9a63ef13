//! Which processes can still make a call, and how much room the journal has.
ghost use Rattle.std.specs.Prelude.{◌≡◌, ◌≤◌, ◌↔◌, IsTrue, IfSome, is_some, not};
ghost use Rattle.mq_model.specs.Callers.{waits_count};
ghost use Rattle.mq_state.specs.Kept.{AreThoseOf, IsKeptBy, IsRoomWithin};
ghost use Rattle.mq_state.specs.Replays.{is_too_long};
ghost use Rattle.mq_state.specs.Tables.{AreAtMost};
ghost use Rattle.mq_state.specs.Room.{NobodyCanCall, can_call, is_full, room_left};

use crate::tables::Tables;
use mq_ledger::ledger::Ledger;
use mq_model::bounds::Bounds;
use mq_model::callers;
use mq_model::journals::Journal;

impl Tables {
    // Whether process p can make any call, at whatever time. `full` says whether the journal is
    // full.
    fn can_call(&self, journal: &Ledger, p: u32, full: bool) -> bool
        requires kept { IsKeptBy journal.now self.now }
        requires full { full ≡ is_full self.now.bounds journal.now.records }
        ensures { result ≡ can_call self.now.bounds journal.now.records p }
    {
        match callers::wait(&self.callers, p) {
            None => !full,
            Some(wait) => self.answer(p).is_some() || wait.until.is_some(),
        }
    }

    /// Whether no process can make any call. Then no process ever can.
    pub fn nobody_can_call(&self, journal: &Ledger) -> bool
        requires kept { IsKeptBy journal.now self.now }
        ensures { IsTrue result ↔ NobodyCanCall self.now.bounds journal.now.records self.now.n }
    {
        let full = self.exceeds(journal, 1, 0);
        'processes: for p in 1..self.n + 1 {
            if self.can_call(journal, p, full) {
                return false;
            }
        }
        true
    }

    /// The room, in entries and payload bytes, that a journal needs for a system to continue from
    /// it: for the entries that end the open waits, and for everything that the bounds still allow.
    /// `None` if the journal is too long for the bounds.
    pub fn room_to_go_on(&self, journal: &Journal) -> Option<(usize, usize)>
        requires tables { AreThoseOf journal.now.records self.now }
        requires processes { AreAtMost self.now.n journal.now.records }
        ensures none { is_some result ≡ not (is_too_long self.now.bounds journal.now.records) }
        ensures waits { IfSome result (λ room. waits_count self.now.callers.items ≤ room.0) }
        ensures within { IfSome result (λ room.
            IsRoomWithin self.now.bounds journal.now.records room.0 room.1) }
    {
        let waits = self.open_waits();
        let Some(bounds) = self.bounds else {
            return Some((waits, 0));
        };
        let entries = bounds.entries.checked_sub(journal.len())?;
        let bytes = bounds.bytes.checked_sub(journal.payload_bytes())?;
        if entries < waits as u64 {
            return None;
        }
        Some((entries as usize, bytes as usize))
    }

    /// The number of entries and payload bytes for which the journal still has room, if it has
    /// bounds.
    pub fn room(&self, journal: &Ledger) -> Option<Bounds>
        requires kept { IsKeptBy journal.now self.now }
        ensures { result ≡ room_left self.now.bounds journal.now.records }
    {
        let Some(bounds) = self.bounds else {
            return None;
        };
        let entries = journal.len() + self.open_waits() as u64;
        Some(Bounds {
            entries: bounds.entries.saturating_sub(entries),
            bytes: bounds.bytes.saturating_sub(journal.payload_bytes()),
        })
    }
}
