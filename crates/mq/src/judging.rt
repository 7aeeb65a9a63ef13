//! Checking a journal.
ghost use Rattle.std.specs.Prelude.{◌↔◌, IsOk, IfErr};
ghost use Rattle.mq_model.specs.Legality.{Legal, IsFirstIllegal};

use mq_checker::checker::check_history;
use mq_model::journals::Journal;
use mq_state::replay::replay;
use std::alloc::Global;

/// Whether a journal is legal, or the sequence number of the first record that is not. It runs a
/// [`replay`]. If memory for that is refused, it runs [`check_history`], which takes none, but
/// takes time in the square of the journal's length.
pub fn verdict(alloc: Global, journal: &Journal) -> Result<(), u64>
    ensures legal { IsOk result ↔ Legal journal.now.records }
    ensures first_illegal { IfErr result (IsFirstIllegal journal.now.records) }
{
    match replay(alloc, journal) {
        Ok(None) => Ok(()),
        Ok(Some(departure)) => Err(departure.place),
        Err(_refused) => check_history(journal),
    }
}
