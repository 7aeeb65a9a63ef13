//! A prefix of a journal.
ghost use Rattle.std.specs.Prelude.{◌≡◌, ◌≤◌, IfOk, length};
ghost use Rattle.mq_model.specs.Record.{first};

use mq_model::journals::Journal;
use std::alloc::{AllocError, Global};

/// A journal of the first `k` entries of a journal. Fails if memory was refused.
#[tactic(auto, using(mq_model::proofs::Prefixes::prefixes))]
pub fn first_entries(alloc: Global, journal: &Journal, k: u64) -> Result<Journal, AllocError>
    requires { k ≤ length journal.now.records }
    ensures { IfOk result (λ j. j.records ≡ first k journal.now.records) }
{
    let mut entries = Journal::new(alloc);
    for i in 0..k {
        let (entry, payload) = journal.record(i);
        entries.reserve(1, payload.len())?;
        entries.push(entry, payload);
    }
    Ok(entries)
}
