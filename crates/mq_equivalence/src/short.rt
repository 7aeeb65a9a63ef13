//! A short journal that may replace a long one.
#![tactic(auto)]

ghost use Rattle.std.specs.Prelude.{◌≡◌, ◌≤◌, true, IfOk, length};
ghost use Rattle.mq_equivalence.specs.Equivalence.{Equivalent};

use crate::equivalence_is_reflexive;
use crate::keys::{are_equivalent, trail_after};
use mq_model::journals::Journal;
use mq_state::books::Books;
use mq_state::rewriting::Unwritten;
use std::alloc::Global;

/// A short journal that is equivalent to the stored journal of these queues. Its length depends on
/// what exists now. If the journal itself has no more entries, it is a copy of that. It takes time
/// in the length of the journal. Fails with `Answered` if a process has not collected a wait that
/// is answered, and with `Unexpected` if the new journal is not equivalent, or a call in it got
/// another reply than needed; neither is known to happen.
pub fn equivalent_short(alloc: Global, books: &Books) -> Result<Journal, Unwritten>
    requires { books.now.stored ≡ true }
    ensures equivalent { IfOk result (λ short. Equivalent books.now.records short.records) }
    ensures no_longer { IfOk result (λ short. length short.records ≤ length books.now.records) }
{
    equivalence_is_reflexive();
    let journal = books.journal();
    let short = books.rewritten(alloc)?;
    if short.len() >= journal.len() {
        let trail = trail_after(alloc, journal)?;
        return Ok(trail.into_journal());
    }
    if are_equivalent(alloc, journal, &short)? {
        Ok(short)
    } else {
        Err(Unwritten::Unexpected)
    }
}
