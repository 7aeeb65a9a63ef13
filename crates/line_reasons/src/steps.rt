//! Lists of the steps of threads: lines `PLACE THREAD STEP`, each of which says which thread made
//! the entry with the sequence number PLACE, and in which of its steps. Lines `step TEXT` and
//! `end TEXT` have any text: a step of the run, and how the run ended.

use crate::formats::{Format, reason_of};
use std::alloc::{AllocError, Global};

/// The first malformed line of a list, counted from 1, with the reason. Empty lines are skipped,
/// and the last line may lack its line feed.
pub fn first_bad_step(alloc: Global, text: &[u8]) -> Result<Option<(u64, String)>, AllocError> {
    let mut number: u64 = 0;
    for line in text.split(|b| *b == b'\n') {
        number = number.saturating_add(1);
        if line.is_empty() || line.starts_with(b"step ") || line.starts_with(b"end ") {
            continue;
        }
        if let Some(reason) = reason_of(alloc, Format::Steps, number, line)? {
            return Ok(Some((number, reason)));
        }
    }
    Ok(None)
}
