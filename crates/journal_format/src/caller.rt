//! The word of a caller: `3` for the first thread of process 3, `3.2` for its second thread.
ghost use Rattle.std.specs.Prelude.{◌≡◌, ◌==◌, ◌<◌, IfOk, IfSome, length, string_bytes};
ghost use Rattle.std.specs.List.{position};
ghost use Rattle.std.specs.Option.{option_map};
ghost use Rattle.journal_format.specs.Reading.{caller_at, caller_by, caller_written, read_off, words_at};
ghost use Rattle.journal_format.specs.Text.{caller_word};

use crate::words::word_of;
use mq_model::callers::owner_of;
use mq_model::limits::PROCESSES;
use std::alloc::{AllocError, Global};
use text_io::words::small_number;

/// The word of a caller: the number of its process, and behind a dot that of the thread, unless it
/// is the first one.
pub fn caller_text(alloc: Global, caller: u32) -> Result<String, AllocError>
    ensures { IfOk result (λ text. string_bytes text ≡ caller_word caller) }
{
    if caller <= PROCESSES {
        format!(in alloc; "{caller}")
    } else {
        let process = owner_of(caller);
        let thread = (caller - 1) / PROCESSES + 1;
        format!(in alloc; "{process}.{thread}")
    }
}

// The caller of a process and the number of one of its threads, if it has 32 bits.
fn caller_by(process: u32, thread: u32) -> Option<u32>
    ensures { result ≡ caller_by process thread }
{
    let further = u64::from(thread.saturating_sub(1));
    u32::try_from(u64::from(process) + further * u64::from(PROCESSES)).ok()
}

// The index of the first dot in a word.
fn dot_of(word: &[u8]) -> Option<usize>
    ensures value { result ≡ position (λ b. b == 46) word.now }
    ensures inside { IfSome result (λ dot. dot < length word.now) }
{
    word.iter().position(|b| *b == b'.')
}

// The caller that a word means.
#[tactic(auto, unfolding(crate::specs::Reading::caller_written))]
fn caller_written(word: &[u8]) -> Option<u32>
    ensures { result ≡ caller_written word.now }
{
    match dot_of(word) {
        None => small_number(word),
        Some(dot) => {
            let process = small_number(&word[..dot])?;
            let thread = small_number(&word[dot + 1..])?;
            caller_by(process, thread)
        }
    }
}

/// A caller.
#[tactic(auto, unfolding(crate::specs::Reading::caller_at))]
pub fn caller_of<'w, 's>(words: &'w [&'s [u8]]) -> Option<(u32, &'w [&'s [u8]])>
    ensures { option_map read_off result ≡ caller_at (words_at words.now) }
{
    let (word, words) = word_of(words)?;
    Some((caller_written(word)?, words))
}
