//! The line of an entry.
ghost use Rattle.std.specs.Prelude.{◌≡◌, IfOk, MatchOption, string_bytes};
ghost use Rattle.journal_format.specs.JournalFault.{IsNoLine};
ghost use Rattle.std.specs.Option.{option_map};
ghost use Rattle.journal_format.specs.Reading.{entry_at, read_entry, words_at};
ghost use Rattle.journal_format.specs.Text.{line_text};

use crate::call::{call_of, call_text};
use crate::caller::{caller_of, caller_text};
use crate::payload::payload_text;
use crate::reply::{reply_of, reply_text};
use crate::words::{quoted_of, word_of};
use mq_model::entries::Entry;
use percent_encoding::percent_decode;
use std::alloc::{AllocError, Global};
use text_io::words::words;

/// The line of an entry with this sequence number, and of its payload.
#[tactic(auto, using(crate::proofs::Parts::line_parts))]
pub fn line_of(
    alloc: Global,
    place: u64,
    entry: Entry,
    payload: &[u8],
) -> Result<String, AllocError>
    ensures { IfOk result (λ line. string_bytes line ≡
        line_text place (record { entry = entry; payload = payload.now })) }
{
    let caller = caller_text(alloc, entry.process)?;
    let call = call_text(alloc, &entry.call)?;
    let quoted = payload_text(alloc, payload)?;
    let reply = reply_text(alloc, &entry.reply)?;
    format!(in alloc; "{place} {caller} {call}{quoted} -> {reply}\n")
}

// The entry that the words of a line mean, and what is between its quotes.
#[tactic(auto, unfolding(crate::specs::Reading::entry_at))]
fn entry_of<'s>(words: &[&'s [u8]]) -> Option<(Entry, &'s [u8])>
    ensures { option_map read_entry result ≡ entry_at (words_at words.now) }
{
    let (_place, words) = word_of(words)?;
    let (process, words) = caller_of(words)?;
    let (call, words) = call_of(words)?;
    let (quoted, words) = quoted_of(words);
    let (_arrow, words) = word_of(words)?;
    let reply = reply_of(words)?;
    let entry = Entry {
        process,
        call,
        reply,
    };
    Some((entry, quoted))
}

/// The entry and its payload, if this is the line of an entry with this sequence number. The line
/// ends with its line feed.
pub fn read_line(
    alloc: Global,
    place: u64,
    line: &[u8],
) -> Result<Option<(Entry, Vec<u8>)>, AllocError>
    ensures { IfOk result (λ read. MatchOption read (IsNoLine place line.now) (λ r.
        line.now ≡ line_text place (record { entry = r.0; payload = r.1.items }))) }
{
    let words = words(alloc, line)?;
    let Some((entry, quoted)) = entry_of(words.as_slice()) else {
        return Ok(None);
    };
    let mut payload = Vec::new(alloc);
    percent_decode(quoted).append_to(&mut payload)?;
    // Words that no entry has may have been accepted, such as numbers with leading zeros. Then the
    // line of what was read differs.
    let written = line_of(alloc, place, entry, payload.as_slice())?;
    if written.as_bytes() != line {
        return Ok(None);
    }
    Ok(Some((entry, payload)))
}
