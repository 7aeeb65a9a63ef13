//! From the bytes of a journal to a page of it.
ghost use Rattle.std.specs.Prelude.{◌≡◌, ◌≤◌, ◌+◌, ℕ, List, IfOk, IsErrOf, Ok, Some, length, take};
ghost use Rattle.text_io.specs.Sources.{HasFailed};
ghost use Rattle.mq_model.specs.Record.{first};
ghost use Rattle.journal_format.specs.JournalFault.{IsAtFault};
ghost use Rattle.journal_format.specs.Lines.{ReadsUpTo};
ghost use Rattle.journal_format.specs.declared.fault.JournalFault.{JournalFault};
ghost use Rattle.journal_format.specs.declared.fault.JournalFault.TheVariants.{BadLine, Input};
ghost use Rattle.journal_views.specs.View.{IsBeyond, IsStateLine, IsTooLong, Views, ViewsInPart, count_viewed, first_viewed, is_beyond};
ghost use Rattle.journal_views.specs.declared.view.Unviewed.TheVariants.{Output, Unread};
ghost use Rattle.journal_views.specs.declared.view.Viewed.TheVariants.{Beyond, TooLong, Written};

use crate::form::Form;
use crate::page::page_of;
use crate::prefix::first_entries;
use crate::state::state_of;
use journal_format::fault::JournalFault;
use journal_format::input::read_input;
use journal_format::lines::MOST_BYTES;
use mq_model::journals::Journal;
use mq_state::replay::replay;
use std::alloc::{AllocError, Global};
use std::io::Write;
use text_io::output::write_all;
use text_io::sources::ByteSource;

/// The maximum number of entries in a page.
const MOST_VIEWED: u64 = 1_000_000;

/// The maximum length of a page, in bytes.
const MOST_PAGE: usize = 25_000_000;

/// Whether a page was written.
#[derive(Clone, Copy, PartialEq, Eq)]
pub enum Viewed {
    /// It was written.
    Written,
    /// It would have too many entries or bytes, and nothing was written.
    TooLong,
    /// It would begin behind the last entry, and nothing was written. The journal has this number of
    /// entries.
    Beyond(u64),
}

/// Why no page was written.
#[derive(Clone, Copy, PartialEq, Eq)]
pub enum Unviewed {
    /// The journal could not be read.
    Unread(JournalFault),
    /// A write failed.
    Output,
}

/// Whether the part of a journal from this sequence number on begins behind the last entry. The
/// part from its start does not, even if it is empty.
pub fn is_beyond(from: u64, journal: &Journal) -> bool
    ensures { result ≡ is_beyond from (length journal.now.records) }
{
    from > 0 && from >= journal.len()
}

// The first sequence number from `from` to `to`, both included, and the number of entries there.
fn cut(from: u64, to: u64, journal: &Journal) -> (u64, u64)
    ensures first { result.0 ≡ first_viewed from to (length journal.now.records) }
    ensures count { result.1 ≡ count_viewed from to (length journal.now.records) }
    ensures inside { result.0 + result.1 ≤ length journal.now.records }
{
    let len = journal.len();
    let end = if to < len { to + 1 } else { len };
    let first = from.min(end);
    (first, end - first)
}

// The line of the state after the first `k` entries, or the line `null` if they are not legal.
fn state_line(alloc: Global, journal: &Journal, k: u64) -> Result<Vec<u8>, AllocError>
    requires { k ≤ length journal.now.records }
    ensures { IfOk result (λ line. IsStateLine (first k journal.now.records) line.items) }
{
    let entries = first_entries(alloc, journal, k)?;
    let found = replay(alloc, &entries)?;
    match found {
        None => {
            let known = state_of(alloc, &entries, Form::Json)?;
            Ok(known)
        }
        Some(_) => {
            let none = Vec::from_slice(alloc, b"null\n")?;
            Ok(none)
        }
    }
}

/// Reads a journal line by line, which need not be legal, and writes a page of its entries from
/// `from` to `to`, both included, with these two parts of a template. The page has the state before
/// these entries, if the entries before them are legal. If there is no entry `from`, nothing is
/// written, unless it is the first of an empty journal.
///
/// - `JournalFault::BadLine`: a line is not that of an entry, or is too long for one, and this is
///   the first one. No read was made after those that returned it. Nothing is written.
/// - `JournalFault::Input`: a read failed. Nothing is written.
/// - `JournalFault::NoMemory`: memory was refused. Nothing is written.
/// - `Unviewed::Output`: a write failed. A proper prefix of the page is written.
pub fn view_journal<R: ByteSource, W: Write>(
    alloc: Global,
    input: &mut R,
    output: &mut W,
    from: u64,
    to: u64,
    head: &[u8],
    tail: &[u8],
) -> Result<Viewed, Unviewed>
    ensures done { (all : List ℕ) → R.remaining input.old ≡ Some all → result ≡ Ok Written →
        Views (take (MOST_BYTES + 1) all) from to head.now tail.now (W.contents output.old)
        (W.contents output.new) }
    ensures too_long { (all : List ℕ) → R.remaining input.old ≡ Some all → result ≡ Ok TooLong →
        IsTooLong (take (MOST_BYTES + 1) all) from to head.now tail.now }
    ensures beyond { (all : List ℕ) (len : ℕ) → R.remaining input.old ≡ Some all →
        result ≡ Ok (Beyond len) → IsBeyond (take (MOST_BYTES + 1) all) from len }
    ensures nothing { (len : ℕ) → result ≡ Ok (Beyond len) →
        W.contents output.new ≡ W.contents output.old }
    ensures not_written { result ≡ Ok TooLong → W.contents output.new ≡ W.contents output.old }
    ensures bad_line { (all : List ℕ) (line : ℕ) → R.remaining input.old ≡ Some all →
        IsErrOf result (Unread (BadLine line)) → IsAtFault line (take (MOST_BYTES + 1) all) }
    ensures soon { (line : ℕ) → IsErrOf result (Unread (BadLine line)) →
        ReadsUpTo line (R.remaining input.old) (R.remaining input.new) }
    ensures output { (all : List ℕ) → R.remaining input.old ≡ Some all →
        IsErrOf result Output → ViewsInPart (take (MOST_BYTES + 1) all) from to head.now tail.now
        (W.contents output.old) (W.contents output.new) }
    ensures unread { (fault : JournalFault) → IsErrOf result (Unread fault) →
        W.contents output.new ≡ W.contents output.old }
    ensures cause { IsErrOf result (Unread Input) → HasFailed (R.failed input.new) }
    ensures well { (IsErrOf result (Unread Input) → ⊥) → R.failed input.new ≡ R.failed input.old }
{
    let journal = match read_input(alloc, input) {
        Ok(journal) => journal,
        Err(fault) => return Err(Unviewed::Unread(fault)),
    };
    if is_beyond(from, &journal) {
        return Ok(Viewed::Beyond(journal.len()));
    }
    let (first, count) = cut(from, to, &journal);
    if count > MOST_VIEWED {
        return Ok(Viewed::TooLong);
    }
    let before = match state_line(alloc, &journal, first) {
        Ok(before) => before,
        Err(_) => return Err(Unviewed::Unread(JournalFault::NoMemory)),
    };
    let page = match page_of(alloc, &before, &journal, first, count, head, tail) {
        Ok(page) => page,
        Err(_) => return Err(Unviewed::Unread(JournalFault::NoMemory)),
    };
    if page.len() > MOST_PAGE {
        return Ok(Viewed::TooLong);
    }
    match write_all(output, page.as_slice()) {
        Ok(()) => Ok(Viewed::Written),
        Err(_) => Err(Unviewed::Output),
    }
}
