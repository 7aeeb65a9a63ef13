//! The text of a journal.
ghost use Rattle.std.specs.Prelude.{◌≡◌, ◌<◌, ◌≤◌, ◌+◌, ◌^◌, ◌++◌, ◌∷◌, [], ℕ, List, false, IfOk, IsErrOf, MatchResult, OnOk, length};
ghost use Rattle.mq_model.specs.Record.{Past, Record};
ghost use Rattle.journal_format.specs.Fitting.{AllFit, Fits};
ghost use Rattle.journal_format.specs.JournalFault.{StopsAt};
ghost use Rattle.journal_format.specs.Text.{has_feed, journal_text, line_text};
ghost use Rattle.journal_format.specs.declared.fault.JournalFault.TheVariants.{BadLine, Input, NoMemory};

use crate::fault::JournalFault;
use crate::fitting::fits;
use crate::line::{line_of, read_line};
use crate::lines::MOST_LINE;
use mq_model::entries::Entry;
use mq_model::journals::Journal;
use script_text::line::first_line;
use std::alloc::{AllocError, Global};

/// The text of a journal. Its numbers fit their types, so `read_journal` returns the same journal.
/// Fails if memory was refused.
pub fn write_journal(alloc: Global, journal: &Journal) -> Result<Vec<u8>, AllocError>
    ensures text { IfOk result (λ text. text.items ≡ journal_text journal.now.records) }
    ensures fits { OnOk result (AllFit journal.now.records) }
{
    let mut text = Vec::new(alloc);
    for place in 0..journal.len() {
        let (entry, payload) = journal.record(place);
        push_line(alloc, &mut text, place, entry, payload)?;
    }
    Ok(text)
}

// Appends the line of an entry with its payload.
fn push_line(
    alloc: Global,
    text: &mut Vec<u8>,
    place: u64,
    entry: Entry,
    payload: &[u8],
) -> Result<(), AllocError>
    ensures line { OnOk result (text.new.items ≡ text.old.items ++
        line_text place (record { entry = entry; payload = payload.now })) }
    ensures fits { Fits (record { entry = entry; payload = payload.now }) }
{
    fits(entry, payload);
    let line = line_of(alloc, place, entry, payload)?;
    text.extend_from_slice(line.as_bytes())
}

/// The journal with this text. `JournalFault::BadLine`: this line, counted from 1, is the first
/// that is not the line of an entry with the next sequence number. A last line without a line feed
/// is not a line.
pub fn read_journal(alloc: Global, text: &[u8]) -> Result<Journal, JournalFault>
    // The text of the journal that is read is this one.
    ensures found { IfOk result (λ journal. AllFit journal.records ×
        (text.now ≡ journal_text journal.records)) }
    // If this is the text of a journal, that journal is read, unless memory is refused.
    ensures only { (past : Past) → AllFit past → text.now ≡ journal_text past →
        MatchResult result (λ journal. journal.records ≡ past) (λ fault. fault ≡ NoMemory) }
    // The line in the error is the first bad one.
    ensures bad_line { (line : ℕ) → IsErrOf result (BadLine line) → StopsAt line text.now }
    ensures no_input { IsErrOf result Input → ⊥ }
{
    let mut journal = Journal::new(alloc);
    match read_lines(alloc, &mut journal, text) {
        Ok(rest) => whole(journal, rest),
        Err(fault) => Err(fault),
    }
}

/// Parses the lines at the start of a text, appends them to a journal, and returns what follows the
/// last line feed. `JournalFault::BadLine`: this line, counted from the start of the journal, is
/// the first that is not the line of an entry with the next sequence number, whatever follows.
pub fn read_lines<'t>(
    alloc: Global,
    journal: &mut Journal,
    text: &'t [u8],
) -> Result<&'t [u8], JournalFault>
    requires fits { AllFit journal.old.records }
    ensures fits { OnOk result (AllFit journal.new.records) }
    ensures lines { IfOk result (λ rest. journal_text journal.old.records ++ text.now ≡
        journal_text journal.new.records ++ rest.now) }
    ensures rest { IfOk result (λ rest. has_feed rest.now ≡ false) }
    ensures number { (line : ℕ) → IsErrOf result (BadLine line) → line ≤ 2 ^ 63 }
    ensures later { (line : ℕ) → IsErrOf result (BadLine line) → length journal.old.records < line }
    ensures bad_line { (line : ℕ) → IsErrOf result (BadLine line) → (more : List ℕ) →
        StopsAt line (journal_text journal.old.records ++ (text.now ++ more)) }
    ensures no_input { IsErrOf result Input → ⊥ }
{
    let mut rest = text;
    'lines: while rest.contains(&b'\n') {
        let (line, others) = first_line(rest);
        let Some((entry, payload)) = read_line(alloc, journal.len(), line)? else {
            return Err(JournalFault::BadLine(journal.len() + 1));
        };
        add_entry(journal, entry, payload.as_slice())?;
        rest = others;
    }
    Ok(rest)
}

/// A journal that was read, if nothing follows its last line. `JournalFault::BadLine`: something
/// does.
pub fn whole(journal: Journal, rest: &[u8]) -> Result<Journal, JournalFault>
    requires fits { AllFit journal.records }
    requires rest { has_feed rest.now ≡ false }
    ensures whole { IfOk result (λ read. (read ≡ journal) × (rest.now ≡ [])) }
    ensures few { IfOk result (λ read. length read.records < 2 ^ 63) }
    ensures number { (line : ℕ) → IsErrOf result (BadLine line) → line ≤ 2 ^ 63 }
    ensures next { (line : ℕ) → IsErrOf result (BadLine line) → line ≡ length journal.records + 1 }
    ensures bad_line { (line : ℕ) → IsErrOf result (BadLine line) →
        StopsAt line (journal_text journal.records ++ rest.now) }
    ensures fault { IsErrOf result NoMemory → ⊥ }
    ensures no_input { IsErrOf result Input → ⊥ }
{
    let len = journal.len();
    if rest.is_empty() {
        Ok(journal)
    } else {
        Err(JournalFault::BadLine(len + 1))
    }
}

/// Journals with the same text are equal. The function does nothing: its contract is the law.
pub fn one_text()
    ensures { (a b : Past) → AllFit a → AllFit b → length b < 2 ^ 64 →
        journal_text a ≡ journal_text b → a ≡ b }
{}

/// If the name or the message of an entry has at most 65,536 bytes, its line is not longer than
/// what is read. The function does nothing: its contract is the law.
pub fn lines_are_short()
    ensures { (place : ℕ) (r : Record) → place < 2 ^ 64 → Fits r → length r.payload ≤ 2 ^ 16 →
        length (line_text place r) ≤ MOST_LINE }
{}

// Appends an entry with its payload.
fn add_entry(journal: &mut Journal, entry: Entry, payload: &[u8]) -> Result<(), AllocError>
    ensures records { OnOk result (journal.new.records ≡
        record { entry = entry; payload = payload.now } ∷ journal.old.records) }
    ensures fits { Fits (record { entry = entry; payload = payload.now }) }
{
    fits(entry, payload);
    journal.reserve(1, payload.len())?;
    journal.push(entry, payload);
    Ok(())
}
