//! Reading a journal as text from an input, line by line.
ghost use Rattle.std.specs.Prelude.{◌≡◌, ◌<◌, ◌≤◌, ◌+◌, ◌^◌, ◌++◌, ℕ, List, false, IfOk, IsErrOf, OnOk, Some, length, take};
ghost use Rattle.journal_format.specs.Fitting.{AllFit};
ghost use Rattle.journal_format.specs.JournalFault.{IsAtFault, StopsAt};
ghost use Rattle.journal_format.specs.Lines.{ReadsUpTo};
ghost use Rattle.text_io.specs.Sources.{HasFailed};
ghost use Rattle.journal_format.specs.Text.{has_feed, journal_text};
ghost use Rattle.journal_format.specs.declared.fault.JournalFault.TheVariants.{BadLine, Input};

use crate::fault::JournalFault;
use crate::lines::{Lines, MOST_BYTES};
use crate::text::{read_lines, whole};
use mq_model::journals::Journal;
use std::alloc::Global;
use text_io::sources::ByteSource;

/// The journal whose text the input has; of a longer input only the first 2^40 + 1 bytes are read.
/// Each line is parsed as soon as it is read, and no text is kept except the last line until its
/// line feed.
///
/// - `JournalFault::BadLine`: this line, counted from 1, is the first that is not the line of an
///   entry with the next sequence number, or it has no line feed within `MOST_LINE` bytes. No read
///   was made after those that returned it.
/// - `JournalFault::Input`: a read failed.
pub fn read_input<R: ByteSource>(alloc: Global, input: &mut R) -> Result<Journal, JournalFault>
    ensures found { (all : List ℕ) → R.remaining input.old ≡ Some all →
        IfOk result (λ journal. AllFit journal.records ×
        (take (MOST_BYTES + 1) all ≡ journal_text journal.records)) }
    ensures soon { (line : ℕ) → IsErrOf result (BadLine line) →
        ReadsUpTo line (R.remaining input.old) (R.remaining input.new) }
    ensures bad_line { (all : List ℕ) (line : ℕ) → R.remaining input.old ≡ Some all →
        IsErrOf result (BadLine line) → IsAtFault line (take (MOST_BYTES + 1) all) }
    ensures cause { IsErrOf result Input → HasFailed (R.failed input.new) }
    ensures well { (IsErrOf result Input → ⊥) → R.failed input.new ≡ R.failed input.old }
{
    let mut journal = Journal::new(alloc);
    let mut lines = Lines::new(alloc);
    'lines: while lines.come(input)? {
        take_in(alloc, &mut journal, &mut lines.rest)?;
    }
    whole(journal, lines.rest.as_slice())
}

// Parses the lines in `rest` and appends them to the journal. What follows the last line feed stays
// in `rest`.
fn take_in(alloc: Global, journal: &mut Journal, rest: &mut Vec<u8>) -> Result<(), JournalFault>
    requires fits { AllFit journal.old.records }
    ensures fits { OnOk result (AllFit journal.new.records) }
    ensures rest { OnOk result (has_feed rest.new.items ≡ false) }
    ensures lines { OnOk result (journal_text journal.old.records ++ rest.old.items ≡
        journal_text journal.new.records ++ rest.new.items) }
    ensures number { (line : ℕ) → IsErrOf result (BadLine line) → line ≤ 2 ^ 63 }
    ensures later { (line : ℕ) → IsErrOf result (BadLine line) → length journal.old.records < line }
    ensures bad_line { (line : ℕ) → IsErrOf result (BadLine line) → (more : List ℕ) →
        StopsAt line (journal_text journal.old.records ++ (rest.old.items ++ more)) }
    ensures no_input { IsErrOf result Input → ⊥ }
{
    let mut others = Vec::new(alloc);
    others.extend_from_slice(read_lines(alloc, journal, rest.as_slice())?)?;
    *rest = others;
    Ok(())
}
