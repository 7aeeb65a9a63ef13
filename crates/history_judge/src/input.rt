//! Reading a history as text from an input, line by line.
ghost use Rattle.std.specs.Prelude.{◌≡◌, ◌<◌, ◌+◌, ◌++◌, ℕ, List, false, IfOk, IsErrOf, OnOk, Some, length, take};
ghost use Rattle.journal_format.specs.Lines.{ReadsUpTo};
ghost use Rattle.text_io.specs.Sources.{HasFailed};
ghost use Rattle.journal_format.specs.Text.{has_feed};
ghost use Rattle.journal_format.specs.declared.fault.JournalFault.TheVariants.{BadLine, Input};
ghost use Rattle.history_judge.specs.Fitting.{AllFit};
ghost use Rattle.history_judge.specs.HistoryFault.{IsAtFault, StopsAt};
ghost use Rattle.history_judge.specs.Text.{history_text};

use crate::line::Called;
use crate::text::{read_lines, whole};
use journal_format::fault::JournalFault;
use journal_format::lines::{Lines, MOST_BYTES};
use std::alloc::Global;
use text_io::sources::ByteSource;

/// The calls whose text the input has; of a longer input only the first 2^40 + 1 bytes are read.
/// Each line is parsed as soon as it is read, and no text is kept except the last line until its
/// line feed.
///
/// - `JournalFault::BadLine`: this line, counted from 1, is the first that is not the line of a
///   call of a process from 1 to 32, or it has no line feed within `MOST_LINE` bytes. No read was
///   made after those that returned it.
/// - `JournalFault::Input`: a read failed.
pub fn read_input<R: ByteSource>(alloc: Global, input: &mut R) -> Result<Vec<Called>, JournalFault>
    ensures found { (all : List ℕ) → R.remaining input.old ≡ Some all →
        IfOk result (λ calls. take (MOST_BYTES + 1) all ≡ history_text calls.items) }
    ensures fits { IfOk result (λ calls. AllFit calls.items) }
    ensures soon { (line : ℕ) → IsErrOf result (BadLine line) →
        ReadsUpTo line (R.remaining input.old) (R.remaining input.new) }
    ensures bad_line { (all : List ℕ) (line : ℕ) → R.remaining input.old ≡ Some all →
        IsErrOf result (BadLine line) → IsAtFault line (take (MOST_BYTES + 1) all) }
    ensures cause { IsErrOf result Input → HasFailed (R.failed input.new) }
    ensures well { (IsErrOf result Input → ⊥) → R.failed input.new ≡ R.failed input.old }
{
    let mut calls: Vec<Called> = Vec::new(alloc);
    let mut lines = Lines::new(alloc);
    'lines: while lines.come(input)? {
        take_in(alloc, &mut calls, &mut lines.rest)?;
    }
    whole(calls, lines.rest.as_slice())
}

// Parses the lines in `rest` and appends their calls. What follows the last line feed stays in
// `rest`.
fn take_in(alloc: Global, calls: &mut Vec<Called>, rest: &mut Vec<u8>) -> Result<(), JournalFault>
    requires fits { AllFit calls.old.items }
    ensures fits { OnOk result (AllFit calls.new.items) }
    ensures rest { OnOk result (has_feed rest.new.items ≡ false) }
    ensures lines { OnOk result (history_text calls.old.items ++ rest.old.items ≡
        history_text calls.new.items ++ rest.new.items) }
    ensures later { (line : ℕ) → IsErrOf result (BadLine line) → length calls.old.items < line }
    ensures bad_line { (line : ℕ) → IsErrOf result (BadLine line) → (more : List ℕ) →
        StopsAt line (history_text calls.old.items ++ (rest.old.items ++ more)) }
    ensures no_input { IsErrOf result Input → ⊥ }
{
    let mut others = Vec::new(alloc);
    others.extend_from_slice(read_lines(alloc, calls, rest.as_slice())?)?;
    *rest = others;
    Ok(())
}
