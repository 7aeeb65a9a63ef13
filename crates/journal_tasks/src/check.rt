//! From the bytes of a journal to the verdict on it.
ghost use Rattle.std.specs.Prelude.{◌≡◌, ◌+◌, ℕ, List, IfOk, IsErrOf, Some, take};
ghost use Rattle.text_io.specs.Sources.{HasFailed};
ghost use Rattle.journal_format.specs.JournalFault.{IsAtFault};
ghost use Rattle.journal_format.specs.Lines.{ReadsUpTo};
ghost use Rattle.journal_tasks.specs.Verdict.{Checks, StopsInVerdict};
ghost use Rattle.journal_tasks.specs.declared.fault.LogFault.TheVariants.{BadLine, Input, NoMemory, Output};

use crate::fault::LogFault;
use crate::verdict::{Verdict, verdict_of, verdict_text};
use journal_format::input::read_input;
use journal_format::lines::MOST_BYTES;
use std::alloc::Global;
use std::io::Write;
use text_io::output::write_all;
use text_io::sources::ByteSource;

/// Reads a journal line by line, checks it, and writes a line with the number of its entries,
/// processes and queues, or the first entry that is not legal and why.
///
/// - `LogFault::BadLine`: a line is not that of an entry, or is too long for one, and this is the
///   first one. No read was made after those that returned it. Nothing is written.
/// - `LogFault::Input`: a read failed. Nothing is written.
/// - `LogFault::Output`: a write failed. A prefix of the verdict is written.
/// - `LogFault::NoMemory`: memory was refused. Nothing is written.
pub fn check_journal<R: ByteSource, W: Write>(
    alloc: Global,
    input: &mut R,
    output: &mut W,
) -> Result<Verdict, LogFault>
    ensures done { (all : List ℕ) → R.remaining input.old ≡ Some all →
        IfOk result (λ verdict. Checks (take (MOST_BYTES + 1) all) verdict (W.contents output.old)
        (W.contents output.new)) }
    ensures bad_line { (all : List ℕ) (line : ℕ) → R.remaining input.old ≡ Some all →
        IsErrOf result (BadLine line) → IsAtFault line (take (MOST_BYTES + 1) all) }
    ensures soon { (line : ℕ) → IsErrOf result (BadLine line) →
        ReadsUpTo line (R.remaining input.old) (R.remaining input.new) }
    ensures input { IsErrOf result Input → W.contents output.new ≡ W.contents output.old }
    ensures no_memory { IsErrOf result NoMemory → W.contents output.new ≡ W.contents output.old }
    ensures unwritten { (line : ℕ) → IsErrOf result (BadLine line) →
        W.contents output.new ≡ W.contents output.old }
    ensures output { (all : List ℕ) → R.remaining input.old ≡ Some all →
        IsErrOf result Output → StopsInVerdict (take (MOST_BYTES + 1) all) (W.contents output.old)
        (W.contents output.new) }
    ensures cause { IsErrOf result Input → HasFailed (R.failed input.new) }
    ensures well { (IsErrOf result Input → ⊥) → R.failed input.new ≡ R.failed input.old }
{
    let journal = read_input(alloc, input)?;
    let verdict = verdict_of(alloc, &journal)?;
    let line = verdict_text(alloc, &journal, verdict)?;
    write_all(output, line.as_bytes())?;
    Ok(verdict)
}
