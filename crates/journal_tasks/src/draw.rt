//! From the bytes of a journal to a picture of it.
ghost use Rattle.std.specs.Prelude.{◌≡◌, ◌+◌, ℕ, List, IsErrOf, Ok, Some, take};
ghost use Rattle.text_io.specs.Sources.{HasFailed};
ghost use Rattle.journal_format.specs.JournalFault.{IsAtFault};
ghost use Rattle.journal_format.specs.Lines.{ReadsUpTo};
ghost use Rattle.journal_views.specs.View.{IsBeyond};
ghost use Rattle.journal_tasks.specs.Window.{Draws, DrawsInPart};
ghost use Rattle.journal_tasks.specs.declared.fault.LogFault.TheVariants.{BadLine, Input, NoMemory, Output};
ghost use Rattle.journal_tasks.specs.declared.draw.Drawn.TheVariants.{Beyond, Written};

use crate::fault::LogFault;
use crate::window::{Window, shown};
use journal_format::input::read_input;
use journal_format::lines::MOST_BYTES;
use journal_views::{is_beyond, picture_of};
use std::alloc::Global;
use std::io::Write;
use text_io::output::write_all;
use text_io::sources::ByteSource;

/// Whether a picture was written.
#[derive(Clone, Copy, PartialEq, Eq)]
pub enum Drawn {
    /// It was written.
    Written,
    /// It would begin behind the last entry, and nothing was written. The journal has this number of
    /// entries.
    Beyond(u64),
}

/// Reads a journal line by line, which need not be legal, and writes a picture of its entries in
/// the window, at most the first 2,000 of these. If the journal has no entry where the window
/// begins, nothing is written, unless that is the first of an empty journal.
///
/// - `LogFault::BadLine`: a line is not that of an entry, or is too long for one, and this is the
///   first one. No read was made after those that returned it. Nothing is written.
/// - `LogFault::Input`: a read failed. Nothing is written.
/// - `LogFault::Output`: a write failed. A proper prefix of the picture is written.
/// - `LogFault::NoMemory`: memory was refused. Nothing is written.
pub fn draw_journal<R: ByteSource, W: Write>(
    alloc: Global,
    input: &mut R,
    output: &mut W,
    window: Window,
) -> Result<Drawn, LogFault>
    ensures done { (all : List ℕ) → R.remaining input.old ≡ Some all →
        result ≡ Ok Written → Draws (take (MOST_BYTES + 1) all) window (W.contents output.old)
        (W.contents output.new) }
    ensures beyond { (all : List ℕ) (len : ℕ) → R.remaining input.old ≡ Some all →
        result ≡ Ok (Beyond len) → IsBeyond (take (MOST_BYTES + 1) all) window.from len }
    ensures nothing { (len : ℕ) → result ≡ Ok (Beyond len) →
        W.contents output.new ≡ W.contents output.old }
    ensures bad_line { (all : List ℕ) (line : ℕ) → R.remaining input.old ≡ Some all →
        IsErrOf result (BadLine line) → IsAtFault line (take (MOST_BYTES + 1) all) }
    ensures soon { (line : ℕ) → IsErrOf result (BadLine line) →
        ReadsUpTo line (R.remaining input.old) (R.remaining input.new) }
    ensures output { (all : List ℕ) → R.remaining input.old ≡ Some all →
        IsErrOf result Output → DrawsInPart (take (MOST_BYTES + 1) all) window
        (W.contents output.old) (W.contents output.new) }
    ensures input { IsErrOf result Input → W.contents output.new ≡ W.contents output.old }
    ensures no_memory { IsErrOf result NoMemory → W.contents output.new ≡ W.contents output.old }
    ensures unwritten { (line : ℕ) → IsErrOf result (BadLine line) →
        W.contents output.new ≡ W.contents output.old }
    ensures cause { IsErrOf result Input → HasFailed (R.failed input.new) }
    ensures well { (IsErrOf result Input → ⊥) → R.failed input.new ≡ R.failed input.old }
{
    let journal = read_input(alloc, input)?;
    if is_beyond(window.from, &journal) {
        return Ok(Drawn::Beyond(journal.len()));
    }
    let (from, count) = shown(window, &journal);
    let picture = picture_of(alloc, &journal, from, count)?;
    write_all(output, picture.as_slice())?;
    Ok(Drawn::Written)
}
