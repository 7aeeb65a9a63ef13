//! From the bytes of a journal to a short one that leaves an equivalent state.
ghost use Rattle.std.specs.Prelude.{◌≡◌, ◌+◌, ℕ, List, IfOk, IsErrOf, MatchResult, Some, take};
ghost use Rattle.text_io.specs.Sources.{HasFailed};
ghost use Rattle.mq_equivalence.specs.Equivalence.{Equivalent};
ghost use Rattle.journal_format.specs.JournalFault.{IsAtFault};
ghost use Rattle.journal_format.specs.Lines.{ReadsUpTo};
ghost use Rattle.journal_tasks.specs.Compact.{Compacts, CompactsInPart, Explains};
ghost use Rattle.journal_tasks.specs.declared.fault.LogFault.TheVariants.{BadLine, Input, NoMemory, Output};

use crate::fault::LogFault;
use journal_format::input::read_input;
use journal_format::lines::MOST_BYTES;
use journal_format::text::write_journal;
use mq_equivalence::short::equivalent_short;
use mq_model::journals::Journal;
use mq_model::limits::PROCESSES;
use mq_state::books::Books;
use mq_state::replay::replay;
use mq_state::rewriting::Unwritten;
use std::alloc::{AllocError, Global};
use std::fmt;
use std::io::Write;
use text_io::output::write_all;
use text_io::sources::ByteSource;

/// Why there is no short journal.
#[derive(Clone, Copy)]
pub enum NoShort {
    /// The entry with this sequence number is the first that is not legal.
    Illegal(u64),
    /// A process has not collected a wait that is served.
    Served,
    /// The new journal is not equivalent, or a call in it got another reply than needed. Neither is
    /// known to happen.
    Unexpected,
}

impl fmt::Display for NoShort {
    fn fmt<W: fmt::Write>(&self, f: &mut fmt::Formatter<W>) -> fmt::Result {
        match self {
            NoShort::Illegal(place) => {
                write!(f, "entry {place} is not legal: mqlog check says why")
            }
            NoShort::Served => f.write_str(
                "a wait is served and not collected: add the collect of its process",
            ),
            NoShort::Unexpected => f.write_str("no short journal was found"),
        }
    }
}

/// Reads a journal line by line, and writes a short one that leaves an equivalent state. If there
/// is none, it writes nothing and returns the reason.
///
/// - `LogFault::BadLine`: a line is not that of an entry, or is too long for one, and this is the
///   first one. No read was made after those that returned it. Nothing is written.
/// - `LogFault::Input`: a read failed. Nothing is written.
/// - `LogFault::Output`: a write failed. A prefix of a short journal is written.
/// - `LogFault::NoMemory`: memory was refused. Nothing is written.
pub fn compact_journal<R: ByteSource, W: Write>(
    alloc: Global,
    input: &mut R,
    output: &mut W,
) -> Result<Option<NoShort>, LogFault>
    ensures done { (all : List ℕ) → R.remaining input.old ≡ Some all →
        IfOk result (λ why. Compacts (take (MOST_BYTES + 1) all) why (W.contents output.old)
        (W.contents output.new)) }
    ensures bad_line { (all : List ℕ) (line : ℕ) → R.remaining input.old ≡ Some all →
        IsErrOf result (BadLine line) → IsAtFault line (take (MOST_BYTES + 1) all) }
    ensures soon { (line : ℕ) → IsErrOf result (BadLine line) →
        ReadsUpTo line (R.remaining input.old) (R.remaining input.new) }
    ensures output { IsErrOf result Output →
        CompactsInPart (W.contents output.old) (W.contents output.new) }
    ensures input { IsErrOf result Input → W.contents output.new ≡ W.contents output.old }
    ensures no_memory { IsErrOf result NoMemory → W.contents output.new ≡ W.contents output.old }
    ensures unwritten { (line : ℕ) → IsErrOf result (BadLine line) →
        W.contents output.new ≡ W.contents output.old }
    ensures cause { IsErrOf result Input → HasFailed (R.failed input.new) }
    ensures well { (IsErrOf result Input → ⊥) → R.failed input.new ≡ R.failed input.old }
{
    let journal = read_input(alloc, input)?;
    match short_of(alloc, journal)? {
        Ok(short) => {
            let text = write_journal(alloc, &short)?;
            write_all(output, text.as_slice())?;
            Ok(None)
        }
        Err(why) => Ok(Some(why)),
    }
}

// A short journal in place of this one, or why there is none. Fails if memory was refused.
fn short_of(alloc: Global, journal: Journal) -> Result<Result<Journal, NoShort>, AllocError>
    ensures { IfOk result (λ r. MatchResult r
        (λ short. Equivalent journal.records short.records) (Explains journal.records)) }
{
    if let Some(departure) = replay(alloc, &journal)? {
        return Ok(Err(NoShort::Illegal(departure.place)));
    }
    let Ok(books) = Books::resume(alloc, PROCESSES, journal) else {
        return Err(AllocError);
    };
    match equivalent_short(alloc, &books) {
        Ok(short) => Ok(Ok(short)),
        Err(Unwritten::NoMemory) => Err(AllocError),
        Err(Unwritten::Answered) => Ok(Err(NoShort::Served)),
        Err(Unwritten::Unexpected) => Ok(Err(NoShort::Unexpected)),
    }
}
