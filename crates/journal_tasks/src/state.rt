//! From the bytes of a journal to the state after a prefix of it.
ghost use Rattle.std.specs.Prelude.{◌≡◌, ◌+◌, ℕ, List, IfOk, IsErrOf, MatchResult, Some, take};
ghost use Rattle.text_io.specs.Sources.{HasFailed};
ghost use Rattle.journal_format.specs.JournalFault.{IsAtFault};
ghost use Rattle.journal_format.specs.Lines.{ReadsUpTo};
ghost use Rattle.journal_tasks.specs.State.{IsTextOf, LacksState, Tells, TellsInPart};
ghost use Rattle.journal_tasks.specs.declared.fault.LogFault.TheVariants.{BadLine, Input, NoMemory, Output};

use crate::fault::LogFault;
use journal_format::input::read_input;
use journal_format::lines::MOST_BYTES;
use journal_views::{Form, first_entries, state_of};
use mq_model::journals::Journal;
use mq_state::replay::replay;
use std::alloc::{AllocError, Global};
use std::fmt;
use std::io::Write;
use text_io::output::write_all;
use text_io::sources::ByteSource;

/// Which state is wanted: after this number of entries, or after all, and in which form.
#[derive(Clone, Copy)]
pub struct Wanted {
    pub at: Option<u64>,
    pub form: Form,
}

/// The state after all entries, as text.
pub const LAST: Wanted = Wanted {
    at: None,
    form: Form::Text,
};

/// Why a journal does not have the wanted state.
#[derive(Clone, Copy)]
pub enum NoState {
    /// It has only this number of entries.
    Beyond(u64),
    /// The entry with this sequence number is the first that is not legal.
    Illegal(u64),
}

impl fmt::Display for NoState {
    fn fmt<W: fmt::Write>(&self, f: &mut fmt::Formatter<W>) -> fmt::Result {
        match self {
            NoState::Beyond(len) => write!(f, "the journal has {len} entries"),
            NoState::Illegal(place) => {
                write!(f, "entry {place} is not legal: mqlog check says why")
            }
        }
    }
}

/// Reads a journal line by line, and writes the state after its first entries, which must be legal.
/// If there is no such state, it writes nothing and returns the reason.
///
/// - `LogFault::BadLine`: a line is not that of an entry, or is too long for one, and this is the
///   first one. No read was made after those that returned it. Nothing is written.
/// - `LogFault::Input`: a read failed. Nothing is written.
/// - `LogFault::Output`: a write failed. A proper prefix of the state is written.
/// - `LogFault::NoMemory`: memory was refused. Nothing is written.
pub fn state_journal<R: ByteSource, W: Write>(
    alloc: Global,
    input: &mut R,
    output: &mut W,
    wanted: Wanted,
) -> Result<Option<NoState>, LogFault>
    ensures done { (all : List ℕ) → R.remaining input.old ≡ Some all →
        IfOk result (λ why. Tells (take (MOST_BYTES + 1) all) wanted why (W.contents output.old)
        (W.contents output.new)) }
    ensures bad_line { (all : List ℕ) (line : ℕ) → R.remaining input.old ≡ Some all →
        IsErrOf result (BadLine line) → IsAtFault line (take (MOST_BYTES + 1) all) }
    ensures soon { (line : ℕ) → IsErrOf result (BadLine line) →
        ReadsUpTo line (R.remaining input.old) (R.remaining input.new) }
    ensures output { (all : List ℕ) → R.remaining input.old ≡ Some all →
        IsErrOf result Output → TellsInPart (take (MOST_BYTES + 1) all) wanted
        (W.contents output.old) (W.contents output.new) }
    ensures input { IsErrOf result Input → W.contents output.new ≡ W.contents output.old }
    ensures no_memory { IsErrOf result NoMemory → W.contents output.new ≡ W.contents output.old }
    ensures unwritten { (line : ℕ) → IsErrOf result (BadLine line) →
        W.contents output.new ≡ W.contents output.old }
    ensures cause { IsErrOf result Input → HasFailed (R.failed input.new) }
    ensures well { (IsErrOf result Input → ⊥) → R.failed input.new ≡ R.failed input.old }
{
    let journal = read_input(alloc, input)?;
    let told = text_of(alloc, &journal, wanted)?;
    match told {
        Ok(text) => {
            write_all(output, text.as_slice())?;
            Ok(None)
        }
        Err(why) => Ok(Some(why)),
    }
}

// The text of the wanted state, or why there is none. Fails if memory was refused.
fn text_of(
    alloc: Global,
    journal: &Journal,
    wanted: Wanted,
) -> Result<Result<Vec<u8>, NoState>, AllocError>
    ensures { IfOk result (λ r. MatchResult r (λ text. IsTextOf wanted journal.now.records text.items)
        (LacksState wanted journal.now.records)) }
{
    let len = journal.len();
    let count = wanted.at.unwrap_or(len);
    if count > len {
        return Ok(Err(NoState::Beyond(len)));
    }
    let entries = first_entries(alloc, journal, count)?;
    if let Some(departure) = replay(alloc, &entries)? {
        return Ok(Err(NoState::Illegal(departure.place)));
    }
    Ok(Ok(state_of(alloc, &entries, wanted.form)?))
}
