//! Why a journal was not read.
ghost use Rattle.std.specs.Prelude.{◌≡◌, Some};
ghost use Rattle.journal_format.specs.JournalFault.{journal_fault_text};
ghost use Rattle.journal_format.specs.declared.fault.JournalFault.TheVariants.{NoMemory};

use std::alloc::AllocError;
use std::error::Error;
use std::fmt;

/// Why a journal was not read.
#[derive(Clone, Copy, Debug, PartialEq, Eq)]
pub enum JournalFault {
    /// This line, counted from 1, is the first that is not the line of an entry with the next
    /// sequence number, or of a call of a history. A line of an input may also be too long for one.
    BadLine(u64),
    /// A read failed, with whatever error. An interrupted read is not tried again.
    Input,
    /// Memory was refused.
    NoMemory,
}

impl fmt::Display for JournalFault {
    ghost output = { λ fault. Some (journal_fault_text fault) };

    fn fmt<W: fmt::Write>(&self, f: &mut fmt::Formatter<W>) -> fmt::Result {
        match self {
            JournalFault::BadLine(line) => write!(f, "line {line}: no entry"),
            JournalFault::Input => f.write_str("a read failed"),
            JournalFault::NoMemory => f.write_str("no memory"),
        }
    }
}

impl Error for JournalFault {}

impl From<AllocError> for JournalFault {
    ghost from_gives = { λ _ fault. fault ≡ NoMemory };

    fn from(_refused: AllocError) -> JournalFault {
        JournalFault::NoMemory
    }
}
