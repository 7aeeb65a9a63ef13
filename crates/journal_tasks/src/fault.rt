//! The errors of the tasks on journals.
ghost use Rattle.std.specs.Prelude.{◌≡◌, Some};
ghost use Rattle.journal_tasks.specs.LogFault.{exit_status, fault_text, of_journal_fault};
ghost use Rattle.journal_tasks.specs.declared.fault.LogFault.TheVariants.{NoMemory, Output};

use history_judge::well_formed::IllFormed;
use journal_format::fault::JournalFault;
use std::alloc::AllocError;
use std::error::Error;
use std::fmt;
use text_io::output::WriteFailed;

/// Why a task on a journal or a history failed. It prints as the line that the program writes to
/// standard error.
#[derive(Clone, Copy, Debug)]
pub enum LogFault {
    /// This line, counted from 1, is the first that is malformed: it is not the line of an entry or
    /// of a call of a history, or is too long for one.
    BadLine(u64),
    /// The call in this line, counted from 1, is the first that makes the history ill-formed.
    IllFormed(u64, IllFormed),
    /// The input could not be read.
    Input,
    /// The output could not be written.
    Output,
    /// Memory was refused.
    NoMemory,
}

impl LogFault {
    /// The exit status of the program.
    pub fn status(self) -> u8
        ensures { result ≡ exit_status self }
    {
        match self {
            LogFault::BadLine(_) | LogFault::IllFormed(_, _) => 2,
            LogFault::Input | LogFault::Output => 3,
            LogFault::NoMemory => 4,
        }
    }
}

impl fmt::Display for LogFault {
    ghost output = { λ fault. Some (fault_text fault) };

    fn fmt<W: fmt::Write>(&self, f: &mut fmt::Formatter<W>) -> fmt::Result {
        match self {
            LogFault::BadLine(line) => {
                let fault = JournalFault::BadLine(*line);
                write!(f, "{fault}")
            }
            LogFault::IllFormed(line, why) => write!(f, "line {line}: {why}"),
            LogFault::Input => f.write_str("input fault"),
            LogFault::Output => f.write_str("output fault"),
            LogFault::NoMemory => f.write_str("no memory"),
        }
    }
}

impl Error for LogFault {}

impl From<JournalFault> for LogFault {
    ghost from_gives = { λ journal fault. fault ≡ of_journal_fault journal };

    fn from(fault: JournalFault) -> LogFault {
        match fault {
            JournalFault::BadLine(line) => LogFault::BadLine(line),
            JournalFault::Input => LogFault::Input,
            JournalFault::NoMemory => LogFault::NoMemory,
        }
    }
}

impl From<WriteFailed> for LogFault {
    ghost from_gives = { λ _ fault. fault ≡ Output };

    fn from(_failed: WriteFailed) -> LogFault {
        LogFault::Output
    }
}

impl From<AllocError> for LogFault {
    ghost from_gives = { λ _ fault. fault ≡ NoMemory };

    fn from(_refused: AllocError) -> LogFault {
        LogFault::NoMemory
    }
}
