//! Why a run ended early.
ghost use Rattle.std.specs.Prelude.{◌≡◌, Some};
ghost use Rattle.std.specs.Fmt.{DisplaysOnOk};
ghost use Rattle.script_runner.specs.declared.fault.RunFault.TheVariants.{NoMemory, Output};
ghost use Rattle.script_runner.specs.RunFault.{exit_status, fault_text, of_read_fault, of_script_fault, wait_text, waits_text};

use script_text::fault::ScriptFault;
use std::alloc::{AllocError, AllocFailed};
use std::error::Error;
use std::fmt;
use text_io::input::ReadFault;
use text_io::output::WriteFailed;

/// Why a run ended early. It prints as what the program writes to standard error: one line, or for
/// a deadlock one line for each process that waits.
#[derive(Debug, Drop, PartialEq, Eq)]
pub enum RunFault {
    /// This line of the script, counted from 1, is wrong.
    BadCall(u64),
    /// The script could not be read.
    Input,
    /// The replies could not be written.
    Output,
    /// Memory, or a thread, was refused outside a call; in a run that is noted, also inside a call.
    NoMemory,
    /// The calls in these lines wait for ever: one for each process that waits, in the order of the
    /// processes.
    Deadlock(Vec<u64>),
}

impl RunFault {
    /// The exit status of the program.
    pub fn status(&self) -> u8
        ensures { result ≡ exit_status self.now }
    {
        match self {
            RunFault::BadCall(_) => 2,
            RunFault::Input | RunFault::Output => 3,
            RunFault::NoMemory => 4,
            RunFault::Deadlock(_) => 5,
        }
    }
}

impl fmt::Display for RunFault {
    ghost output = { λ fault. Some (fault_text fault) };

    fn fmt<W: fmt::Write>(&self, f: &mut fmt::Formatter<W>) -> fmt::Result {
        match self {
            RunFault::BadCall(line) => {
                let fault = ScriptFault::BadCall(*line);
                write!(f, "{fault}")
            }
            RunFault::Input => f.write_str("input fault"),
            RunFault::Output => f.write_str("output fault"),
            RunFault::NoMemory => f.write_str("no memory"),
            RunFault::Deadlock(lines) => write_waits(lines, f),
        }
    }
}

// One line for each of these lines of the script, separated by line feeds.
fn write_waits<W: fmt::Write>(lines: &[u64], f: &mut fmt::Formatter<W>) -> fmt::Result
    ensures { DisplaysOnOk W.write_str_gives f.old result (Some (waits_text lines.now)) f.new }
{
    match lines {
        [] => Ok(()),
        [line] => write_wait(*line, f),
        [line, others @ ..] => {
            write_wait(*line, f)?;
            f.write_str("\n")?;
            write_waits(others, f)
        }
    }
}

fn write_wait<W: fmt::Write>(line: u64, f: &mut fmt::Formatter<W>) -> fmt::Result
    ensures { DisplaysOnOk W.write_str_gives f.old result (Some (wait_text line)) f.new }
{
    write!(f, "line {line}: waits for ever")
}

impl Error for RunFault {}

impl From<ReadFault> for RunFault {
    ghost from_gives = { λ read fault. fault ≡ of_read_fault read };

    fn from(fault: ReadFault) -> RunFault {
        match fault {
            ReadFault::Failed => RunFault::Input,
            ReadFault::NoMemory => RunFault::NoMemory,
        }
    }
}

impl From<ScriptFault> for RunFault {
    ghost from_gives = { λ script fault. fault ≡ of_script_fault script };

    fn from(fault: ScriptFault) -> RunFault {
        match fault {
            ScriptFault::BadCall(line) => RunFault::BadCall(line),
            ScriptFault::NoMemory => RunFault::NoMemory,
        }
    }
}

impl From<WriteFailed> for RunFault {
    ghost from_gives = { λ _ fault. fault ≡ Output };

    fn from(_failed: WriteFailed) -> RunFault {
        RunFault::Output
    }
}

impl From<AllocError> for RunFault {
    ghost from_gives = { λ _ fault. fault ≡ NoMemory };

    fn from(_refused: AllocError) -> RunFault {
        RunFault::NoMemory
    }
}

impl<T: Drop> From<AllocFailed<T>> for RunFault {
    ghost from_gives = { λ _ fault. fault ≡ NoMemory };

    fn from(_refused: AllocFailed<T>) -> RunFault {
        RunFault::NoMemory
    }
}
