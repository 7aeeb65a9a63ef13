//! Why an exploration ended early.
ghost use Rattle.std.specs.Prelude.{◌≡◌};
ghost use Rattle.exploration.specs.declared.fault.Fault.TheVariants.{NoMemory};

use std::alloc::AllocError;
use std::error::Error;
use std::fmt;

/// Why a search ends without an answer.
#[derive(Clone, Copy, Debug, PartialEq, Eq)]
pub enum Fault {
    /// This line of the input, counted from 1, is not one of the protocol, or is out of place.
    Malformed { line: u64 },
    /// The input ended within a trace.
    Ended,
    /// A run did not take the given choices, or has a step that is not possible.
    Unfit,
    /// A run has too many steps, or a step too many choices.
    TooLarge,
    Input,
    Output,
    NoMemory,
}

impl fmt::Display for Fault {
    fn fmt<W: fmt::Write>(&self, f: &mut fmt::Formatter<W>) -> fmt::Result {
        match self {
            Fault::Malformed { line } => write!(f, "line {line} is malformed or out of place"),
            Fault::Ended => f.write_str("the input ended within a run"),
            Fault::Unfit => f.write_str("a run did not take its choices"),
            Fault::TooLarge => f.write_str("a run is too large"),
            Fault::Input => f.write_str("a read failed"),
            Fault::Output => f.write_str("a write failed"),
            Fault::NoMemory => f.write_str("no memory"),
        }
    }
}

impl Error for Fault {}

impl From<AllocError> for Fault {
    ghost from_gives = { λ _ fault. fault ≡ NoMemory };

    fn from(_refused: AllocError) -> Fault {
        Fault::NoMemory
    }
}
