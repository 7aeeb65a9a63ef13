//! Why a script was not read.
ghost use Rattle.std.specs.Prelude.{◌≡◌, Some};
ghost use Rattle.script_text.specs.ScriptFault.{script_fault_text};
ghost use Rattle.script_text.specs.declared.fault.ScriptFault.TheVariants.{NoMemory};

use std::alloc::AllocError;
use std::error::Error;
use std::fmt;

/// Why a script was not read.
#[derive(Clone, Copy, Debug, PartialEq, Eq)]
pub enum ScriptFault {
    /// This line of the script, counted from 1, is wrong.
    BadCall(u64),
    /// Memory was refused.
    NoMemory,
}

impl fmt::Display for ScriptFault {
    ghost output = { λ fault. Some (script_fault_text fault) };

    fn fmt<W: fmt::Write>(&self, f: &mut fmt::Formatter<W>) -> fmt::Result {
        match self {
            ScriptFault::BadCall(line) => write!(f, "line {line}: bad call"),
            ScriptFault::NoMemory => f.write_str("no memory"),
        }
    }
}

impl Error for ScriptFault {}

impl From<AllocError> for ScriptFault {
    ghost from_gives = { λ _ fault. fault ≡ NoMemory };

    fn from(_refused: AllocError) -> ScriptFault {
        ScriptFault::NoMemory
    }
}
