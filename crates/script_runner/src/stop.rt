//! Why the phases of a script ended early, with what is left of the system.
ghost use Rattle.std.specs.Prelude.{◌≡◌};
ghost use Rattle.script_runner.specs.declared.stop.Stop.TheVariants.{NoMemory, Output};

use std::alloc::AllocError;
use text_io::output::WriteFailed;

/// Why the phases of a script ended early.
#[derive(Drop)]
pub enum Stop<P> {
    /// The replies could not be written.
    Output,
    /// Memory, or a thread, was refused outside a call.
    NoMemory,
    /// Some of these processes wait for ever, in the calls of these lines.
    Stuck { processes: Vec<P>, lines: Vec<u64> },
}

impl<P: Drop> From<AllocError> for Stop<P> {
    ghost from_gives = { λ _ stop. stop ≡ NoMemory };

    fn from(_refused: AllocError) -> Stop<P> {
        Stop::NoMemory
    }
}

impl<P: Drop> From<WriteFailed> for Stop<P> {
    ghost from_gives = { λ _ stop. stop ≡ Output };

    fn from(_failed: WriteFailed) -> Stop<P> {
        Stop::Output
    }
}
