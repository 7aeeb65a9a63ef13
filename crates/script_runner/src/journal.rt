//! From the bytes of a script to the journal of its calls.
ghost use Rattle.std.specs.Prelude.{◌≡◌, ◌+◌, ℕ, List, IfOk, IsErrOf, Some, Ok, Err, take};
ghost use Rattle.text_io.specs.Sources.{HasFailed};
ghost use Rattle.mq_model.specs.Legality.{Legal};
ghost use Rattle.script_runner.specs.RunFault.{StopsAt};
ghost use Rattle.script_runner.specs.Notes.{RunsServed};
ghost use Rattle.script_text.specs.Script.{Whole, script_written};
ghost use Rattle.script_runner.specs.declared.fault.RunFault.TheVariants.{BadCall, Input, Output};
ghost use Rattle.script_runner.specs.declared.noted.Noted.{Noted};

use crate::fault::RunFault;
use crate::gate::Gate;
use crate::noting::run_noted;
use fast_mutex::Look;
use mq::Guarded;
use mq_model::journals::Journal;
use script_text::script::{MOST_BYTES, read_script};
use std::alloc::Global;
use std::sync::Wait;
use std::thread::Threads;
use std::time::Clock;
use text_io::input::read_all;
use text_io::sources::ByteSource;

/// Runs a script as `run_script` does, and returns the journal of its calls instead of writing the
/// replies. Fails as `run_script`, but never with `RunFault::Output`, since nothing is written. It
/// also fails with `RunFault::NoMemory` if a call failed with `NoMemory`.
pub fn script_journal<L, S, R, G>(
    rt: &S,
    alloc: Global,
    input: &mut R,
    gate: &G,
) -> Result<Journal, RunFault>
where
    L: Look<Guarded> + Sync,
    L::Seat: Send,
    L::Walk: Send,
    S: Threads + Wait + Clock + Sync,
    R: ByteSource,
    G: Gate + Sync,
    ensures legal { IfOk result (λ journal. Legal journal.records) }
    ensures bad_call { (all : List ℕ) (line : ℕ) → R.remaining input.old ≡ Some all →
        script_written (take (MOST_BYTES + 1) all) ≡ Err line → StopsAt line result }
    ensures bad_call_only { (all : List ℕ) (line : ℕ) → R.remaining input.old ≡ Some all →
        IsErrOf result (BadCall line) → script_written (take (MOST_BYTES + 1) all) ≡ Err line }
    ensures unwritten { IsErrOf result Output → ⊥ }
    ensures done { (all : List ℕ) (script : Whole) → R.remaining input.old ≡ Some all →
        script_written (take (MOST_BYTES + 1) all) ≡ Ok script →
        IfOk result (λ journal. (noted : List Noted) × RunsServed script noted journal.records) }
    ensures cause { IsErrOf result Input → HasFailed (R.failed input.new) }
    ensures well { (IsErrOf result Input → ⊥) → R.failed input.new ≡ R.failed input.old }
{
    let text = read_all(alloc, input, MOST_BYTES)?;
    let script = read_script(alloc, text.as_slice())?;
    let mut noted = Vec::new(alloc);
    run_noted::<L, S, G>(rt, alloc, &script, gate, &mut noted)
}
