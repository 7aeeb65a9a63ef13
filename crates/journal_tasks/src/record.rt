//! From the bytes of a script to the text of its journal.
ghost use Rattle.std.specs.Prelude.{◌≡◌, ◌≢◌, ◌+◌, ℕ, List, IsErrOf, OnOk, Some, Ok, Err, take};
ghost use Rattle.text_io.specs.Sources.{HasFailed};
ghost use Rattle.script_runner.specs.RunFault.{StopsAt};
ghost use Rattle.script_text.specs.Script.{Whole, script_written};
ghost use Rattle.journal_tasks.specs.Records.{IsLogged, IsLoggedInPart, Records, RecordsInPart};
ghost use Rattle.script_runner.specs.declared.fault.RunFault.{RunFault};
ghost use Rattle.script_runner.specs.declared.fault.RunFault.TheVariants.{BadCall, Input, Output};

use fast_mutex::Look;
use journal_format::text::write_journal;
use mq::Guarded;
use script_runner::{Gate, RunFault, script_journal};
use script_text::script::MOST_BYTES;
use std::alloc::Global;
use std::io::Write;
use std::sync::Wait;
use std::thread::Threads;
use std::time::Clock;
use text_io::output::write_all;
use text_io::sources::ByteSource;

/// Runs a script over the lock `L` as `run_script` does, and writes the text of its journal. Fails
/// as `run_script`, and also with `RunFault::NoMemory` if a call failed with `NoMemory`. With
/// `RunFault::Output` a proper prefix of the text is written, and with the other errors nothing.
pub fn record_script<L, S, R, W, G>(
    rt: &S,
    alloc: Global,
    input: &mut R,
    output: &mut W,
    gate: &G,
) -> Result<(), RunFault>
where
    L: Look<Guarded> + Sync,
    L::Seat: Send,
    L::Walk: Send,
    S: Threads + Wait + Clock + Sync,
    R: ByteSource,
    W: Write,
    G: Gate + Sync,
    ensures logged { OnOk result (IsLogged (W.contents output.old) (W.contents output.new)) }
    ensures bad_call { (all : List ℕ) (line : ℕ) → R.remaining input.old ≡ Some all →
        script_written (take (MOST_BYTES + 1) all) ≡ Err line →
        StopsAt line result × (W.contents output.new ≡ W.contents output.old) }
    ensures bad_call_only { (all : List ℕ) (line : ℕ) → R.remaining input.old ≡ Some all →
        IsErrOf result (BadCall line) → script_written (take (MOST_BYTES + 1) all) ≡ Err line }
    ensures unwritten { (fault : RunFault) → IsErrOf result fault → fault ≢ Output →
        W.contents output.new ≡ W.contents output.old }
    ensures output { IsErrOf result Output →
        IsLoggedInPart (W.contents output.old) (W.contents output.new) }
    ensures output_of { (all : List ℕ) (script : Whole) → R.remaining input.old ≡ Some all →
        script_written (take (MOST_BYTES + 1) all) ≡ Ok script → IsErrOf result Output →
        RecordsInPart script (W.contents output.old) (W.contents output.new) }
    ensures done { (all : List ℕ) (script : Whole) → R.remaining input.old ≡ Some all →
        script_written (take (MOST_BYTES + 1) all) ≡ Ok script →
        OnOk result (Records script (W.contents output.old) (W.contents output.new)) }
    ensures cause { IsErrOf result Input → HasFailed (R.failed input.new) }
    ensures well { (IsErrOf result Input → ⊥) → R.failed input.new ≡ R.failed input.old }
{
    let journal = script_journal::<L, S, R, G>(rt, alloc, input, gate)?;
    let text = write_journal(alloc, &journal)?;
    write_all(output, text.as_slice())?;
    Ok(())
}
