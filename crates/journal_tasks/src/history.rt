//! From the bytes of a script to the history of its calls.
ghost use Rattle.std.specs.Prelude.{◌≡◌, ◌≤◌, ◌⊎◌, ◌+◌, ℕ, List, Vec, IfErr, IsErrOf, OnOk, Some, Ok, Err, take};
ghost use Rattle.text_io.specs.Sources.{HasFailed};
ghost use Rattle.std.specs.declared.alloc.Global.{Global};
ghost use Rattle.script_runner.specs.RunFault.{IsLate, StopsAt};
ghost use Rattle.script_text.specs.Script.{Whole, said_script, script_written};
ghost use Rattle.journal_tasks.specs.Histories.{IsHistoryInPart, RecordsHistory, WritesHistory, WritesSome};
ghost use Rattle.script_runner.specs.declared.fault.RunFault.TheVariants.{BadCall, Deadlock, Input, NoMemory, Output};

use crate::called::calls_of;
use crate::moments::Moments;
use fast_mutex::Look;
use history_judge::text::write_history;
use mq::Guarded;
use script_runner::{Noted, RunFault, run_noted};
use script_text::script::{MOST_BYTES, Script, read_script};
use std::alloc::Global;
use std::io::Write;
use std::sync::Wait;
use std::thread::Threads;
use std::time::Clock;
use text_io::input::read_all;
use text_io::output::write_all;
use text_io::sources::ByteSource;

/// Runs a script over the lock `L` as `run_script` does, and writes the history of its calls. Fails
/// as `run_script`, and also with `RunFault::NoMemory` if a call failed with `NoMemory`, even in a
/// run that deadlocks. With `RunFault::Output` a proper prefix of the text is written, with
/// `RunFault::Deadlock` the history of the calls that began, and with the other errors nothing.
pub fn record_history<L, S, R, W>(
    rt: &S,
    alloc: Global,
    input: &mut R,
    output: &mut W,
) -> Result<(), RunFault>
where
    L: Look<Guarded> + Sync,
    L::Seat: Send,
    L::Walk: Send,
    S: Threads + Wait + Clock + Sync,
    R: ByteSource,
    W: Write,
    ensures bad_call { (all : List ℕ) (line : ℕ) → R.remaining input.old ≡ Some all →
        script_written (take (MOST_BYTES + 1) all) ≡ Err line →
        StopsAt line result × (W.contents output.new ≡ W.contents output.old) }
    ensures bad_call_only { (all : List ℕ) (line : ℕ) → R.remaining input.old ≡ Some all →
        IsErrOf result (BadCall line) → script_written (take (MOST_BYTES + 1) all) ≡ Err line }
    ensures input { IsErrOf result Input → W.contents output.new ≡ W.contents output.old }
    ensures no_memory { IsErrOf result NoMemory → W.contents output.new ≡ W.contents output.old }
    ensures output { (all : List ℕ) (script : Whole) → R.remaining input.old ≡ Some all →
        script_written (take (MOST_BYTES + 1) all) ≡ Ok script → IsErrOf result Output →
        IsHistoryInPart script (W.contents output.old) (W.contents output.new) }
    ensures stuck { (all : List ℕ) (script : Whole) (lines : Vec ℕ Global) →
        R.remaining input.old ≡ Some all →
        script_written (take (MOST_BYTES + 1) all) ≡ Ok script → IsErrOf result (Deadlock lines) →
        WritesSome script (W.contents output.old) (W.contents output.new) }
    ensures done { (all : List ℕ) (script : Whole) → R.remaining input.old ≡ Some all →
        script_written (take (MOST_BYTES + 1) all) ≡ Ok script →
        OnOk result (RecordsHistory script (W.contents output.old) (W.contents output.new)) }
    ensures cause { IsErrOf result Input → HasFailed (R.failed input.new) }
    ensures well { (IsErrOf result Input → ⊥) → R.failed input.new ≡ R.failed input.old }
{
    let text = read_all(alloc, input, MOST_BYTES)?;
    let script = read_script(alloc, text.as_slice())?;
    let moments = Moments::new(alloc, line_count(text.as_slice()))?;
    run_recorded::<L, S, W>(rt, alloc, &script, &moments, output)
}

// The maximum number of lines of a text.
fn line_count(text: &[u8]) -> usize {
    text.iter()
        .filter(|b| **b == b'\n')
        .count()
        .saturating_add(1)
}

// Makes the calls of a script, and writes their history.
fn run_recorded<L, S, W>(
    rt: &S,
    alloc: Global,
    script: &Script<'_>,
    moments: &Moments,
    output: &mut W,
) -> Result<(), RunFault>
where
    L: Look<Guarded> + Sync,
    L::Seat: Send,
    L::Walk: Send,
    S: Threads + Wait + Clock + Sync,
    W: Write,
    requires { (1 ≤ script.now.processes) × (script.now.processes ≤ 32) }
    ensures fault { IfErr result IsLate }
    ensures no_memory { IsErrOf result NoMemory → W.contents output.new ≡ W.contents output.old }
    ensures output { IsErrOf result Output → IsHistoryInPart (said_script script.now)
        (W.contents output.old) (W.contents output.new) }
    ensures stuck { (lines : Vec ℕ Global) → IsErrOf result (Deadlock lines) →
        WritesSome (said_script script.now) (W.contents output.old) (W.contents output.new) }
    ensures done { OnOk result (RecordsHistory (said_script script.now) (W.contents output.old)
        (W.contents output.new)) }
{
    let mut noted = Vec::new(alloc);
    match run_noted::<L, S, Moments>(rt, alloc, script, moments, &mut noted) {
        Ok(_journal) => write_calls(alloc, script, &noted, moments, output),
        Err(RunFault::Deadlock(lines)) => {
            match write_calls(alloc, script, &noted, moments, output) {
                Ok(()) => Err(RunFault::Deadlock(lines)),
                Err(fault) => Err(fault),
            }
        }
        Err(fault) => Err(fault),
    }
}

// Writes the history of the noted calls.
fn write_calls<W: Write>(
    alloc: Global,
    script: &Script<'_>,
    noted: &[Noted],
    moments: &Moments,
    output: &mut W,
) -> Result<(), RunFault>
    ensures fault { IfErr result (λ fault. (fault ≡ NoMemory) ⊎ (fault ≡ Output)) }
    ensures no_memory { IsErrOf result NoMemory → W.contents output.new ≡ W.contents output.old }
    ensures output { IsErrOf result Output → IsHistoryInPart (said_script script.now)
        (W.contents output.old) (W.contents output.new) }
    ensures done { OnOk result (WritesHistory (said_script script.now) noted.now
        (W.contents output.old) (W.contents output.new)) }
{
    let calls = calls_of(alloc, script, noted, moments)?;
    let text = write_history(alloc, &calls)?;
    write_all(output, text.as_slice())?;
    Ok(())
}
