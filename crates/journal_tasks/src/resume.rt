//! From the bytes of a script that continues from a journal to the text of the journal of both.
ghost use Rattle.std.specs.Prelude.{◌≡◌, ◌≢◌, ◌≤◌, ◌+◌, ℕ, List, IfErr, IfOk, IsErrOf, Some, Ok, Err, take};
ghost use Rattle.text_io.specs.Sources.{HasFailed};
ghost use Rattle.script_runner.specs.RunFault.{IsLate, StopsAt};
ghost use Rattle.script_text.specs.Script.{Whole, said_script, script_written};
ghost use Rattle.journal_tasks.specs.Resumed.{Resumes, ResumesInPart};
ghost use Rattle.script_runner.specs.declared.fault.RunFault.{RunFault};
ghost use Rattle.script_runner.specs.declared.fault.RunFault.TheVariants.{BadCall, Input, Output};

use crate::start::{NoStart, start_after};
use fast_mutex::Look;
use journal_format::text::write_journal;
use mq::Guarded;
use mq_model::journals::Journal;
use script_runner::{Gate, RunFault, run_after};
use script_text::script::{MOST_BYTES, Script, read_script};
use std::alloc::Global;
use std::io::Write;
use std::sync::Wait;
use std::thread::Threads;
use std::time::Clock;
use text_io::input::read_all;
use text_io::output::write_all;
use text_io::sources::ByteSource;

/// Runs a script over the lock `L` as `record_script` does, on the queues that a journal leaves,
/// and writes the text of the journal with the calls of both. If the script cannot continue from
/// the journal, it writes nothing and returns the reason. Fails as `record_script`. With
/// `RunFault::Output` a proper prefix of the text is written, and with the other errors nothing.
pub fn resume_script<L, S, R, W, G>(
    rt: &S,
    alloc: Global,
    journal: Journal,
    input: &mut R,
    output: &mut W,
    gate: &G,
) -> Result<Option<NoStart>, RunFault>
where
    L: Look<Guarded> + Sync,
    L::Seat: Send,
    L::Walk: Send,
    S: Threads + Wait + Clock + Sync,
    R: ByteSource,
    W: Write,
    G: Gate + Sync,
    ensures bad_call { (all : List ℕ) (line : ℕ) → R.remaining input.old ≡ Some all →
        script_written (take (MOST_BYTES + 1) all) ≡ Err line →
        StopsAt line result × (W.contents output.new ≡ W.contents output.old) }
    ensures bad_call_only { (all : List ℕ) (line : ℕ) → R.remaining input.old ≡ Some all →
        IsErrOf result (BadCall line) → script_written (take (MOST_BYTES + 1) all) ≡ Err line }
    ensures unwritten { (fault : RunFault) → IsErrOf result fault → fault ≢ Output →
        W.contents output.new ≡ W.contents output.old }
    ensures output { (all : List ℕ) (script : Whole) → R.remaining input.old ≡ Some all →
        script_written (take (MOST_BYTES + 1) all) ≡ Ok script → IsErrOf result Output →
        ResumesInPart journal.records script (W.contents output.old) (W.contents output.new) }
    ensures done { (all : List ℕ) (script : Whole) → R.remaining input.old ≡ Some all →
        script_written (take (MOST_BYTES + 1) all) ≡ Ok script →
        IfOk result (λ why. Resumes journal.records script why (W.contents output.old)
        (W.contents output.new)) }
    ensures cause { IsErrOf result Input → HasFailed (R.failed input.new) }
    ensures well { (IsErrOf result Input → ⊥) → R.failed input.new ≡ R.failed input.old }
{
    let text = read_all(alloc, input, MOST_BYTES)?;
    let script = read_script(alloc, text.as_slice())?;
    go_on::<L, S, W, G>(rt, alloc, journal, &script, output, gate)
}

// Makes the calls of a script after those of a journal, and writes the journal of both.
fn go_on<L, S, W, G>(
    rt: &S,
    alloc: Global,
    journal: Journal,
    script: &Script<'_>,
    output: &mut W,
    gate: &G,
) -> Result<Option<NoStart>, RunFault>
where
    L: Look<Guarded> + Sync,
    L::Seat: Send,
    L::Walk: Send,
    S: Threads + Wait + Clock + Sync,
    W: Write,
    G: Gate + Sync,
    requires { (1 ≤ script.now.processes) × (script.now.processes ≤ 32) }
    ensures fault { IfErr result IsLate }
    ensures unwritten { (fault : RunFault) → IsErrOf result fault → fault ≢ Output →
        W.contents output.new ≡ W.contents output.old }
    ensures output { IsErrOf result Output → ResumesInPart journal.records
        (said_script script.now) (W.contents output.old) (W.contents output.new) }
    ensures done { IfOk result (λ why. Resumes journal.records (said_script script.now) why
        (W.contents output.old) (W.contents output.new)) }
{
    let start = start_after(alloc, script.processes, journal)?;
    match start {
        Ok(books) => {
            let mut noted = Vec::new(alloc);
            let whole = run_after::<L, S, G>(rt, alloc, books, script, gate, &mut noted)?;
            let text = write_journal(alloc, &whole)?;
            write_all(output, text.as_slice())?;
            Ok(None)
        }
        Err(why) => Ok(Some(why)),
    }
}
