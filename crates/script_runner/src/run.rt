//! From the bytes of a script to the bytes of its replies.
ghost use Rattle.std.specs.Prelude.{◌≡◌, ◌≤◌, ◌+◌, ◌↔◌, [], ℕ, List, true, IfErr, IfOk, IsErr, IsErrOf, IsOk, OnErr, OnOk, Some, Ok, Err, Vec, length, take, vec_len};
ghost use Rattle.text_io.specs.Sources.{HasFailed};
ghost use Rattle.std.specs.Io.KnownBytes.{Appends, Consumes};
ghost use Rattle.std.specs.List.{All};
ghost use Rattle.mq_model.specs.Legality.{Legal};
ghost use Rattle.mq.specs.Calls.{author, stored_in};
ghost use Rattle.script_runner.specs.RunFault.{IsLate, StopsAt};
ghost use Rattle.fast_mutex.specs.Items.{Grows};
ghost use Rattle.text_io.specs.Output.{AppendsTooLittle};
ghost use Rattle.script_runner.specs.Runs.{RunsScript, RunsWhole, last_line};
ghost use Rattle.script_runner.specs.Stops.{StopsAfterPhase, StopsInDeadlock, StopsInWrite};
ghost use Rattle.script_text.specs.Script.{Whole, said_script, script_written};
ghost use Rattle.script_runner.specs.declared.fault.RunFault.TheVariants.{BadCall, Deadlock, Input, NoMemory, Output};

use crate::fault::RunFault;
use crate::gate::Gate;
use crate::runner::Runner;
use crate::sink::Written;
use crate::stop::Stop;
use fast_mutex::Look;
use mq::{Guarded, Mq, Process, verdict};
use mq_model::journals::Journal;
use script_text::script::{MOST_BYTES, Script, read_script};
use std::alloc::Global;
use std::io::Write;
use std::sync::Wait;
use std::thread::Threads;
use std::time::Clock;
use text_io::input::read_all;
use text_io::output::write_all;
use text_io::sources::ByteSource;

/// Reads a script, checks all of it, makes its calls over the lock `L` and writes their replies,
/// phase by phase. In a phase each process that has calls makes them in a thread of its own, and
/// calls the gate before and after each.
///
/// - `RunFault::BadCall`: a line of the script is wrong, and this is the first one. Nothing is
///   written.
/// - `RunFault::Input`: a read failed. Nothing is written.
/// - `RunFault::Output`: a write failed. The replies of the earlier phases are written, and a
///   prefix of what was being written.
/// - `RunFault::NoMemory`: memory outside a call, or a thread, was refused. The replies of the
///   earlier phases are written, and nothing of this one.
/// - `RunFault::Deadlock`: in a phase all processes that have calls left wait, and nothing answers
///   these waits. The replies of the earlier phases are written, and nothing of this one.
pub fn run_script<L, S, R, W, G>(
    rt: &S,
    alloc: Global,
    input: &mut R,
    output: &mut W,
    gate: &G,
) -> Result<(), RunFault>
where
    L: Look<Guarded> + Sync,
    L::Seat: Send,
    L::Walk: Send,
    S: Threads + Wait + Clock + Sync,
    R: ByteSource,
    W: Write,
    G: Gate + Sync,
    ensures input { IsErrOf result Input → W.contents output.new ≡ W.contents output.old }
    ensures unread { IsErrOf result Input →
        (lost : List ℕ) × (length lost ≤ MOST_BYTES) ×
        Consumes (R.remaining input.old) (R.remaining input.new) lost }
    ensures bad_call { (all : List ℕ) (line : ℕ) → R.remaining input.old ≡ Some all →
        script_written (take (MOST_BYTES + 1) all) ≡ Err line →
        StopsAt line result × (W.contents output.new ≡ W.contents output.old) }
    ensures bad_call_only { (all : List ℕ) (line : ℕ) → R.remaining input.old ≡ Some all →
        IsErrOf result (BadCall line) → script_written (take (MOST_BYTES + 1) all) ≡ Err line }
    ensures no_memory { (all : List ℕ) (script : Whole) → R.remaining input.old ≡ Some all →
        script_written (take (MOST_BYTES + 1) all) ≡ Ok script → IsErrOf result NoMemory →
        StopsAfterPhase script (W.contents output.old) (W.contents output.new) }
    ensures output { (all : List ℕ) (script : Whole) → R.remaining input.old ≡ Some all →
        script_written (take (MOST_BYTES + 1) all) ≡ Ok script → IsErrOf result Output →
        StopsInWrite script (W.contents output.old) (W.contents output.new) }
    ensures deadlock { (all : List ℕ) (script : Whole) (lines : Vec ℕ Global) →
        R.remaining input.old ≡ Some all →
        script_written (take (MOST_BYTES + 1) all) ≡ Ok script → IsErrOf result (Deadlock lines) →
        StopsInDeadlock script lines.items (W.contents output.old) (W.contents output.new) }
    ensures done { (all : List ℕ) (script : Whole) → R.remaining input.old ≡ Some all →
        script_written (take (MOST_BYTES + 1) all) ≡ Ok script →
        OnOk result (RunsScript script (W.contents output.old) (W.contents output.new)) }
    ensures cause { IsErrOf result Input → HasFailed (R.failed input.new) }
    ensures well { (IsErrOf result Input → ⊥) → R.failed input.new ≡ R.failed input.old }
{
    let text = read_all(alloc, input, MOST_BYTES)?;
    let script = read_script(alloc, text.as_slice())?;
    run_phases::<L, S, W, G>(rt, alloc, &script, output, gate)
}

// Makes the calls of a script, and writes the replies of each phase after the phase.
fn run_phases<L, S, W, G>(
    rt: &S,
    alloc: Global,
    script: &Script<'_>,
    output: &mut W,
    gate: &G,
) -> Result<(), RunFault>
where
    L: Look<Guarded> + Sync,
    L::Seat: Send,
    L::Walk: Send,
    S: Threads + Wait + Clock + Sync,
    W: Write,
    G: Gate + Sync,
    requires { (1 ≤ script.now.processes) × (script.now.processes ≤ 32) }
    ensures fault { IfErr result IsLate }
    ensures no_memory { IsErrOf result NoMemory →
        StopsAfterPhase (said_script script.now) (W.contents output.old) (W.contents output.new) }
    ensures output { IsErrOf result Output →
        StopsInWrite (said_script script.now) (W.contents output.old) (W.contents output.new) }
    ensures deadlock { (lines : Vec ℕ Global) → IsErrOf result (Deadlock lines) →
        StopsInDeadlock (said_script script.now) lines.items (W.contents output.old)
        (W.contents output.new) }
    ensures done { OnOk result (RunsScript (said_script script.now) (W.contents output.old)
        (W.contents output.new)) }
{
    let journal = run_whole::<L, S, W, G>(rt, alloc, script, output, gate)?;
    // The journal of the queues is legal, so there is a last line.
    write_last_line(output, alloc, &journal)?.unwrap();
    Ok(())
}

// The same without the last line; returns the journal.
pub(crate) fn run_whole<'r, L, S, W, G>(
    rt: &'r S,
    alloc: Global,
    script: &Script<'_>,
    output: &mut W,
    gate: &'r G,
) -> Result<Journal, RunFault>
where
    L: Look<Guarded> + Sync,
    L::Seat: Send,
    L::Walk: Send,
    S: Threads + Wait + Clock + Sync,
    W: Write,
    G: Gate + Sync,
    requires { (1 ≤ script.now.processes) × (script.now.processes ≤ 32) }
    ensures fault { IfErr result IsLate }
    ensures no_memory { IsErrOf result NoMemory →
        StopsAfterPhase (said_script script.now) (W.contents output.old) (W.contents output.new) }
    ensures output { IsErrOf result Output →
        StopsInWrite (said_script script.now) (W.contents output.old) (W.contents output.new) }
    ensures deadlock { (lines : Vec ℕ Global) → IsErrOf result (Deadlock lines) →
        StopsInDeadlock (said_script script.now) lines.items (W.contents output.old)
        (W.contents output.new) }
    ensures legal { IfOk result (λ journal. Legal journal.records) }
    ensures done { IfOk result (λ journal. (replies : List ℕ) ×
        RunsWhole (said_script script.now) replies journal.records ×
        Appends (W.contents output.old) (W.contents output.new) replies) }
{
    let Ok((mq, processes)) = Mq::<L>::new(alloc, script.processes) else {
        return Err(RunFault::NoMemory);
    };
    let runner = Runner {
        rt,
        alloc,
        mq: &mq,
        gate,
    };
    let phases = script.phases.as_slice();
    match runner.run::<_, Written>(processes, phases, output) {
        Ok(processes) => Ok(journal_of(mq, processes)),
        Err(Stop::Output) => Err(RunFault::Output),
        Err(Stop::NoMemory) => Err(RunFault::NoMemory),
        Err(Stop::Stuck { processes, lines }) => {
            // The journal in which they wait is legal.
            let _ = journal_of(mq, processes);
            Err(RunFault::Deadlock(lines))
        }
    }
}

/// The journal of the system with these processes, which are all that it has.
pub(crate) fn journal_of<L: Look<Guarded>>(mq: Mq<L>, processes: Vec<Process<L>>) -> Journal
    requires made { All (λ process. process.lock ≡ mq) processes.items }
    requires stored { stored_in mq.fixed ≡ true }
    requires all { vec_len processes ≡ mq.count }
    ensures legal { Legal result.records }
    ensures authors { All (λ r. (1 ≤ author r) × (author r ≤ mq.count)) result.records }
    ensures grows { All (λ process. Grows author process.number process.left result.records [])
        processes.items }
{
    let Ok(journal) = mq.finish(processes) else {
        unreachable!()
    };
    journal
}

// Writes that the history is ok if the journal is legal. Otherwise writes nothing, and returns the
// sequence number of the first entry that is not legal.
fn write_last_line<W: Write>(
    output: &mut W,
    alloc: Global,
    journal: &Journal,
) -> Result<Result<(), u64>, RunFault>
    ensures fault { IfErr result (λ fault. fault ≡ Output) }
    ensures part { OnErr result (AppendsTooLittle (W.contents output.old)
        (W.contents output.new) last_line) }
    ensures checked { IfOk result (λ verdict. IsOk verdict ↔ Legal journal.now.records) }
    ensures written { IfOk result (λ verdict.
        OnOk verdict (Appends (W.contents output.old) (W.contents output.new) last_line)) }
    ensures silent { IfOk result (λ verdict. IsErr verdict →
        W.contents output.new ≡ W.contents output.old) }
{
    let found = verdict(alloc, journal);
    if found.is_ok() {
        write_all(output, b"history ok\n")?;
    }
    Ok(found)
}
