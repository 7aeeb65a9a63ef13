//! The outcomes of the interleavings of a script, as far as they are found within some time.
ghost use Rattle.std.specs.Prelude.{◌≡◌, ◌≢◌, ◌≤◌, ◌+◌, ℕ, List, IfErr, IfOk, IsErrOf, OnOk, Some, Ok, Err, Vec, min, take};
ghost use Rattle.text_io.specs.Sources.{HasFailed};
ghost use Rattle.script_runner.specs.RunFault.{IsLate, StopsAt};
ghost use Rattle.script_runner.specs.declared.fault.RunFault.{RunFault};
ghost use Rattle.script_runner.specs.declared.fault.RunFault.TheVariants.{BadCall, Deadlock, Input, Output};
ghost use Rattle.script_text.specs.Script.{Whole, said_script, script_written};
ghost use Rattle.mq_model.specs.Legality.{Legal};
ghost use Rattle.script_orders.specs.Stage.{first_stage};
ghost use Rattle.journal_tasks.specs.EveryOrder.{AreFound};
ghost use Rattle.journal_tasks.specs.InTime.{AnswersInTime, AnswersInTimeInPart, AnswersInTimeOrNot, AreFoundInTime};

use crate::every_order::{Ending, Trial, answer_ending, answer_text};
use crate::pace::Pace;
use crate::start::{NoStart, start_after};
use mq_model::journals::Journal;
use schedules::outcomes::Collected;
use script_orders::orders::{outcomes_of, play_after};
use script_orders::play::Play;
use script_runner::RunFault;
use script_text::script::{MOST_BYTES, Script, read_script};
use std::alloc::{AllocError, Global};
use std::io::Write;
use std::time::Clock;
use text_io::input::read_all;
use text_io::output::write_all;
use text_io::sources::ByteSource;

// The budget of the first search, if that of the trial is not less.
const FIRST: u64 = 10_000;

/// Tries every interleaving of the calls of a script as `try_orders_after` does, in about this many
/// seconds. It searches again and again, each time with a larger budget, up to that of the trial,
/// until all was tried or no time is left for a larger one, and writes the answer of the last
/// search. If the clock cannot be read, the first search is the last.
pub fn try_orders_in_time<T: Clock, R: ByteSource, W: Write>(
    clock: &T,
    alloc: Global,
    journal: Journal,
    input: &mut R,
    output: &mut W,
    trial: Trial,
    seconds: u64,
) -> Result<Result<Ending, NoStart>, RunFault>
    ensures bad_call { (all : List ℕ) (line : ℕ) → R.remaining input.old ≡ Some all →
        script_written (take (MOST_BYTES + 1) all) ≡ Err line →
        StopsAt line result × (W.contents output.new ≡ W.contents output.old) }
    ensures bad_call_only { (all : List ℕ) (line : ℕ) → R.remaining input.old ≡ Some all →
        IsErrOf result (BadCall line) → script_written (take (MOST_BYTES + 1) all) ≡ Err line }
    ensures no_deadlock { (lines : Vec ℕ Global) → IsErrOf result (Deadlock lines) → ⊥ }
    ensures unwritten { (fault : RunFault) → IsErrOf result fault → fault ≢ Output →
        W.contents output.new ≡ W.contents output.old }
    ensures output { (all : List ℕ) (script : Whole) → R.remaining input.old ≡ Some all →
        script_written (take (MOST_BYTES + 1) all) ≡ Ok script → IsErrOf result Output →
        AnswersInTimeInPart journal.records script (take (MOST_BYTES + 1) all) trial
        (W.contents output.old) (W.contents output.new) }
    ensures done { (all : List ℕ) (script : Whole) → R.remaining input.old ≡ Some all →
        script_written (take (MOST_BYTES + 1) all) ≡ Ok script →
        IfOk result (λ answer. AnswersInTimeOrNot journal.records script
        (take (MOST_BYTES + 1) all) trial answer (W.contents output.old)
        (W.contents output.new)) }
    ensures cause { IsErrOf result Input → HasFailed (R.failed input.new) }
    ensures well { (IsErrOf result Input → ⊥) → R.failed input.new ≡ R.failed input.old }
{
    let text = read_all(alloc, input, MOST_BYTES)?;
    let bytes = text.as_slice();
    let script = read_script(alloc, bytes)?;
    try_after(
        clock, alloc, journal, &script, bytes, output, trial, seconds,
    )
}

// Tries every interleaving of the calls of a script after those of a journal, and writes the
// answer.
fn try_after<T: Clock, W: Write>(
    clock: &T,
    alloc: Global,
    journal: Journal,
    script: &Script<'_>,
    bytes: &[u8],
    output: &mut W,
    trial: Trial,
    seconds: u64,
) -> Result<Result<Ending, NoStart>, RunFault>
    requires { (1 ≤ script.now.processes) × (script.now.processes ≤ 32) }
    ensures fault { IfErr result IsLate }
    ensures no_deadlock { (lines : Vec ℕ Global) → IsErrOf result (Deadlock lines) → ⊥ }
    ensures unwritten { (fault : RunFault) → IsErrOf result fault → fault ≢ Output →
        W.contents output.new ≡ W.contents output.old }
    ensures output { IsErrOf result Output → AnswersInTimeInPart journal.records
        (said_script script.now) bytes.now trial (W.contents output.old)
        (W.contents output.new) }
    ensures done { IfOk result (λ answer. AnswersInTimeOrNot journal.records
        (said_script script.now) bytes.now trial answer (W.contents output.old)
        (W.contents output.new)) }
{
    let start = start_after(alloc, script.processes, journal)?;
    match start {
        Ok(books) => {
            let past = books.into_journal();
            match try_script(clock, alloc, past, script, bytes, output, trial, seconds) {
                Ok(ending) => Ok(Ok(ending)),
                Err(fault) => Err(fault),
            }
        }
        Err(why) => Ok(Err(why)),
    }
}

// The same after a legal journal.
fn try_script<T: Clock, W: Write>(
    clock: &T,
    alloc: Global,
    journal: Journal,
    script: &Script<'_>,
    bytes: &[u8],
    output: &mut W,
    trial: Trial,
    seconds: u64,
) -> Result<Ending, RunFault>
    requires processes { script.now.processes ≤ 32 }
    requires legal { Legal journal.records }
    ensures fault { IfErr result IsLate }
    ensures no_deadlock { (lines : Vec ℕ Global) → IsErrOf result (Deadlock lines) → ⊥ }
    ensures unwritten { (fault : RunFault) → IsErrOf result fault → fault ≢ Output →
        W.contents output.new ≡ W.contents output.old }
    ensures output { IsErrOf result Output →
        AnswersInTimeInPart journal.records (said_script script.now) bytes.now trial
        (W.contents output.old) (W.contents output.new) }
    ensures done { IfOk result (λ ending. AnswersInTime journal.records (said_script script.now)
        bytes.now trial ending (W.contents output.old) (W.contents output.new)) }
{
    let mut play = play_after(alloc, script, bytes, journal)?;
    let collected = outcomes_in_time(clock, alloc, &mut play, trial.budget, seconds)?;
    let phases = script.phases.len() as u64;
    let said = answer_text(alloc, &mut play, phases, &collected, trial.journal)?;
    write_all(output, said.as_slice())?;
    Ok(answer_ending(&collected, trial.journal))
}

// What the last search finds of all interleavings.
fn outcomes_in_time<T: Clock>(
    clock: &T,
    alloc: Global,
    play: &mut Play,
    limit: u64,
    seconds: u64,
) -> Result<Collected, AllocError>
    ensures found { IfOk result (AreFoundInTime limit (first_stage play.old)) }
    ensures start { OnOk result (first_stage play.new ≡ first_stage play.old) }
{
    let mut pace = Pace::new(clock, seconds);
    let mut budget = limit.min(FIRST);
    let mut collected = search(alloc, play, budget)?;
    while !collected.complete {
        let Some(more) = pace.next(clock, budget, limit) else {
            return Ok(collected);
        };
        budget = more;
        collected = search(alloc, play, budget)?;
    }
    Ok(collected)
}

fn search(alloc: Global, play: &mut Play, budget: u64) -> Result<Collected, AllocError>
    ensures found { IfOk result (AreFound budget (first_stage play.old)) }
    ensures start { OnOk result (first_stage play.new ≡ first_stage play.old) }
{
    outcomes_of(alloc, play, budget)
}
