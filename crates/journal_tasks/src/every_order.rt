//! From the bytes of a script to the outcomes of all interleavings of its calls.
ghost use Rattle.std.specs.Prelude.{◌≡◌, ◌≢◌, ◌≤◌, ◌+◌, ℕ, List, IfErr, IfOk, IsErrOf, IsSome, Some, Ok, Err, Vec, take};
ghost use Rattle.text_io.specs.Sources.{HasFailed};
ghost use Rattle.std.specs.Option.{option_map};
ghost use Rattle.std.specs.List.{All};
ghost use Rattle.script_runner.specs.RunFault.{IsLate, StopsAt};
ghost use Rattle.script_runner.specs.declared.fault.RunFault.{RunFault};
ghost use Rattle.script_runner.specs.declared.fault.RunFault.TheVariants.{BadCall, Deadlock, Input, Output};
ghost use Rattle.script_text.specs.Script.{Whole, said_script, script_written};
ghost use Rattle.mq_model.specs.Legality.{Legal};
ghost use Rattle.schedules.specs.Schedules.{after};
ghost use Rattle.schedules.specs.Outcomes.{IsWitness};
ghost use Rattle.script_orders.specs.Stage.{first_stage, next_stage, observed, stands_still};
ghost use Rattle.journal_tasks.specs.EveryOrder.{Answers, AnswersAfter, AnswersAfterInPart, AnswersInPart, AnswersOrNot, answer_ending, answer_text, ending_of, ending_status, has_deadlock, journal_of, numbered};

use crate::start::{NoStart, start_after};
use journal_format::text::write_journal;
use mq_model::journals::Journal;
use schedules::outcomes::{Collected, Witnessed};
use schedules::runs::run_again;
use script_orders::orders::{outcomes_of, play_after};
use script_orders::play::Play;
use script_orders::report::report_text;
use script_runner::RunFault;
use script_text::script::{MOST_BYTES, Script, read_script};
use std::alloc::{AllocError, Global};
use std::io::Write;
use text_io::input::read_all;
use text_io::output::write_all;
use text_io::sources::ByteSource;

/// How the interleavings of a script are tried.
#[derive(Clone, Copy)]
pub struct Trial {
    /// If given, the journal of the outcome or deadlock with this number is written instead of the
    /// report.
    pub journal: Option<u64>,
    /// The maximum number of steps of the search.
    pub budget: u64,
}

/// The report, within five million steps.
pub const REPORT: Trial = Trial {
    journal: None,
    budget: 5_000_000,
};

/// The result of trying all interleavings of a script.
#[derive(Clone, Copy)]
pub enum Ending {
    /// Every interleaving was tried, and none deadlocks.
    Well,
    /// No outcome or deadlock has the given number.
    NoSuch,
    /// The budget was used up before an outcome or deadlock of the given number was found.
    NotReached,
    /// Some interleaving deadlocks.
    Deadlock,
    /// The budget was used up, and no interleaving that was tried deadlocks.
    OutOfBudget,
}

impl Ending {
    /// The exit status of the program.
    pub fn status(self) -> u8
        ensures { result ≡ ending_status self }
    {
        match self {
            Ending::Well => 0,
            Ending::NoSuch => 1,
            Ending::NotReached => 6,
            Ending::Deadlock => 5,
            Ending::OutOfBudget => 6,
        }
    }
}

/// Reads a script as `record_script` does, tries every interleaving of its calls, and writes the
/// report of the outcomes, or the journal of an interleaving with a given outcome or deadlock.
/// Fails as `record_script`, except that a deadlock is no error here. With `RunFault::Output` a
/// prefix is written, and with the other errors nothing.
pub fn try_orders<R: ByteSource, W: Write>(
    alloc: Global,
    input: &mut R,
    output: &mut W,
    trial: Trial,
) -> Result<Ending, RunFault>
    ensures bad_call { (all : List ℕ) (line : ℕ) → R.remaining input.old ≡ Some all →
        script_written (take (MOST_BYTES + 1) all) ≡ Err line →
        StopsAt line result × (W.contents output.new ≡ W.contents output.old) }
    ensures bad_call_only { (all : List ℕ) (line : ℕ) → R.remaining input.old ≡ Some all →
        IsErrOf result (BadCall line) → script_written (take (MOST_BYTES + 1) all) ≡ Err line }
    ensures no_deadlock { (lines : Vec ℕ Global) → IsErrOf result (Deadlock lines) → ⊥ }
    ensures unwritten { (fault : RunFault) → IsErrOf result fault → fault ≢ Output →
        W.contents output.new ≡ W.contents output.old }
    ensures output { (all : List ℕ) (script : Whole) → R.remaining input.old ≡ Some all →
        script_written (take (MOST_BYTES + 1) all) ≡ Ok script → IsErrOf result Output →
        AnswersInPart script (take (MOST_BYTES + 1) all) trial (W.contents output.old)
        (W.contents output.new) }
    ensures done { (all : List ℕ) (script : Whole) → R.remaining input.old ≡ Some all →
        script_written (take (MOST_BYTES + 1) all) ≡ Ok script →
        IfOk result (λ ending. Answers script (take (MOST_BYTES + 1) all) trial ending
        (W.contents output.old) (W.contents output.new)) }
    ensures cause { IsErrOf result Input → HasFailed (R.failed input.new) }
    ensures well { (IsErrOf result Input → ⊥) → R.failed input.new ≡ R.failed input.old }
{
    let text = read_all(alloc, input, MOST_BYTES)?;
    let bytes = text.as_slice();
    let script = read_script(alloc, bytes)?;
    try_script(alloc, Journal::new(alloc), &script, bytes, output, trial)
}

/// Tries every interleaving of the calls of a script as `try_orders` does, in the state that a
/// journal leaves. If the script cannot continue from the journal, it writes nothing and returns
/// the reason.
pub fn try_orders_after<R: ByteSource, W: Write>(
    alloc: Global,
    journal: Journal,
    input: &mut R,
    output: &mut W,
    trial: Trial,
) -> Result<Result<Ending, NoStart>, RunFault>
    ensures bad_call { (all : List ℕ) (line : ℕ) → R.remaining input.old ≡ Some all →
        script_written (take (MOST_BYTES + 1) all) ≡ Err line →
        StopsAt line result × (W.contents output.new ≡ W.contents output.old) }
    ensures bad_call_only { (all : List ℕ) (line : ℕ) → R.remaining input.old ≡ Some all →
        IsErrOf result (BadCall line) → script_written (take (MOST_BYTES + 1) all) ≡ Err line }
    ensures no_deadlock { (lines : Vec ℕ Global) → IsErrOf result (Deadlock lines) → ⊥ }
    ensures unwritten { (fault : RunFault) → IsErrOf result fault → fault ≢ Output →
        W.contents output.new ≡ W.contents output.old }
    ensures output { (all : List ℕ) (script : Whole) → R.remaining input.old ≡ Some all →
        script_written (take (MOST_BYTES + 1) all) ≡ Ok script → IsErrOf result Output →
        AnswersAfterInPart journal.records script (take (MOST_BYTES + 1) all) trial
        (W.contents output.old) (W.contents output.new) }
    ensures done { (all : List ℕ) (script : Whole) → R.remaining input.old ≡ Some all →
        script_written (take (MOST_BYTES + 1) all) ≡ Ok script →
        IfOk result (λ answer. AnswersOrNot journal.records script (take (MOST_BYTES + 1) all)
        trial answer (W.contents output.old) (W.contents output.new)) }
    ensures cause { IsErrOf result Input → HasFailed (R.failed input.new) }
    ensures well { (IsErrOf result Input → ⊥) → R.failed input.new ≡ R.failed input.old }
{
    let text = read_all(alloc, input, MOST_BYTES)?;
    let bytes = text.as_slice();
    let script = read_script(alloc, bytes)?;
    try_after(alloc, journal, &script, bytes, output, trial)
}

// Tries every interleaving of the calls of a script after those of a journal, and writes the
// answer.
fn try_after<W: Write>(
    alloc: Global,
    journal: Journal,
    script: &Script<'_>,
    bytes: &[u8],
    output: &mut W,
    trial: Trial,
) -> Result<Result<Ending, NoStart>, RunFault>
    requires { (1 ≤ script.now.processes) × (script.now.processes ≤ 32) }
    ensures fault { IfErr result IsLate }
    ensures no_deadlock { (lines : Vec ℕ Global) → IsErrOf result (Deadlock lines) → ⊥ }
    ensures unwritten { (fault : RunFault) → IsErrOf result fault → fault ≢ Output →
        W.contents output.new ≡ W.contents output.old }
    ensures output { IsErrOf result Output → AnswersAfterInPart journal.records
        (said_script script.now) bytes.now trial (W.contents output.old)
        (W.contents output.new) }
    ensures done { IfOk result (λ answer. AnswersOrNot journal.records (said_script script.now)
        bytes.now trial answer (W.contents output.old) (W.contents output.new)) }
{
    let start = start_after(alloc, script.processes, journal)?;
    match start {
        Ok(books) => {
            let past = books.into_journal();
            match try_script(alloc, past, script, bytes, output, trial) {
                Ok(ending) => Ok(Ok(ending)),
                Err(fault) => Err(fault),
            }
        }
        Err(why) => Ok(Err(why)),
    }
}

// The same after a legal journal.
fn try_script<W: Write>(
    alloc: Global,
    journal: Journal,
    script: &Script<'_>,
    bytes: &[u8],
    output: &mut W,
    trial: Trial,
) -> Result<Ending, RunFault>
    requires processes { script.now.processes ≤ 32 }
    requires legal { Legal journal.records }
    ensures fault { IfErr result IsLate }
    ensures no_deadlock { (lines : Vec ℕ Global) → IsErrOf result (Deadlock lines) → ⊥ }
    ensures unwritten { (fault : RunFault) → IsErrOf result fault → fault ≢ Output →
        W.contents output.new ≡ W.contents output.old }
    ensures output { IsErrOf result Output →
        AnswersAfterInPart journal.records (said_script script.now) bytes.now trial
        (W.contents output.old) (W.contents output.new) }
    ensures done { IfOk result (λ ending. AnswersAfter journal.records (said_script script.now)
        bytes.now trial ending (W.contents output.old) (W.contents output.new)) }
{
    let mut play = play_after(alloc, script, bytes, journal)?;
    let collected = outcomes_of(alloc, &mut play, trial.budget)?;
    let phases = script.phases.len() as u64;
    let said = answer_text(alloc, &mut play, phases, &collected, trial.journal)?;
    write_all(output, said.as_slice())?;
    Ok(answer_ending(&collected, trial.journal))
}

/// The answer: the report, or the journal with the given number.
pub fn answer_text(
    alloc: Global,
    play: &mut Play,
    phases: u64,
    collected: &Collected,
    journal: Option<u64>,
) -> Result<Vec<u8>, AllocError>
    requires { All (IsWitness next_stage stands_still observed
        (first_stage play.old)) collected.now.found.items }
    ensures { IfOk result (λ text. text.items ≡
        answer_text journal phases (first_stage play.old) collected.now) }
{
    match journal {
        None => report_text(alloc, phases, collected),
        Some(number) => match numbered(&collected.found, number) {
            None => Ok(Vec::new(alloc)),
            Some(found) => journal_of(alloc, play, &found.schedule),
        },
    }
}

// The outcome or deadlock with this number, counted from 1.
fn numbered(found: &[Witnessed], number: u64) -> Option<&Witnessed>
    ensures { option_map (λ one. one.now) result ≡ numbered found.now number }
{
    if number == 0 || number > found.len() as u64 {
        return None;
    }
    Some(&found[number as usize - 1])
}

// The text of the journal after a schedule.
fn journal_of(alloc: Global, play: &mut Play, schedule: &[u32]) -> Result<Vec<u8>, AllocError>
    requires { IsSome (after next_stage schedule.now (first_stage play.old)) }
    ensures { IfOk result (λ text. text.items ≡ journal_of (first_stage play.old) schedule.now) }
{
    run_again(play, schedule)?;
    write_journal(alloc, play.journal())
}

/// The result, given whether the report or the journal of a number is wanted.
pub fn answer_ending(collected: &Collected, journal: Option<u64>) -> Ending
    ensures { result ≡ answer_ending journal collected.now }
{
    match journal {
        Some(number) if numbered(&collected.found, number).is_none() => {
            if collected.complete {
                Ending::NoSuch
            } else {
                Ending::NotReached
            }
        }
        _ => ending_of(collected),
    }
}

// The result of trying the interleavings.
fn ending_of(collected: &Collected) -> Ending
    ensures { result ≡ ending_of collected.now }
{
    if has_deadlock(&collected.found) {
        Ending::Deadlock
    } else if collected.complete {
        Ending::Well
    } else {
        Ending::OutOfBudget
    }
}

fn has_deadlock(found: &[Witnessed]) -> bool
    ensures { result ≡ has_deadlock found.now }
{
    found.iter().any(|one| one.outcome.stuck)
}
