//! Whether a concurrent history is linearizable, as far as it is found within some time.
ghost use Rattle.std.specs.Prelude.{◌≡◌, ◌+◌, ℕ, List, IfOk, IsErrOf, Some, min, take};
ghost use Rattle.text_io.specs.Sources.{HasFailed};
ghost use Rattle.history_judge.specs.HistoryFault.{IsAtFault};
ghost use Rattle.history_judge.specs.Processes.{AreOfProcesses};
ghost use Rattle.journal_format.specs.Lines.{ReadsUpTo};
ghost use Rattle.history_judge.specs.declared.well_formed.IllFormed.{IllFormed};
ghost use Rattle.journal_tasks.specs.InTime.{IsJudgedInTime, JudgesInTime, StopsInTime, first_for_calls};
ghost use Rattle.journal_tasks.specs.Judged.{IsIllFormed};
ghost use Rattle.journal_tasks.specs.declared.fault.LogFault.TheVariants.{BadLine, IllFormed as FaultOfForm, Input, NoMemory, Output};

use crate::fault::LogFault;
use crate::judge::{Question, budget_for};
use crate::pace::Pace;
use history_judge::input::read_input;
use history_judge::judgement::{Judgement, judge_calls};
use history_judge::line::Called;
use history_judge::said::{judgement_text, status_of};
use history_judge::well_formed::first_fault;
use journal_format::lines::MOST_BYTES;
use std::alloc::{AllocError, Global};
use std::io::Write;
use std::time::Clock;
use text_io::output::write_all;
use text_io::sources::ByteSource;

// The budget of the first check of this number of calls, if the limit is not less.
fn first_for_calls(calls: usize) -> u64
    ensures { result ≡ first_for_calls calls }
{
    (calls as u64).saturating_mul(10).saturating_add(10_000)
}

/// Checks whether a concurrent history is linearizable as `judge_history` does, in about this many
/// seconds. It checks again and again, each time with a larger budget, up to that of the question,
/// until the answer is known or no time is left for a larger one, and writes the answer of the last
/// check. If the clock cannot be read, the first check is the last.
pub fn judge_in_time<T: Clock, R: ByteSource, W: Write>(
    clock: &T,
    alloc: Global,
    input: &mut R,
    output: &mut W,
    question: Question,
    seconds: u64,
) -> Result<u8, LogFault>
    ensures done { (all : List ℕ) → R.remaining input.old ≡ Some all →
        IfOk result (λ status. JudgesInTime question.budget (take (MOST_BYTES + 1) all)
        question.journal status (W.contents output.old) (W.contents output.new)) }
    ensures bad_line { (all : List ℕ) (line : ℕ) → R.remaining input.old ≡ Some all →
        IsErrOf result (BadLine line) → IsAtFault line (take (MOST_BYTES + 1) all) }
    ensures soon { (line : ℕ) → IsErrOf result (BadLine line) →
        ReadsUpTo line (R.remaining input.old) (R.remaining input.new) }
    ensures ill_formed { (all : List ℕ) (line : ℕ) (why : IllFormed) →
        R.remaining input.old ≡ Some all → IsErrOf result (FaultOfForm line why) →
        IsIllFormed line why (take (MOST_BYTES + 1) all) }
    ensures input { IsErrOf result Input → W.contents output.new ≡ W.contents output.old }
    ensures no_memory { IsErrOf result NoMemory → W.contents output.new ≡ W.contents output.old }
    ensures unwritten { (line : ℕ) → IsErrOf result (BadLine line) →
        W.contents output.new ≡ W.contents output.old }
    ensures unjudged { (line : ℕ) (why : IllFormed) → IsErrOf result (FaultOfForm line why) →
        W.contents output.new ≡ W.contents output.old }
    ensures output { (all : List ℕ) → R.remaining input.old ≡ Some all →
        IsErrOf result Output → StopsInTime question.budget (take (MOST_BYTES + 1) all)
        question.journal (W.contents output.old) (W.contents output.new) }
    ensures cause { IsErrOf result Input → HasFailed (R.failed input.new) }
    ensures well { (IsErrOf result Input → ⊥) → R.failed input.new ≡ R.failed input.old }
{
    let calls = read_input(alloc, input)?;
    if let Some((line, why)) = first_fault(&calls) {
        return Err(LogFault::IllFormed(line, why));
    }
    let limit = budget_for(question.budget, calls.len());
    let last = judged_in_time(clock, alloc, &calls, limit, seconds)?;
    let said = judgement_text(
        alloc,
        &calls,
        &last.judgement,
        last.budget,
        question.journal,
    )?;
    write_all(output, said.as_slice())?;
    Ok(status_of(&last.judgement))
}

// The result of a check, and its budget.
#[derive(Drop)]
struct Judged {
    judgement: Judgement,
    budget: u64,
}

// What the last check says.
fn judged_in_time<T: Clock>(
    clock: &T,
    alloc: Global,
    calls: &[Called],
    limit: u64,
    seconds: u64,
) -> Result<Judged, AllocError>
    requires { AreOfProcesses calls.now }
    ensures { IfOk result (λ last. IsJudgedInTime limit calls.now last.budget last.judgement) }
{
    let mut pace = Pace::new(clock, seconds);
    let mut budget = limit.min(first_for_calls(calls.len()));
    let mut judgement = judge_calls(alloc, calls, budget)?;
    while !is_known(&judgement) {
        let Some(more) = pace.next(clock, budget, limit) else {
            return Ok(Judged { judgement, budget });
        };
        budget = more;
        judgement = judge_calls(alloc, calls, budget)?;
    }
    Ok(Judged { judgement, budget })
}

// Whether a larger budget would give the same answer.
fn is_known(judgement: &Judgement) -> bool {
    match judgement {
        Judgement::Possible { journal: _ } => true,
        Judgement::Impossible {
            call: _,
            front: _,
            is_shortest,
            reason: _,
        } => *is_shortest,
        Judgement::OutOfBudget => false,
    }
}
