//! From the bytes of a concurrent history to whether it is linearizable.
ghost use Rattle.std.specs.Prelude.{◌≡◌, ◌+◌, ℕ, List, IfOk, IsErrOf, Some, take};
ghost use Rattle.text_io.specs.Sources.{HasFailed};
ghost use Rattle.history_judge.specs.HistoryFault.{IsAtFault};
ghost use Rattle.journal_format.specs.Lines.{ReadsUpTo};
ghost use Rattle.history_judge.specs.declared.well_formed.IllFormed.{IllFormed};
ghost use Rattle.journal_tasks.specs.Judged.{IsIllFormed, JudgesHistory, StopsInJudgement, budget_for};
ghost use Rattle.journal_tasks.specs.declared.fault.LogFault.TheVariants.{BadLine, IllFormed as FaultOfForm, Input, NoMemory, Output};

use crate::fault::LogFault;
use history_judge::input::read_input;
use history_judge::judgement::judge_calls;
use history_judge::said::{judgement_text, status_of};
use history_judge::well_formed::first_fault;
use journal_format::lines::MOST_BYTES;
use std::alloc::Global;
use std::io::Write;
use text_io::output::write_all;
use text_io::sources::ByteSource;

/// How a history is checked.
#[derive(Clone, Copy)]
pub struct Question {
    /// Whether the journal that explains the history is written, too.
    pub journal: bool,
    /// The maximum number of steps of the search; without it, five million, and ten for each call.
    pub budget: Option<u64>,
}

/// Without a journal, within as many steps as the number of calls gives.
pub const PLAIN: Question = Question {
    journal: false,
    budget: None,
};

/// The maximum number of steps of the search for this number of calls.
pub fn budget_for(given: Option<u64>, calls: usize) -> u64
    ensures { result ≡ budget_for given calls }
{
    match given {
        Some(steps) => steps,
        None => (calls as u64).saturating_mul(10).saturating_add(5_000_000),
    }
}

/// Reads a concurrent history line by line, checks whether it is linearizable, and writes the
/// result. Returns the exit status: 0 if it is linearizable, 1 if it is not, 5 if the budget was
/// used up.
///
/// - `LogFault::BadLine`: a line is not that of a call of a process from 1 to 32, or is too long
///   for one, and this is the first one. No read was made after those that returned it. Nothing is
///   written.
/// - `LogFault::IllFormed`: the history is ill-formed. This is the first line that makes it so, and
///   why. Nothing is written.
/// - `LogFault::Input`: a read failed. Nothing is written.
/// - `LogFault::Output`: a write failed. A prefix of the result is written.
/// - `LogFault::NoMemory`: memory was refused. Nothing is written.
pub fn judge_history<R: ByteSource, W: Write>(
    alloc: Global,
    input: &mut R,
    output: &mut W,
    question: Question,
) -> Result<u8, LogFault>
    ensures done { (all : List ℕ) → R.remaining input.old ≡ Some all →
        IfOk result (λ status. JudgesHistory question.budget (take (MOST_BYTES + 1) all)
        question.journal status (W.contents output.old) (W.contents output.new)) }
    ensures bad_line { (all : List ℕ) (line : ℕ) → R.remaining input.old ≡ Some all →
        IsErrOf result (BadLine line) → IsAtFault line (take (MOST_BYTES + 1) all) }
    ensures soon { (line : ℕ) → IsErrOf result (BadLine line) →
        ReadsUpTo line (R.remaining input.old) (R.remaining input.new) }
    ensures ill_formed { (all : List ℕ) (line : ℕ) (why : IllFormed) →
        R.remaining input.old ≡ Some all → IsErrOf result (FaultOfForm line why) →
        IsIllFormed line why (take (MOST_BYTES + 1) all) }
    ensures input { IsErrOf result Input → W.contents output.new ≡ W.contents output.old }
    ensures no_memory { IsErrOf result NoMemory → W.contents output.new ≡ W.contents output.old }
    ensures unwritten { (line : ℕ) → IsErrOf result (BadLine line) →
        W.contents output.new ≡ W.contents output.old }
    ensures unjudged { (line : ℕ) (why : IllFormed) → IsErrOf result (FaultOfForm line why) →
        W.contents output.new ≡ W.contents output.old }
    ensures output { (all : List ℕ) → R.remaining input.old ≡ Some all →
        IsErrOf result Output → StopsInJudgement question.budget (take (MOST_BYTES + 1) all)
        question.journal (W.contents output.old) (W.contents output.new) }
    ensures cause { IsErrOf result Input → HasFailed (R.failed input.new) }
    ensures well { (IsErrOf result Input → ⊥) → R.failed input.new ≡ R.failed input.old }
{
    let calls = read_input(alloc, input)?;
    if let Some((line, why)) = first_fault(&calls) {
        return Err(LogFault::IllFormed(line, why));
    }
    let budget = budget_for(question.budget, calls.len());
    let judgement = judge_calls(alloc, &calls, budget)?;
    let said = judgement_text(alloc, &calls, &judgement, budget, question.journal)?;
    write_all(output, said.as_slice())?;
    Ok(status_of(&judgement))
}
