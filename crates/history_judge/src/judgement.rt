//! Checking whether a history is linearizable.
ghost use Rattle.std.specs.Prelude.{◌≡◌, ◌≤◌, ◌<◌, IfOk, IfSome, Ok, false, length};
ghost use Rattle.history_judge.specs.Seen.{AreSameCalls};
ghost use Rattle.history_judge.specs.Fronts.{front_part};
ghost use Rattle.history_judge.specs.Processes.{AreOfProcesses};
ghost use Rattle.history_judge.specs.Verdicts.{AreHistoriesOf, HasContradiction, IsAnswer, IsImpossible, IsJudgement, are_pending, front_budget, tries};

use crate::descriptors::rename;
use crate::first_contradiction::{first_excess, first_not_full, first_passed};
use crate::front::{front_of, returns_of, whole_of};
use crate::hints::hints_of;
use crate::line::Called;
use crate::processes::{by_process, process_count};
use histories::contradiction::{Contradiction, find_contradiction};
use histories::judge::judge;
use histories::linearizer::Linearizer;
use histories::not_full::find_not_full;
use histories::operation::Operation;
use histories::passed::find_passed;
use journal_format::text::write_journal;
use schedules::ranked::Finding;
use std::alloc::{AllocError, Global};

/// Whether a history is linearizable.
#[derive(Drop)]
pub enum Answer {
    /// It is, and this is the text of a journal that explains it.
    Possible(Vec<u8>),
    /// It is not.
    Impossible,
    /// The budget was used up before either was known.
    OutOfBudget,
}

/// Whether these calls of processes from 1 to 32 are linearizable, found within `budget` steps.
/// Fails if memory was refused.
pub fn find_order(alloc: Global, calls: Vec<Called>, budget: u64) -> Result<Answer, AllocError>
    requires { AreOfProcesses calls.items }
    ensures answer { IfOk result (IsAnswer budget calls.items) }
    ensures returned { result ≡ Ok Answer.Impossible → are_pending calls.items ≡ false }
{
    let histories = histories_of(alloc, calls)?;
    if let Some(reason) = find_contradiction(alloc, &histories)? {
        let _reason = reason;
        return Ok(Answer::Impossible);
    }
    let hints = hints_of(alloc, &histories, budget)?;
    let mut linearizer = Linearizer::new(alloc, histories, hints)?;
    match judge(alloc, &mut linearizer, budget)? {
        Finding::Found(_) => {
            let journal = write_journal(alloc, linearizer.journal())?;
            Ok(Answer::Possible(journal))
        }
        Finding::Nothing => Ok(Answer::Impossible),
        Finding::OutOfBudget => Ok(Answer::OutOfBudget),
    }
}

// The operations of the processes of these calls, with this library's numbers of descriptors.
fn histories_of(alloc: Global, calls: Vec<Called>) -> Result<Vec<Vec<Operation>>, AllocError>
    ensures are { IfOk result (λ histories. AreHistoriesOf calls.items histories.items) }
    ensures few { IfOk result (λ histories. length histories.items ≤ 32) }
{
    let count = process_count(&calls);
    let by_process = by_process(alloc, calls, count)?;
    let mut histories: Vec<Vec<Operation>> = Vec::new(alloc);
    for operations in by_process {
        let own = rename(alloc, operations)?;
        histories.push(own)?;
    }
    Ok(histories)
}

/// The result of checking a history.
#[derive(Drop)]
pub enum Judgement {
    /// It is linearizable, and this is the text of a journal that explains it.
    Possible {
        journal: Vec<u8>,
    },
    /// It is not linearizable, and neither is its prefix until the return of this call.
    Impossible {
        /// The index of the call.
        call: usize,
        /// The prefix until then.
        front: Vec<Called>,
        /// Whether the prefix until the return before it is linearizable.
        is_shortest: bool,
        /// Calls until then that contradict each other, if some are found.
        reason: Option<Contradiction>,
    },
    /// The budget was used up before either was known.
    OutOfBudget,
}

/// Checks a history of processes from 1 to 32 within `budget` steps. If it is not linearizable, a
/// shorter prefix that is not is looked for. All that are tried have equal parts, together no more
/// than `budget`, or a hundred steps each if that is more. Of 50 calls or more each has no more than
/// two steps for each call and a quarter of `budget`, of 100 or more two for each call and a ninth,
/// and so on. Fails if memory was refused.
pub fn judge_calls(alloc: Global, calls: &[Called], budget: u64) -> Result<Judgement, AllocError>
    requires { AreOfProcesses calls.now }
    ensures { IfOk result (IsJudgement budget calls.now) }
{
    let whole = whole_of(alloc, calls)?;
    let answer = find_order(alloc, whole, budget)?;
    match answer {
        Answer::Possible(journal) => Ok(Judgement::Possible { journal }),
        Answer::OutOfBudget => Ok(Judgement::OutOfBudget),
        Answer::Impossible => shortest(alloc, calls, budget),
    }
}

// The maximum number of prefixes that the search for the shortest one tries, for this number of
// calls: one for each halving until none is left, and two at a guess.
fn tries(count: usize) -> u64
    ensures is { result ≡ tries count }
    ensures some { 0 < result }
{
    let halvings = 64 - (count as u64).leading_zeros();
    u64::from(halvings) + 2
}

// The steps that each prefix has at least, if the budget has as many.
const FEW_STEPS: u64 = 100;

// The budget for each prefix of a history of this number of calls.
fn front_budget(budget: u64, count: usize) -> u64
    ensures { result ≡ front_budget budget count }
{
    let parts = 1 + count as u64 / 50;
    let steps = 2 * count as u128 + u128::from(budget / parts / parts);
    let most = (budget / tries(count)).max(budget.min(FEW_STEPS));
    steps.min(u128::from(most)) as u64
}

// The shortest prefix that is not linearizable, of a history that is not.
fn shortest(alloc: Global, calls: &[Called], budget: u64) -> Result<Judgement, AllocError>
    requires processes { AreOfProcesses calls.now }
    requires impossible { IsImpossible calls.now }
    requires returned { are_pending calls.now ≡ false }
    ensures { IfOk result (IsJudgement budget calls.now) }
{
    let returns = returns_of(alloc, calls)?;
    let guess = guess(alloc, calls, &returns)?;
    let share = front_budget(budget, calls.len());
    // The prefix `bad` is not linearizable, and no prefix before `good` is known not to be. The
    // prefix after the last return is the whole history.
    let mut good = 0;
    let mut bad = returns.len();
    let mut is_shortest = true;
    while good < bad {
        let middle = next_to_try(good, bad, guess);
        let answer = judge_front(alloc, calls, &returns, middle, share)?;
        match answer {
            Answer::Impossible => bad = middle,
            Answer::Possible(_) => good = middle + 1,
            Answer::OutOfBudget => {
                is_shortest = false;
                good = middle + 1;
            }
        }
    }
    let front = front_part(alloc, calls, &returns, bad)?;
    let reason = contradiction_in(alloc, calls, &returns, bad)?;
    let at = bad.min(returns.len().saturating_sub(1));
    let last = returns[at];
    Ok(Judgement::Impossible {
        call: last.1,
        front,
        is_shortest,
        reason,
    })
}

// A guess at the shortest prefix in which calls contradict each other.
fn guess(
    alloc: Global,
    calls: &[Called],
    returns: &Vec<(u64, usize)>,
) -> Result<Option<usize>, AllocError> {
    let excess = first_excess(alloc, calls, returns)?;
    let whole = whole_of(alloc, calls)?;
    let histories = histories_of(alloc, whole)?;
    let passed = match find_passed(alloc, &histories)? {
        None => None,
        Some(passed) => first_passed(calls, returns, passed.to),
    };
    let not_full = match find_not_full(alloc, &histories)? {
        None => None,
        Some(found) => first_not_full(alloc, calls, returns, &found)?,
    };
    Ok(first_of(first_of(excess, passed), not_full))
}

// The lesser of two indices, of those that there are.
fn first_of(one: Option<usize>, other: Option<usize>) -> Option<usize> {
    match (one, other) {
        (Some(one), Some(other)) => Some(one.min(other)),
        (Some(one), None) => Some(one),
        (None, other) => other,
    }
}

// The next prefix to check, from `good` on and before `bad`. It is the guess at the shortest one
// with a contradiction; if that is `bad`, it is the one before; otherwise it is one in the middle.
fn next_to_try(good: usize, bad: usize, guess: Option<usize>) -> usize
    requires { good < bad }
    ensures { (good ≤ result) × (result < bad) }
{
    match guess {
        Some(guess) => {
            if guess == bad {
                bad - 1
            } else if good <= guess && guess < bad {
                guess
            } else {
                good + (bad - good) / 2
            }
        }
        None => good + (bad - good) / 2,
    }
}

// Calls that contradict each other in the prefix with this index, if some are found.
fn contradiction_in(
    alloc: Global,
    calls: &[Called],
    returns: &Vec<(u64, usize)>,
    number: usize,
) -> Result<Option<Contradiction>, AllocError>
    ensures { IfOk result (λ found.
        IfSome found (HasContradiction (front_part calls.now returns.now.items number))) }
{
    let front = front_part(alloc, calls, returns, number)?;
    let histories = histories_of(alloc, front)?;
    find_contradiction(alloc, &histories)
}

// The prefix with this index: until a return, or the whole history.
fn front_part(
    alloc: Global,
    calls: &[Called],
    returns: &Vec<(u64, usize)>,
    number: usize,
) -> Result<Vec<Called>, AllocError>
    ensures { IfOk result (λ front.
        AreSameCalls front.items (front_part calls.now returns.now.items number)) }
{
    if number >= returns.len() {
        return whole_of(alloc, calls);
    }
    front_of(alloc, calls, returns[number])
}

// Whether the prefix with this index is linearizable.
fn judge_front(
    alloc: Global,
    calls: &[Called],
    returns: &Vec<(u64, usize)>,
    number: usize,
    budget: u64,
) -> Result<Answer, AllocError>
    requires { AreOfProcesses calls.now }
    ensures { IfOk result (IsAnswer budget (front_part calls.now returns.now.items number)) }
{
    let front = front_part(alloc, calls, returns, number)?;
    let answer = find_order(alloc, front, budget)?;
    Ok(answer)
}
