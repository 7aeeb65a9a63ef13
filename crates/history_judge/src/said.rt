//! The text of the result of checking a history.
ghost use Rattle.std.specs.Prelude.{◌≡◌, IfOk, Some, string_bytes};
ghost use Rattle.histories.specs.declared.contradiction.Contradiction.TheVariants as contradiction;
ghost use Rattle.history_judge.specs.Said.{contradiction_text, count_text, impossible_line, judgement_text, possible_line, reason, send_text, shortness, status_of, undecided_line};

use crate::judgement::Judgement;
use crate::line::Called;
use crate::processes::process_count;
use crate::text::write_history;
use histories::contradiction::Contradiction;
use histories::excess::Excess;
use histories::not_full::NotFull;
use histories::passed::Passed;
use journal_format::payload::payload_text;
use std::alloc::{AllocError, Global};

// The line for a linearizable history.
fn possible_line(alloc: Global, calls: usize, processes: u32) -> Result<String, AllocError>
    ensures { IfOk result (λ line. string_bytes line ≡ possible_line calls processes) }
{
    format!(in alloc; "possible: {calls} calls, {processes} processes\n")
}

// The remark about a prefix that may not be the shortest.
fn shortness(is_shortest: bool) -> &'static str
    ensures { result.now ≡ shortness is_shortest }
{
    if is_shortest {
        ""
    } else {
        ", perhaps not the shortest"
    }
}

// Why there is no linearization, if it is known.
fn reason(alloc: Global, found: &Option<Contradiction>) -> Result<String, AllocError>
    ensures { IfOk result (λ text. string_bytes text ≡ reason found.now) }
{
    match found {
        None => Ok(String::new(alloc)),
        Some(Contradiction::Excess(excess)) => excess_text(alloc, excess),
        Some(Contradiction::Passed(passed)) => passed_text(alloc, passed),
        Some(Contradiction::NotFull(found)) => not_full_text(alloc, found),
    }
}

fn passed_text(alloc: Global, passed: &Passed) -> Result<String, AllocError>
    ensures { IfOk result (λ text.
        string_bytes text ≡ contradiction_text (contradiction.Passed passed.now)) }
{
    let prio = passed.prio;
    let message = payload_text(alloc, &passed.message)?;
    let from = passed.from;
    let to = passed.to;
    format!(in alloc; "; {prio}{message} lay in the queue from {from} to {to}")
}

// A send of a message, and when it was made.
fn send_text(
    alloc: Global,
    prio: u32,
    message: &[u8],
    from: u64,
    to: u64,
) -> Result<String, AllocError>
    ensures { IfOk result (λ text. string_bytes text ≡ send_text prio message.now from to) }
{
    let message = payload_text(alloc, message)?;
    format!(in alloc; "{prio}{message} between {from} and {to}")
}

fn count_text(alloc: Global, most: u128, capacity: u64) -> Result<String, AllocError>
    ensures { IfOk result (λ text. string_bytes text ≡ count_text most capacity) }
{
    format!(in alloc; "{most} of {capacity} messages")
}

fn not_full_text(alloc: Global, found: &NotFull) -> Result<String, AllocError>
    ensures { IfOk result (λ text.
        string_bytes text ≡ contradiction_text (contradiction.NotFull found.now)) }
{
    let send = send_text(alloc, found.prio, &found.message, found.from, found.to)?;
    let most = found.sent.saturating_sub(found.received);
    let count = count_text(alloc, most, found.capacity)?;
    format!(in alloc; "; a send of {send} found the queue full with at most {count}")
}

fn excess_text(alloc: Global, excess: &Excess) -> Result<String, AllocError>
    ensures { IfOk result (λ text.
        string_bytes text ≡ contradiction_text (contradiction.Excess excess.now)) }
{
    let received = excess.received;
    let sent = excess.sent;
    let prio = excess.prio;
    let message = payload_text(alloc, &excess.message)?;
    format!(in alloc; "; {received} receives, {sent} sends of {prio}{message}")
}

// The line for a history that is not linearizable.
fn impossible_line(
    alloc: Global,
    line: u64,
    calls: usize,
    is_shortest: bool,
    found: &Option<Contradiction>,
) -> Result<String, AllocError>
    ensures { IfOk result (λ text.
        string_bytes text ≡ impossible_line line calls is_shortest found.now) }
{
    let known = shortness(is_shortest);
    let reason = reason(alloc, found)?;
    format!(in alloc; "impossible: line {line}, front part of {calls} calls{known}{reason}\n")
}

// The line for a search that used up its budget.
fn undecided_line(alloc: Global, budget: u64) -> Result<String, AllocError>
    ensures { IfOk result (λ line. string_bytes line ≡ undecided_line budget) }
{
    format!(in alloc; "undecided: the budget of {budget} steps was used up\n")
}

/// The text of the result of checking a history: a line, and after it the journal that explains the
/// history if `with_journal`, or the prefix that is not linearizable, as a history. `budget` is the
/// one of the search.
pub fn judgement_text(
    alloc: Global,
    calls: &[Called],
    judgement: &Judgement,
    budget: u64,
    with_journal: bool,
) -> Result<Vec<u8>, AllocError>
    ensures { IfOk result (λ text.
        text.items ≡ judgement_text calls.now budget with_journal judgement.now) }
{
    let mut text = Vec::new(alloc);
    match judgement {
        Judgement::Possible { journal } => {
            let line = possible_line(alloc, calls.len(), process_count(calls))?;
            text.extend_from_slice(line.as_bytes())?;
            if with_journal {
                text.extend_from_slice(journal)?;
            }
        }
        Judgement::Impossible {
            call,
            front,
            is_shortest,
            reason,
        } => {
            let number = (*call as u64).saturating_add(1);
            let line = impossible_line(alloc, number, front.len(), *is_shortest, reason)?;
            text.extend_from_slice(line.as_bytes())?;
            let history = write_history(alloc, front)?;
            text.extend_from_slice(&history)?;
        }
        Judgement::OutOfBudget => {
            let line = undecided_line(alloc, budget)?;
            text.extend_from_slice(line.as_bytes())?;
        }
    }
    Ok(text)
}

/// The exit status for a result: 0 if linearizable, 1 if not, 5 if the budget was used up.
pub fn status_of(judgement: &Judgement) -> u8
    ensures { result ≡ status_of judgement.now }
{
    match judgement {
        Judgement::Possible { .. } => 0,
        Judgement::Impossible { .. } => 1,
        Judgement::OutOfBudget => 5,
    }
}
