//! The report of the outcomes of a script.
ghost use Rattle.std.specs.Prelude.{◌≡◌, ◌++◌, ◌+◌, ◌<◌, ◌^◌, IfOk, OnOk, count_by, string_bytes};
ghost use Rattle.script_orders.specs.Report.{end_text, entry_head, entries_text, head_text, is_deadlock_of, is_outcome_of, phase_text, report_text};

use schedules::outcomes::{Collected, Witnessed};
use std::alloc::{AllocError, Global};

fn is_outcome_of(found: &Witnessed, phase: u64) -> bool
    ensures { result ≡ is_outcome_of phase found.now }
{
    found.outcome.stage == phase && !found.outcome.stuck
}

fn is_deadlock_of(found: &Witnessed, phase: u64) -> bool
    ensures { result ≡ is_deadlock_of phase found.now }
{
    found.outcome.stage == phase && found.outcome.stuck
}

fn outcomes_of(found: &[Witnessed], phase: u64) -> usize
    ensures { result ≡ count_by (is_outcome_of phase) found.now }
{
    found.iter().filter(|w| is_outcome_of(w, phase)).count()
}

fn deadlocks_of(found: &[Witnessed], phase: u64) -> usize
    ensures { result ≡ count_by (is_deadlock_of phase) found.now }
{
    found.iter().filter(|w| is_deadlock_of(w, phase)).count()
}

// The first line about a phase.
fn head_text(alloc: Global, found: &[Witnessed], phase: u64) -> Result<String, AllocError>
    requires { phase + 1 < 2 ^ 64 }
    ensures { IfOk result (λ text. string_bytes text ≡ head_text found.now phase) }
{
    let number = phase + 1;
    let outcomes = outcomes_of(found, phase);
    let deadlocks = deadlocks_of(found, phase);
    format!(in alloc; "phase {number}: outcomes {outcomes}, deadlocks {deadlocks}\n")
}

// The line before an outcome or a deadlock.
fn entry_head(alloc: Global, found: &Witnessed, number: u64) -> Result<String, AllocError>
    ensures { IfOk result (λ text. string_bytes text ≡ entry_head found.now number) }
{
    if found.outcome.stuck {
        format!(in alloc; "deadlock {number}\n")
    } else {
        format!(in alloc; "outcome {number}\n")
    }
}

// Appends the outcomes and deadlocks of a phase.
fn push_entries(
    alloc: Global,
    text: &mut Vec<u8>,
    found: &[Witnessed],
    phase: u64,
) -> Result<(), AllocError>
    ensures { OnOk result (text.new.items ≡ text.old.items ++ entries_text phase 0 found.now) }
{
    for at in 0..found.len() {
        let one = &found[at];
        if one.outcome.stage == phase {
            let head = entry_head(alloc, one, at as u64 + 1)?;
            text.extend_from_slice(head.as_bytes())?;
            text.extend_from_slice(one.outcome.text.as_slice())?;
        }
    }
    Ok(())
}

// Appends a phase.
fn push_phase(
    alloc: Global,
    text: &mut Vec<u8>,
    found: &[Witnessed],
    phase: u64,
) -> Result<(), AllocError>
    requires { phase + 1 < 2 ^ 64 }
    ensures { OnOk result (text.new.items ≡ text.old.items ++ phase_text found.now phase) }
{
    let head = head_text(alloc, found, phase)?;
    text.extend_from_slice(head.as_bytes())?;
    push_entries(alloc, text, found, phase)
}

fn end_text(alloc: Global, complete: bool, steps: u64, states: u64) -> Result<String, AllocError>
    ensures { IfOk result (λ text. string_bytes text ≡ end_text complete steps states) }
{
    if complete {
        format!(in alloc; "every order was tried, in {steps} steps, {states} states kept\n")
    } else {
        format!(in alloc;
            "the budget of {steps} steps was used up, {states} states kept: \
             there may be more\n"
        )
    }
}

/// The report of the outcomes of a script with this number of phases. For each phase it has the
/// number of outcomes and the replies of each, the number of deadlocks and the calls that wait in
/// each. At the end it says whether every interleaving was tried, in how many steps, and how many
/// states were kept. Outcomes and deadlocks are numbered by their positions in the list, from 1.
pub fn report_text(alloc: Global, phases: u64, collected: &Collected) -> Result<Vec<u8>, AllocError>
    ensures { IfOk result (λ text. text.items ≡
        report_text phases collected.now.found.items collected.now.complete collected.now.steps
        collected.now.states) }
{
    let mut text = Vec::new(alloc);
    for phase in 0..phases {
        push_phase(alloc, &mut text, &collected.found, phase)?;
    }
    let end = end_text(alloc, collected.complete, collected.steps, collected.states)?;
    text.extend_from_slice(end.as_bytes())?;
    Ok(text)
}
