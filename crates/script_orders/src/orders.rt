//! Trying every interleaving of the calls of a script.
ghost use Rattle.std.specs.Prelude.{◌≡◌, ◌≤◌, ◌+◌, ◌*◌, ℕ, List, IfOk, OnOk, None, Some, false, true};
ghost use Rattle.std.specs.List.{All};
ghost use Rattle.mq_model.specs.Legality.{Legal};
ghost use Rattle.mq_model.specs.Waits.{open_wait};
ghost use Rattle.schedules.specs.Schedules.{after};
ghost use Rattle.schedules.specs.Outcomes.{AreAll, AreDistinct, AreFoundWithin, IsWitness};
ghost use Rattle.schedules.specs.Work.{TakesAll};
ghost use Rattle.script_text.specs.Script.{Whole, said_script};
ghost use Rattle.script_orders.specs.Orders.{AreLegal, Begins, BeginsAfter, HasMade};
ghost use Rattle.script_orders.specs.Phased.{AreInOrder};
ghost use Rattle.script_orders.specs.Stage.{Stage, choice_count, first_stage, next_stage, stands_still, observed, turn_of};

use crate::phased::in_phases;
use crate::plan::programs_of;
use crate::play::Play;
use mq_model::journals::Journal;
use schedules::outcomes::{Collected, collect};
use script_text::script::Script;
use std::alloc::{AllocError, Global};

/// The processes of a script with these bytes, before their first lines.
pub fn play_of(alloc: Global, script: &Script<'_>, bytes: &[u8]) -> Result<Play, AllocError>
    requires { script.now.processes ≤ 32 }
    ensures begins { IfOk result (Begins (said_script script.now)) }
    ensures script { IfOk result (λ play. play.script ≡ bytes.now) }
{
    play_after(alloc, script, bytes, Journal::new(alloc))
}

/// The same after the calls of a journal.
pub fn play_after(
    alloc: Global,
    script: &Script<'_>,
    bytes: &[u8],
    journal: Journal,
) -> Result<Play, AllocError>
    requires processes { script.now.processes ≤ 32 }
    requires legal { Legal journal.records }
    ensures begins { IfOk result (BeginsAfter journal.records (said_script script.now)) }
    ensures script { IfOk result (λ play. play.script ≡ bytes.now) }
{
    let programs = programs_of(alloc, script)?;
    let phases = script.phases.len() as u64;
    Play::new(alloc, programs, phases, bytes.to_vec(alloc)?, journal)
}

/// Tries every interleaving of the calls of a script, in at most `budget` steps, and collects the
/// outcomes: for each phase the replies, or that it deadlocks, with the lines whose calls wait for
/// ever. Equal outcomes are collected once, and stand in the order of phases. The journal of each
/// interleaving is legal. Fails if memory was refused.
pub fn outcomes_of(alloc: Global, play: &mut Play, budget: u64) -> Result<Collected, AllocError>
    ensures witnessed { IfOk result (λ c.
        All (IsWitness next_stage stands_still observed (first_stage play.old)) c.found.items) }
    ensures distinct { IfOk result (λ c. AreDistinct c.found.items) }
    ensures all { IfOk result (λ c. c.complete ≡ true →
        AreAll next_stage stands_still observed (first_stage play.old) c.found.items) }
    ensures used_up { IfOk result (λ c. c.complete ≡ false →
        TakesAll next_stage choice_count (λ depth. 1) budget (first_stage play.old)) }
    ensures steps { IfOk result (λ c. (c.steps ≤ budget) × (c.complete ≡ false →
        c.steps ≡ budget)) }
    ensures within { IfOk result (λ c. c.complete ≡ true → AreFoundWithin c.steps c.found.items) }
    ensures states { IfOk result (λ c. 2 * c.states ≤ c.steps) }
    ensures in_order { IfOk result (λ c. AreInOrder c.found.items) }
    ensures legal { AreLegal (first_stage play.old) }
    ensures start { OnOk result (first_stage play.new ≡ first_stage play.old) }
{
    play.stays_legal();
    let Collected {
        found,
        complete,
        steps,
        states,
    } = collect(alloc, play, budget)?;
    let found = in_phases(alloc, found)?;
    Ok(Collected {
        found,
        complete,
        steps,
        states,
    })
}

/// If a process neither waits nor can take a step, after a schedule from the start of a script, it
/// has made all its lines up to those of the phase. The function does nothing: its contract is the
/// law.
pub fn all_is_made()
    ensures { (script : Whole) (from s : Stage) (schedule : List ℕ) (index : ℕ) →
        script.processes ≤ 32 → Begins script from → after next_stage schedule from ≡ Some s →
        turn_of s index ≡ None → open_wait s.past (index + 1) ≡ None → HasMade s index }
{}
