//! The outcomes of all schedules of a machine.
ghost use Rattle.std.specs.Prelude.{◌≡◌, ◌≤◌, ◌+◌, ◌*◌, ◌++◌, ◌∷◌, [], All, IfOk, List, None, OnOk, Some, false, if◌then◌else◌, is_some, true};
ghost use Rattle.schedules.specs.Choices.{IsFirstFrom};
ghost use Rattle.schedules.specs.Persistence.{IsFirst, IsFollowing};
ghost use Rattle.schedules.specs.Schedules.{after};
ghost use Rattle.schedules.specs.Seen.{Noted, is_done, key_count};
ghost use Rattle.schedules.specs.Observed.{Observed};
ghost use Rattle.schedules.specs.Outcomes.{AreAll, AreDistinct, AreFoundWithin, Grows, IsWitness, are_same, is_among, observed_in};
ghost use Rattle.schedules.specs.Work.{TakesAll};
ghost use Rattle.schedules.specs.declared.outcomes.Level.{Level};

use crate::machine::Machine;
use crate::marks::Mark;
use crate::persistent::PersistentChoices;
use crate::runs::go_back;
use crate::seen::Seen;
use std::alloc::{AllocError, Global};

/// The outcome at a goal: the stage that the machine has reached, whether it is stuck, and a text.
#[derive(Drop)]
pub struct Outcome {
    pub stage: u64,
    pub stuck: bool,
    pub text: Vec<u8>,
}

/// A machine with an outcome at each of its goals.
pub trait Observable: Machine {
    /// The outcome of a state.
    ghost outcome: { Self → Observed };

    fn outcome(&self, alloc: Global) -> Result<Outcome, AllocError>
        ensures { IfOk result (λ o. observed_in o ≡ outcome self.now) };

    /// Whether a choice can be taken. It is not taken.
    fn can_step(&self, choice: u32) -> bool
        ensures { result ≡ is_some (Self.next self.now choice) };
}

/// A machine whose equivalent states have the same outcome.
pub trait EquivalentOutcomes: Observable + PersistentChoices {
    /// Equivalent states have the same outcome. The method does nothing: its contract is the law.
    fn have_equal_outcomes(&self)
        ensures { (x y : Self) → Self.IsAlike x y → Self.outcome x ≡ Self.outcome y };
}

/// An outcome, and a schedule that leads to it.
#[derive(Drop)]
pub struct Witnessed {
    pub outcome: Outcome,
    pub schedule: Vec<u32>,
}

/// The outcomes that were found, in order.
#[derive(Drop)]
pub struct Collected {
    pub found: Vec<Witnessed>,
    /// Whether every schedule was tried, so that there are no others.
    pub complete: bool,
    /// How many steps the search took.
    pub steps: u64,
    /// How many states the search keeps, so as not to explore equivalent ones again.
    pub states: u64,
}

// Whether two outcomes are equal.
fn are_same(a: &Outcome, b: &Outcome) -> bool
    ensures { result ≡ are_same (observed_in a.now) (observed_in b.now) }
{
    a.stage == b.stage && a.stuck == b.stuck && a.text.as_slice() == b.text.as_slice()
}

// Whether this outcome was found.
fn is_among(found: &[Witnessed], outcome: &Outcome) -> bool
    ensures { result ≡ is_among found.now (observed_in outcome.now) }
{
    found
        .iter()
        .any(|witnessed| are_same(&witnessed.outcome, outcome))
}

// Adds the outcome of the machine's state, to which the path leads, if it is a goal and its outcome
// was not found before.
fn note<M: Observable>(
    alloc: Global,
    machine: &M,
    path: &[u32],
    found: &mut Vec<Witnessed>,
) -> Result<(), AllocError>
    requires runs { after M.next path.now (M.start machine.now) ≡ Some machine.now }
    requires distinct { AreDistinct found.old.items }
    requires witnessed { All (IsWitness M.next M.is_goal M.outcome
        (M.start machine.now)) found.old.items }
    ensures distinct { OnOk result (AreDistinct found.new.items) }
    ensures witnessed { OnOk result
        (All (IsWitness M.next M.is_goal M.outcome (M.start machine.now)) found.new.items) }
    ensures kept { OnOk result ((observed : Observed) → is_among found.new.items observed ≡ false →
        is_among found.old.items observed ≡ false) }
    ensures noted { OnOk result (M.is_goal machine.now ≡ true →
        is_among found.new.items (M.outcome machine.now) ≡ true) }
    ensures grows { OnOk result (Grows path.now found.old.items found.new.items) }
{
    if !machine.is_goal() {
        return Ok(());
    }
    let outcome = machine.outcome(alloc)?;
    if is_among(found, &outcome) {
        return Ok(());
    }
    let schedule = path.to_vec(alloc)?;
    found.push(Witnessed { outcome, schedule })?;
    Ok(())
}

// The first choice from this one on that can be taken.
fn first_from<M: Observable>(machine: &M, from: u64) -> Option<u32>
    ensures { IsFirstFrom M.next machine.now from result }
{
    for choice in from..u64::from(machine.choices()) {
        if machine.can_step(choice as u32) {
            return Some(choice as u32);
        }
    }
    None
}

// The choice to take first at a state: a persistent one, if one is known.
fn first_choice<M: EquivalentOutcomes>(machine: &M) -> Option<u32>
    ensures { IsFirst M.next M.IsPersistent machine.now result }
{
    match machine.persistent() {
        Some(choice) => Some(choice),
        None => first_from(machine, 0),
    }
}

// The choice to take after this one at a state: none if this one is known to be persistent.
fn following<M: EquivalentOutcomes>(machine: &M, choice: u32) -> Option<u32>
    ensures { IsFollowing M.next M.IsPersistent machine.now choice result }
{
    match machine.persistent() {
        Some(persistent) if persistent == choice => None,
        _ => first_from(machine, u64::from(choice) + 1),
    }
}

// What a search knows about a choice on its path: the next one to take instead of it, and the key
// of the node to which it leads, if that is worth noting.
#[derive(Drop)]
struct Level {
    other: Option<u32>,
    key: Option<Vec<u64>>,
}

// The first choice at a node that was just entered; none if the search is done with a node of the
// same key.
fn first_at<M: EquivalentOutcomes>(machine: &M, seen: &Seen, key: &Option<Vec<u64>>) -> Option<u32>
    ensures new { is_done seen.now key.now ≡ false →
        IsFirst M.next M.IsPersistent machine.now result }
    ensures done { is_done seen.now key.now ≡ true → result ≡ None }
{
    if seen.is_done(key) {
        None
    } else {
        first_choice(machine)
    }
}

// The key to note when the search leaves a node: none if it tries nothing from the node, since that
// key may be noted already.
fn kept(key: Option<Vec<u64>>, next: &Option<u32>) -> Option<Vec<u64>>
    ensures { result ≡ (if is_some next.now then key else None) }
{
    if next.is_some() { key } else { None }
}

// Removes the last level, and notes the key of its node, if it has one.
fn leave(levels: &mut Vec<Level>, seen: &mut Seen) -> Result<Option<u32>, AllocError>
    ensures left { (front : List Level) (last : Level) → levels.old.items ≡ front ++ last ∷ [] →
        IfOk result (λ other. (other ≡ last.other) × (levels.new.items ≡ front) ×
        Noted seen.old seen.new last.key) }
    ensures count { OnOk result (key_count seen.new ≤ key_count seen.old + 1) }
{
    let Some(Level { other, key }) = levels.pop() else {
        return Ok(None);
    };
    if let Some(key) = key {
        seen.add(key)?;
    }
    Ok(other)
}

/// Tries every schedule of a machine, in at most `budget` steps, and collects the outcomes of the
/// goals that they lead to. A step takes a choice, or takes one back. After taking one back, the
/// search returns to the state before it only if another choice follows. A persistent choice is
/// taken alone. Equivalent states, which have the same key, are explored once. Fails if memory was
/// refused.
pub fn collect<M: EquivalentOutcomes>(
    alloc: Global,
    machine: &mut M,
    budget: u64,
) -> Result<Collected, AllocError>
    ensures witnessed { IfOk result (λ c.
        All (IsWitness M.next M.is_goal M.outcome (M.start machine.old)) c.found.items) }
    ensures distinct { IfOk result (λ c. AreDistinct c.found.items) }
    ensures all { IfOk result (λ c. c.complete ≡ true →
        AreAll M.next M.is_goal M.outcome (M.start machine.old) c.found.items) }
    ensures used_up { IfOk result (λ c. c.complete ≡ false →
        TakesAll M.next M.choices (λ depth. 1) budget (M.start machine.old)) }
    ensures steps { IfOk result (λ c. (c.steps ≤ budget) × (c.complete ≡ false →
        c.steps ≡ budget)) }
    ensures within { IfOk result (λ c. c.complete ≡ true → AreFoundWithin c.steps c.found.items) }
    ensures states { IfOk result (λ c. 2 * c.states ≤ c.steps) }
    ensures start { OnOk result (M.start machine.new ≡ M.start machine.old) }
{
    machine.keeps_alike();
    machine.choices_commute();
    machine.have_equal_outcomes();
    machine.restart()?;
    let mut path: Vec<u32> = Vec::new(alloc);
    let mut levels: Vec<Level> = Vec::new(alloc);
    let mut marks: Vec<Mark<M::Saved>> = Vec::new(alloc);
    let mut seen = Seen::new(alloc);
    let mut found = Vec::new(alloc);
    note(alloc, machine, &path, &mut found)?;
    let mut next = first_choice(machine);
    for steps in 0..budget {
        match next {
            Some(choice) => {
                let other = following(machine, choice);
                let _went = machine.step(choice)?;
                path.push(choice)?;
                note(alloc, machine, &path, &mut found)?;
                let key = machine.key(alloc)?;
                next = first_at(machine, &seen, &key);
                let key = kept(key, &next);
                levels.push(Level { other, key })?;
            }
            None => {
                let Some(_taken) = path.pop() else {
                    return Ok(Collected {
                        found,
                        complete: true,
                        steps,
                        states: seen.count(),
                    });
                };
                next = leave(&mut levels, &mut seen)?;
                if next.is_some() {
                    go_back(alloc, machine, &path, &mut marks)?;
                }
            }
        }
    }
    Ok(Collected {
        found,
        complete: false,
        steps: budget,
        states: seen.count(),
    })
}
