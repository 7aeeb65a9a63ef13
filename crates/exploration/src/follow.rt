//! What the steps of a run did, and which message each receive took.
ghost use Rattle.std.specs.Prelude.{◌≡◌, true, false};
ghost use Rattle.exploration.specs.Locks.{is_write_lock};

use crate::deed::{Deed, Effect, is_receive, is_send};
use crate::kind::Kind;
use crate::operation::{Ability, Choice, Operation, Parked, Step, Trace, parked_of};
use crate::trace::Room;
use std::alloc::{AllocError, Global};

// A message of a queue.
#[derive(Clone, Copy)]
struct Held {
    priority: u32,
    // The number of its send, counted from 1.
    message: u32,
}

// The messages of a queue in a run.
#[derive(Drop)]
struct Moved {
    object: u32,
    room: u32,
    held: Vec<Held>,
    sends: u32,
    receives: u32,
    // Whether a notice was asked for. From then on it matters whether a send finds it empty.
    is_watched: bool,
}

/// The state of the queues after the steps of a run so far.
#[derive(Drop)]
pub struct Follower {
    queues: Vec<Moved>,
}

/// When deadlines may pass.
#[derive(Clone, Copy)]
pub struct Rules {
    /// Whether a deadline may pass at any time, and not only when no other thread can go on.
    pub any_time: bool,
}

// The message that is received next: the oldest of the highest priority.
fn next_message(held: &[Held]) -> Option<usize> {
    let mut best: Option<(usize, u32)> = None;
    for (i, it) in held.iter().enumerate() {
        match best {
            Some((_, priority)) if it.priority <= priority => {}
            _ => best = Some((i, it.priority)),
        }
    }
    match best {
        Some((i, _)) if i < held.len() => Some(i),
        _ => None,
    }
}

// The capacity of a queue that is known, that is, was empty when it was first seen.
fn known_room(rooms: &[Room], object: u32) -> Option<u32> {
    let room = rooms.iter().find(|it| it.object == object)?;
    if room.held == 0 {
        Some(room.most)
    } else {
        None
    }
}

impl Moved {
    fn send(&mut self, effect: &mut Effect, place: u32) -> Result<(), AllocError> {
        self.sends = self.sends.saturating_add(1);
        effect.message = place;
        effect.number = self.sends;
        effect.room = self.room;
        self.held.push(Held {
            priority: effect.priority,
            message: place,
        })?;
        Ok(())
    }

    fn receive(&mut self, effect: &mut Effect) {
        let Some(i) = next_message(&self.held) else {
            return;
        };
        if i < self.held.len() {
            let older = self.held[..i].iter().count();
            let it = self.held.remove(i);
            self.receives = self.receives.saturating_add(1);
            effect.message = it.message;
            effect.priority = it.priority;
            effect.number = self.receives;
            effect.room = self.room;
            effect.older = u32::try_from(older).unwrap_or(u32::MAX);
        }
    }
}

impl Follower {
    /// Follows a run from its start, at which no queue is known.
    pub fn new(alloc: Global) -> Follower {
        Follower {
            queues: Vec::new(alloc),
        }
    }

    // The queue of a call, if it is known.
    fn queue(
        &mut self,
        alloc: Global,
        rooms: &[Room],
        object: u32,
    ) -> Result<Option<&mut Moved>, AllocError> {
        let found = self.queues.iter().position(|it| it.object == object);
        let at = match found {
            Some(at) => at,
            None => {
                let Some(room) = known_room(rooms, object) else {
                    return Ok(None);
                };
                let held = Vec::new(alloc);
                self.queues.push(Moved {
                    object,
                    room,
                    held,
                    sends: 0,
                    receives: 0,
                    is_watched: false,
                })?;
                self.queues.len() - 1
            }
        };
        Ok(self.queues.get_mut(at))
    }

    fn follow(
        &mut self,
        alloc: Global,
        rooms: &[Room],
        effect: &mut Effect,
        place: u32,
    ) -> Result<(), AllocError> {
        if effect.looks {
            return Ok(());
        }
        let is_sent = is_send(effect.kind);
        let is_asked = matches!(effect.kind, Kind::Notify);
        if !is_sent && !is_asked && !is_receive(effect.kind) {
            return Ok(());
        }
        let Some(queue) = self.queue(alloc, rooms, effect.object)? else {
            return Ok(());
        };
        queue.is_watched = queue.is_watched || is_asked;
        if queue.is_watched {
            return Ok(());
        }
        if is_sent {
            queue.send(effect, place)
        } else {
            queue.receive(effect);
            Ok(())
        }
    }
}

// Whether an operation changes nothing: it fails, or only reads. Read locks count, since they commute.
// So a write lock never does: one that fails depends on the readers that it found.
fn only_looks(kind: Kind, error: u32) -> bool
    ensures { is_write_lock kind ≡ true → result ≡ false }
{
    match kind {
        Kind::GetAttr | Kind::ReadLock => true,
        Kind::Send | Kind::Receive | Kind::TryLock | Kind::SemTry | Kind::SemWait => error != 0,
        Kind::Lock | Kind::Wake => error != 0,
        _ => false,
    }
}

fn effect_of(kind: Kind, object: u32, error: u32) -> Effect {
    Effect {
        kind,
        object,
        looks: only_looks(kind, error),
        is_free: false,
        message: 0,
        priority: 0,
        number: 0,
        room: 0,
        older: 0,
    }
}

// The effects of an operation: on its object, and for a half of a wait also on its mutex.
fn effects_of(alloc: Global, operation: Operation, error: u32) -> Result<Vec<Effect>, AllocError> {
    let mut effects = Vec::new(alloc);
    if operation.object != 0 {
        let mut effect = effect_of(operation.kind, operation.object, error);
        effect.is_free = operation.has_deadline || operation.is_try;
        effect.priority = operation.argument;
        effects.push(effect)?;
    }
    if operation.argument != 0 {
        match operation.kind {
            Kind::Register => effects.push(effect_of(Kind::Unlock, operation.argument, 0))?,
            Kind::Wake => effects.push(effect_of(Kind::Lock, operation.argument, 0))?,
            _ => {}
        }
    }
    Ok(effects)
}

fn stands_still(rules: Rules, kind: Kind, is_late: bool) -> bool {
    matches!(kind, Kind::Yield) || is_late && !rules.any_time
}

/// The step that a thread would make if it could do its operation.
pub fn likely_deed(alloc: Global, rules: Rules, parked: &Parked) -> Result<Deed, AllocError> {
    let effects = effects_of(alloc, parked.operation, 0)?;
    let created = Vec::new(alloc);
    Ok(Deed {
        choice: Choice {
            thread: parked.thread,
            variant: 0,
        },
        kind: parked.operation.kind,
        is_late: false,
        stands_still: stands_still(rules, parked.operation.kind, false),
        effects,
        created,
        cause: None,
    })
}

/// Whether a step is no choice: it is made at once, and meanwhile no other thread is shown as able
/// to go on.
pub fn is_local(step: &Step) -> bool {
    match parked_of(&step.parked, step.choice.thread) {
        Some(it) => match it.operation.kind {
            Kind::Start | Kind::Join => true,
            Kind::Collect => !matches!(it.ability, Ability::Late),
            _ => false,
        },
        None => false,
    }
}

// The index of the step that let the step at index `place` go on: the last one before which its
// thread was parked and could not go on.
fn cause_of(steps: &[Step], place: usize, thread: u32) -> Option<usize> {
    for k in (0..place).rev() {
        let step = steps.get(k)?;
        if step.choice.thread == thread {
            return None;
        }
        let can = match parked_of(&step.parked, thread)?.ability {
            Ability::Can => true,
            _ => is_local(step),
        };
        if !can {
            return Some(k);
        }
    }
    None
}

// What a step is, for those that depend on it. One that ended the program is an exit: the order of
// it and of what the others did matters.
fn kind_in(trace: &Trace, place: usize, kind: Kind) -> Kind {
    if trace.end.is_sudden() && place.saturating_add(1) == trace.steps.len() {
        Kind::Exit
    } else {
        kind
    }
}

/// What the step at index `place` did.
pub fn deed_of(
    alloc: Global,
    rules: Rules,
    rooms: &[Room],
    follower: &mut Follower,
    trace: &Trace,
    place: usize,
) -> Result<Option<Deed>, AllocError> {
    let steps = trace.steps.as_slice();
    let Some(step) = steps.get(place) else {
        return Ok(None);
    };
    let choice = step.choice;
    let Some(parked) = parked_of(&step.parked, choice.thread) else {
        return Ok(None);
    };
    let is_late = matches!(parked.ability, Ability::Late);
    let cause = if is_late {
        None
    } else {
        cause_of(steps, place, choice.thread)
    };
    let number = u32::try_from(place)
        .unwrap_or(u32::MAX - 1)
        .saturating_add(1);
    let (effects, created) = all_effects(alloc, rooms, follower, step, parked, number)?;
    Ok(Some(Deed {
        choice,
        kind: kind_in(trace, place, parked.operation.kind),
        is_late,
        stands_still: stands_still(rules, parked.operation.kind, is_late),
        effects,
        created,
        cause,
    }))
}

// The effects of a step, with the numbers of its messages, and the threads that it created.
fn all_effects(
    alloc: Global,
    rooms: &[Room],
    follower: &mut Follower,
    step: &Step,
    parked: Parked,
    place: u32,
) -> Result<(Vec<Effect>, Vec<u32>), AllocError> {
    let mut effects = effects_of(alloc, parked.operation, step.error)?;
    let mut created = Vec::new(alloc);
    if matches!(parked.operation.kind, Kind::Create) {
        created.push(parked.operation.object)?;
        effects.clear();
    }
    for also in &step.also {
        if matches!(also.kind, Kind::Create) {
            created.push(also.object)?;
        } else if also.object != 0 {
            effects.push(effect_of(also.kind, also.object, 0))?;
        }
    }
    for effect in effects.iter_mut() {
        follower.follow(alloc, rooms, effect, place)?;
    }
    Ok((effects, created))
}
