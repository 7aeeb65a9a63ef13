//! Which choices at a node are worth a run. Only termination and safety of these functions are
//! proved.

use crate::deed::Deed;
use crate::dependence::are_independent;
use crate::kind::Kind;
use crate::operation::{Ability, Choice, Parked, parked_of};
use crate::request::Sleeper;
use std::alloc::{AllocError, Global};

/// The threads that go on after a choice of the thread `first`, so that the race that asked for it
/// is soon run in its other order.
#[derive(Drop)]
pub struct Lead {
    pub first: u32,
    pub threads: Vec<u32>,
}

/// What the search knows about a node.
#[derive(Drop)]
pub struct Advice {
    /// The backtrack set: the threads whose choices are worth a run here.
    pub wanted: Vec<u32>,
    /// The sleep set: steps of other threads that were tried before, and are independent of all
    /// steps made since.
    pub sleeping: Vec<Deed>,
    /// The steps that were made here, one for each run.
    pub made: Vec<Deed>,
    pub leads: Vec<Lead>,
    /// The total cost of the choices before this node.
    pub spent: u32,
    /// The thread that took the last step.
    pub last: u32,
}

impl Advice {
    /// No advice yet, for a step behind which so many preemptions are spent, and this thread ran last.
    pub fn new(alloc: Global, spent: u32, last: u32) -> Advice {
        Advice {
            wanted: Vec::new(alloc),
            sleeping: Vec::new(alloc),
            made: Vec::new(alloc),
            leads: Vec::new(alloc),
            spent,
            last,
        }
    }

    /// Wants this thread to be tried here, too.
    pub fn want(&mut self, thread: u32) -> Result<(), AllocError> {
        if !self.wanted.contains(&thread) {
            self.wanted.push(thread)?;
        }
        Ok(())
    }

    /// Adds each thread that can go on to the backtrack set.
    pub fn want_all(&mut self, parked: &[Parked]) -> Result<(), AllocError> {
        for it in parked {
            if it.can_go_on() {
                self.want(it.thread)?;
            }
        }
        Ok(())
    }

    /// Adds the first thread that can go on and is not in the sleep set.
    pub fn want_awake(&mut self, parked: &[Parked]) -> Result<(), AllocError> {
        for it in parked {
            let choice = Choice {
                thread: it.thread,
                variant: 0,
            };
            if it.can_go_on() && !self.sleeps(choice) {
                return self.want(it.thread);
            }
        }
        Ok(())
    }

    /// Whether this thread is to be tried here.
    pub fn wants(&self, thread: u32) -> bool {
        self.wanted.contains(&thread)
    }

    /// Whether the step of this choice is in the sleep set.
    pub fn sleeps(&self, choice: Choice) -> bool {
        self.sleeping.iter().any(|it| it.choice == choice)
    }

    /// The threads that go on after a choice of this thread.
    pub fn lead(&self, alloc: Global, thread: u32) -> Result<Vec<u32>, AllocError> {
        match self.leads.iter().find(|it| it.first == thread) {
            Some(lead) => lead.threads.to_vec(alloc),
            None => Ok(Vec::new(alloc)),
        }
    }

    /// The sleep set after this step.
    pub fn asleep_after(&self, alloc: Global, made: &Deed) -> Result<Vec<Deed>, AllocError> {
        let mut sleeping = Vec::new(alloc);
        for deed in &self.sleeping {
            if are_independent(deed, made) {
                sleeping.push(deed.copy(alloc)?)?;
            }
        }
        for deed in &self.made {
            if are_independent(deed, made) {
                sleeping.push(deed.copy(alloc)?)?;
            }
        }
        Ok(sleeping)
    }

    /// The sleep set, as threads and the objects that they access, without the thread `but`.
    pub fn sleepers(&self, alloc: Global, but: u32) -> Result<Vec<Sleeper>, AllocError> {
        let mut sleepers = Vec::new(alloc);
        for deed in &self.sleeping {
            add_sleepers(&mut sleepers, deed, but)?;
        }
        for deed in &self.made {
            add_sleepers(&mut sleepers, deed, but)?;
        }
        Ok(sleepers)
    }
}

// The maximum number of sleepers in a request.
const MOST_SLEEPERS: usize = 400;

// Adds what a step accesses, if the step depends on nothing else.
fn add_sleepers(sleepers: &mut Vec<Sleeper>, deed: &Deed, but: u32) -> Result<(), AllocError> {
    let thread = deed.choice.thread;
    let is_rough = deed.stands_still
        || deed.is_late
        || deed.choice.variant != 0
        || !deed.created.is_empty()
        || depends_on_more(deed.kind);
    if is_rough || thread == but || MOST_SLEEPERS <= sleepers.len() {
        return Ok(());
    }
    for effect in &deed.effects {
        sleepers.push(Sleeper {
            thread,
            object: effect.object,
        })?;
    }
    Ok(())
}

// Operations that depend on more than their object, or that have several variants.
fn depends_on_more(kind: Kind) -> bool {
    match kind {
        Kind::Exit | Kind::Open | Kind::Close | Kind::Unlink | Kind::Clock => true,
        Kind::Signal | Kind::Create | Kind::SetAttr => true,
        _ => false,
    }
}

/// The cost of letting a thread go on: 1 if it preempts a thread that can go on and does not yield,
/// or if its deadline passes although some thread can go on; else 0.
pub fn cost(parked: &[Parked], last: u32, thread: u32) -> u32 {
    let can = |it: &Parked| matches!(it.ability, Ability::Can);
    let takes = thread != last
        && parked.iter().any(|it| it.thread == last
            && can(it)
            && !matches!(it.operation.kind, Kind::Yield));
    let is_late = match parked_of(parked, thread) {
        Some(it) => matches!(it.ability, Ability::Late),
        None => false,
    };
    let early = is_late && parked.iter().any(can);
    if takes || early { 1 } else { 0 }
}
