//! What a search learns from a trace, and what it picks next. It is proved only that it picks a
//! choice that is still open. That it leaves out nothing that matters is tested.
ghost use Rattle.std.specs.Prelude.{◌<◌, ◌≤◌, IfOk, IfSome, length};

use crate::advice::{Advice, cost};
use crate::deed::Deed;
use crate::event::{Event, event_of, order_key};
use crate::fault::Fault;
use crate::follow::{Follower, Rules, deed_of};
use crate::index::Index;
use crate::operation::{Ability, Choice, End, Parked, Step, Trace, parked_of};
use crate::races::Races;
use crate::request::Sleeper;
use crate::trace::Room;
use std::alloc::{AllocError, Global};

/// What the search knows about the nodes of its path, and about the steps between them.
#[derive(Drop)]
pub struct Plan {
    rules: Rules,
    /// The maximum cost of the choices of a run. Only without a bound are there sleep sets.
    bound: Option<u32>,
    advices: Vec<Advice>,
    events: Vec<Event>,
    /// Whether something was beyond the bound.
    is_cut: bool,
}

impl Plan {
    /// A plan that knows no run yet. `bound` is the most preemptions of a schedule, if there is one.
    pub fn new(alloc: Global, rules: Rules, bound: Option<u32>) -> Plan {
        Plan {
            rules,
            bound,
            advices: Vec::new(alloc),
            events: Vec::new(alloc),
            is_cut: false,
        }
    }

    /// Whether a choice was left out only because of its cost.
    pub fn is_cut(&self) -> bool {
        self.is_cut
    }

    /// A hash of the partial order of the steps of the last run.
    pub fn order_key(&self) -> u64 {
        order_key(&self.events)
    }

    // The cost of a choice at a node, with those before it.
    fn price(&self, place: usize, parked: &[Parked], thread: u32) -> u32 {
        match self.advices.get(place) {
            Some(advice) => advice
                .spent
                .saturating_add(cost(parked, advice.last, thread)),
            None => 0,
        }
    }

    fn is_within(&self, price: u32) -> bool {
        match self.bound {
            Some(most) => price <= most,
            None => true,
        }
    }

    // Whether the choice is worth a run, if its cost is within the bound.
    fn is_wanted(&self, place: usize, choice: Choice) -> bool {
        match self.advices.get(place) {
            Some(advice) => {
                advice.wants(choice.thread) && (self.bound.is_some() || !advice.sleeps(choice))
            }
            None => false,
        }
    }

    /// The next choice at a node, among those that are still open there.
    pub fn pick(&mut self, place: usize, parked: &[Parked], untried: &[Choice]) -> Option<usize>
        ensures { IfSome result (λ i. i < length untried.now) }
    {
        for (i, choice) in untried.iter().enumerate() {
            if self.is_wanted(place, *choice) {
                if self.is_within(self.price(place, parked, choice.thread)) {
                    return Some(i);
                }
                self.is_cut = true;
            }
        }
        None
    }

    /// Returns to a node.
    pub fn go_back(&mut self, place: usize) {
        self.events.truncate(place);
        self.advices.truncate(place.saturating_add(1));
    }

    /// The threads that go on after a choice at a node.
    pub fn lead(&self, alloc: Global, place: usize, thread: u32) -> Result<Vec<u32>, AllocError> {
        match self.advices.get(place) {
            Some(advice) => advice.lead(alloc, thread),
            None => Ok(Vec::new(alloc)),
        }
    }

    /// The threads that must not go on after a choice at a node.
    pub fn sleepers(
        &self,
        alloc: Global,
        place: usize,
        thread: u32,
    ) -> Result<Vec<Sleeper>, AllocError> {
        match self.advices.get(place) {
            Some(advice) if self.bound.is_none() => advice.sleepers(alloc, thread),
            _ => Ok(Vec::new(alloc)),
        }
    }

    // What is known about the node at index `place`, given the events before it.
    fn advice_at(&self, alloc: Global, steps: &[Step], place: usize) -> Result<Advice, AllocError> {
        let before = place.checked_sub(1);
        let (Some(advice), Some(event), Some(step)) = (
            before.and_then(|i| self.advices.get(i)),
            before.and_then(|i| self.events.get(i)),
            before.and_then(|i| steps.get(i)),
        ) else {
            return Ok(Advice::new(alloc, 0, 1));
        };
        let thread = step.choice.thread;
        let spent = advice
            .spent
            .saturating_add(cost(&step.parked, advice.last, thread));
        let last = if event.deed.is_local() {
            advice.last
        } else {
            thread
        };
        let mut new = Advice::new(alloc, spent, last);
        if self.bound.is_none() {
            new.sleeping = advice.asleep_after(alloc, &event.deed)?;
        }
        Ok(new)
    }

    // Whether a deadline passes at this step when no thread can go on. Then it may matter which one
    // passes first.
    fn passes_last(&self, step: &Step) -> bool {
        match parked_of(&step.parked, step.choice.thread) {
            Some(it) => !self.rules.any_time && matches!(it.ability, Ability::Late),
            None => false,
        }
    }

    // Adds the node of a step. False if the step is in the sleep set, so that the search does not
    // continue from it.
    fn add_node(
        &mut self,
        alloc: Global,
        steps: &[Step],
        step: &Step,
        place: usize,
    ) -> Result<bool, AllocError> {
        let mut advice = self.advice_at(alloc, steps, place)?;
        let sleeps = self.bound.is_none() && advice.sleeps(step.choice);
        if sleeps {
            advice.want_awake(&step.parked)?;
        } else if self.passes_last(step) {
            advice.want_all(&step.parked)?;
        } else {
            advice.want(step.choice.thread)?;
        }
        self.advices.push(advice)?;
        Ok(!sleeps)
    }

    // Adds a step that was made at the last node.
    fn add_event(
        &mut self,
        alloc: Global,
        index: &mut Index,
        parked: &[Parked],
        deed: Deed,
    ) -> Result<(), AllocError> {
        let joined = match parked_of(parked, deed.choice.thread) {
            Some(it) => it.operation.argument,
            None => 0,
        };
        if let Some(advice) = self.advices.last_mut() {
            let made = deed.copy(alloc)?;
            advice.made.push(made)?;
        }
        let event = event_of(alloc, &self.events, index, deed, joined)?;
        index.add(alloc, &event.deed, self.events.len())?;
        self.events.push(event)?;
        Ok(())
    }

    // Adds the threads that the races of the last event ask for to the backtrack sets.
    fn find_races(
        &mut self,
        alloc: Global,
        index: &Index,
        trace: &Trace,
    ) -> Result<(), AllocError> {
        let races = Races {
            rules: self.rules,
            is_bounded: self.bound.is_some(),
            events: &self.events,
            index,
            steps: &trace.steps,
            left: &trace.left,
            is_whole: !matches!(trace.end, End::Slept),
        };
        races.find(alloc, &mut self.advices)
    }

    // Whether the run made the same step at index `place` as the run before it.
    fn is_same(&self, place: usize, deed: &Deed) -> bool {
        match self.events.get(place) {
            Some(event) => event.deed.choice == deed.choice && event.deed.kind == deed.kind,
            None => false,
        }
    }

    /// Learns from the steps of a run whose first `asked` choices were given. Returns how many
    /// steps, from the first one on, the search may replace by others.
    pub fn learn(
        &mut self,
        alloc: Global,
        rooms: &[Room],
        asked: usize,
        trace: &Trace,
    ) -> Result<usize, Fault>
        ensures { IfOk result (λ n. n ≤ length trace.now.steps.items) }
    {
        self.go_back(asked.saturating_sub(1));
        let mut follower = Follower::new(alloc);
        let mut index = Index::new(alloc);
        for (place, step) in trace.steps.iter().enumerate() {
            let found = deed_of(alloc, self.rules, rooms, &mut follower, trace, place)?;
            let Some(deed) = found else {
                return Err(Fault::Unfit);
            };
            if place < self.events.len() {
                if !self.is_same(place, &deed) {
                    return Err(Fault::Unfit);
                }
                index.add(alloc, &deed, place)?;
            } else {
                if self.advices.len() <= place
                    && !self.add_node(alloc, &trace.steps, step, place)?
                {
                    return Ok(place + 1);
                }
                self.add_event(alloc, &mut index, &step.parked, deed)?;
                self.find_races(alloc, &index, trace)?;
            }
        }
        Ok(trace.steps.len())
    }

    /// Records the events of a whole run without given choices.
    pub fn learn_order(
        &mut self,
        alloc: Global,
        rooms: &[Room],
        trace: &Trace,
    ) -> Result<(), AllocError> {
        self.events.clear();
        self.advices.clear();
        let mut follower = Follower::new(alloc);
        let mut index = Index::new(alloc);
        for (place, step) in trace.steps.iter().enumerate() {
            let found = deed_of(alloc, self.rules, rooms, &mut follower, trace, place)?;
            if let Some(deed) = found {
                self.add_event(alloc, &mut index, &step.parked, deed)?;
            }
        }
        Ok(())
    }
}
