//! Which choices are worth a run, from the races of a run: dynamic partial-order reduction by
//! source sets.
//!
//! Only termination and safety are proved. A choice that no race asks for is not made, so a race
//! that is overlooked is an order that is not tried. Tests compare the result with all
//! interleavings.

use crate::advice::{Advice, Lead};
use crate::deed::Deed;
use crate::dependence::{may_race, may_race_if_made};
use crate::event::{Clock, Event, clock_before};
use crate::follow::{Rules, is_local, likely_deed};
use crate::index::Index;
use crate::kind::Kind;
use crate::operation::{Ability, Choice, Parked, Step, parked_of};
use std::alloc::{AllocError, Global};

/// A run, with the events whose races were searched for.
#[derive(Clone, Copy)]
pub struct Races<'r> {
    pub rules: Rules,
    /// Whether the search is within a bound. Then it asks for more choices, because those that
    /// races ask for may be beyond the bound.
    pub is_bounded: bool,
    /// The races of the last one are searched for.
    pub events: &'r [Event],
    /// Where they are.
    pub index: &'r Index,
    /// All steps of the run.
    pub steps: &'r [Step],
    /// The threads that are parked at the end.
    pub left: &'r [Parked],
    /// False if the run ended because all threads that could go on were in the sleep set.
    pub is_whole: bool,
}

// The thread that is to come before an event with which its step races.
#[derive(Clone, Copy)]
struct Overtaking {
    thread: u32,
    /// The events between the two steps end before this index.
    end: usize,
    /// The index of the step that races, if it was made.
    made: Option<usize>,
}

// The maximum number of threads that a choice leads on.
const MOST_LED: usize = 1024;

fn is_same(a: &Parked, b: &Parked) -> bool {
    a.operation.kind == b.operation.kind && a.operation.object == b.operation.object
}

impl Races<'_> {
    // The threads that are parked after the step at index `place` and the local steps after it.
    fn parked_after(&self, place: usize) -> &[Parked] {
        for i in place.saturating_add(1)..self.steps.len() {
            if !is_local(&self.steps[i]) {
                return &self.steps[i].parked;
            }
        }
        self.left
    }

    // Whether a thread makes one of the local steps after index `place`, of this kind if one is
    // given.
    fn goes_on_after(&self, place: usize, thread: u32, kind: Option<Kind>) -> bool {
        for i in place.saturating_add(1)..self.steps.len() {
            let step = &self.steps[i];
            if !is_local(step) {
                return false;
            }
            if step.choice.thread == thread {
                match (kind, parked_of(&step.parked, thread)) {
                    (Some(kind), Some(it)) => return it.operation.kind == kind,
                    _ => return true,
                }
            }
        }
        false
    }

    fn clock_before(&self, alloc: Global, end: usize, thread: u32) -> Result<Clock, AllocError> {
        clock_before(alloc, self.events, self.index, thread, end)
    }

    // Whether a thread can go on even while others can.
    fn goes_on(&self, it: &Parked) -> bool {
        match it.ability {
            Ability::Cannot => false,
            Ability::Can => true,
            Ability::Late => self.rules.any_time,
        }
    }

    /// Adds the choices that the races of the last event ask for.
    pub fn find(&self, alloc: Global, advices: &mut [Advice]) -> Result<(), AllocError> {
        let Some(event) = self.events.last() else {
            return Ok(());
        };
        let place = self.events.len() - 1;
        if !event.deed.is_local() {
            self.find_made(alloc, advices, place, &event.deed)?;
        }
        self.find_kept(alloc, advices, place, &event.deed)?;
        self.find_stopped(alloc, advices, place, &event.deed)
    }

    // The events with which a step races, the last one first, apart from those that come before
    // another of them. The step has come after what the clock has seen. If it is still to be made,
    // it is that of an operation before which a thread is parked.
    fn races_of(
        &self,
        alloc: Global,
        mut seen: Clock,
        deed: &Deed,
        is_made: bool,
    ) -> Result<Vec<usize>, AllocError> {
        let mut lasts = Vec::new(alloc);
        for places in self.index.dependent(alloc, deed)? {
            if let Some(last) = self.last_race(&seen, places, deed, is_made) {
                lasts.push(last)?;
            }
        }
        lasts.sort()?;
        let mut races = Vec::new(alloc);
        for i in lasts.iter().rev() {
            if let Some(other) = self.events.get(*i)
                && !seen.has(other)
            {
                seen.join(&other.clock)?;
                races.push(*i)?;
            }
        }
        Ok(races)
    }

    // The last event of a list of one thread with which a step races.
    fn last_race(
        &self,
        seen: &Clock,
        places: &[usize],
        deed: &Deed,
        is_made: bool,
    ) -> Option<usize> {
        for i in places.iter().rev().copied() {
            if let Some(other) = self.events.get(i) {
                if seen.has(other) {
                    return None;
                }
                let races = if is_made {
                    may_race(&other.deed, i, deed)
                } else {
                    may_race_if_made(&other.deed, i, deed)
                };
                if races && !other.deed.is_local() {
                    return Some(i);
                }
            }
        }
        None
    }

    // The events with which a step races.
    fn find_made(
        &self,
        alloc: Global,
        advices: &mut [Advice],
        place: usize,
        deed: &Deed,
    ) -> Result<(), AllocError> {
        let thread = deed.choice.thread;
        let seen = self.clock_before(alloc, place, thread)?;
        for i in &self.races_of(alloc, seen, deed, true)? {
            let overtaking = Overtaking {
                thread,
                end: place,
                made: Some(place),
            };
            self.ask(alloc, advices, *i, overtaking)?;
        }
        Ok(())
    }

    // The threads that a step disables or keeps from going on, and those that it serves before
    // their deadlines.
    fn find_kept(
        &self,
        alloc: Global,
        advices: &mut [Advice],
        place: usize,
        deed: &Deed,
    ) -> Result<(), AllocError> {
        let Some(step) = self.steps.get(place) else {
            return Ok(());
        };
        let after = self.parked_after(place);
        for it in &step.parked {
            if it.thread != deed.choice.thread && self.is_kept(alloc, place, deed, it, after)? {
                let overtaking = Overtaking {
                    thread: it.thread,
                    end: place.saturating_add(1),
                    made: None,
                };
                self.ask(alloc, advices, place, overtaking)?;
            }
        }
        Ok(())
    }

    fn is_kept(
        &self,
        alloc: Global,
        place: usize,
        deed: &Deed,
        it: &Parked,
        after: &[Parked],
    ) -> Result<bool, AllocError> {
        let may_pass = self.rules.any_time && matches!(it.ability, Ability::Late);
        let collects = matches!(it.operation.kind, Kind::Collect);
        if may_pass && collects && self.goes_on_after(place, it.thread, Some(Kind::Collect)) {
            return Ok(true);
        }
        let Some(then) = parked_of(after, it.thread) else {
            return Ok(false);
        };
        if !is_same(it, &then) {
            return Ok(false);
        }
        if may_pass && matches!(then.ability, Ability::Can) {
            return Ok(true);
        }
        if self.goes_on(&then) {
            return Ok(false);
        }
        if self.goes_on(it) {
            return Ok(true);
        }
        if deed.is_local() {
            return Ok(false);
        }
        let likely = likely_deed(alloc, self.rules, &then)?;
        Ok(may_race_if_made(deed, place, &likely))
    }

    // The thread of a step if it reaches an operation that it cannot do; and at the end, all
    // operations that were not done.
    fn find_stopped(
        &self,
        alloc: Global,
        advices: &mut [Advice],
        place: usize,
        deed: &Deed,
    ) -> Result<(), AllocError> {
        let thread = deed.choice.thread;
        if let Some(it) = parked_of(self.parked_after(place), thread)
            && !self.goes_on(&it)
            && !self.goes_on_after(place, thread, None)
        {
            self.look_back(alloc, advices, place, &it, true)?;
        }
        if place.saturating_add(1) == self.steps.len() && self.is_whole {
            for it in self.left {
                self.look_back(alloc, advices, place, it, false)?;
            }
        }
        Ok(())
    }

    // Searches back for the steps that race with an operation that is still to be made, or only for
    // the last of them.
    fn look_back(
        &self,
        alloc: Global,
        advices: &mut [Advice],
        place: usize,
        parked: &Parked,
        only_last: bool,
    ) -> Result<(), AllocError> {
        let end = place.saturating_add(1);
        let seen = self.clock_before(alloc, end, parked.thread)?;
        let likely = likely_deed(alloc, self.rules, parked)?;
        for i in &self.races_of(alloc, seen, &likely, false)? {
            let overtaking = Overtaking {
                thread: parked.thread,
                end,
                made: None,
            };
            self.ask(alloc, advices, *i, overtaking)?;
            if only_last {
                return Ok(());
            }
        }
        Ok(())
    }

    // Asks for a run in which a thread comes before the event at index i: adds a choice there that
    // leads to it.
    fn ask(
        &self,
        alloc: Global,
        advices: &mut [Advice],
        i: usize,
        overtaking: Overtaking,
    ) -> Result<(), AllocError> {
        if self.is_bounded {
            self.ask_at(advices, i, overtaking.thread)?;
            return self.ask_at(advices, self.block_of(i), overtaking.thread);
        }
        let heads = self.heads(alloc, i, overtaking.end)?;
        let firsts = self.firsts(alloc, i, &heads, overtaking)?;
        let (Some(advice), Some(step)) = (advices.get_mut(i), self.steps.get(i)) else {
            return Ok(());
        };
        if firsts.iter().any(|q| is_had(advice, *q)) {
            return Ok(());
        }
        let Some(first) = best(&firsts, overtaking.thread) else {
            return advice.want_all(&step.parked);
        };
        let threads = self.lead(alloc, i, overtaking, first)?;
        advice.leads.push(Lead { first, threads })?;
        advice.want(first)
    }

    // Adds a thread at index i, or if it cannot go on there, all that can.
    fn ask_at(&self, advices: &mut [Advice], i: usize, thread: u32) -> Result<(), AllocError> {
        let (Some(advice), Some(step)) = (advices.get_mut(i), self.steps.get(i)) else {
            return Ok(());
        };
        match parked_of(&step.parked, thread) {
            Some(it) if it.can_go_on() => advice.want(thread),
            _ => advice.want_all(&step.parked),
        }
    }

    // The index at which the thread of an event was last switched to.
    fn block_of(&self, i: usize) -> usize {
        match self.events.get(i) {
            Some(event) => event.block,
            None => i,
        }
    }

    // The event at an index, if the event i need not come before it.
    fn apart(&self, i: usize, place: usize) -> Option<&Event> {
        let event = self.events.get(i)?;
        let other = self.events.get(place)?;
        if other.clock.has(event) {
            None
        } else {
            Some(other)
        }
    }

    // The index of the first event of each thread after i and before `end`, if the event i need not
    // come before it.
    fn heads(&self, alloc: Global, i: usize, end: usize) -> Result<Vec<usize>, AllocError> {
        let mut heads = Vec::new(alloc);
        for place in self.index.firsts_after(alloc, i)? {
            if place < end && self.apart(i, place).is_some() {
                heads.push(place)?;
            }
        }
        Ok(heads)
    }

    // The threads that can go on at index i and whose event can come first of all that the event i
    // need not come before, with the one that overtakes. No event of a thread comes before an event
    // before which the first of that thread does not come.
    fn firsts(
        &self,
        alloc: Global,
        i: usize,
        heads: &[usize],
        overtaking: Overtaking,
    ) -> Result<Vec<u32>, AllocError> {
        let mut firsts = Vec::new(alloc);
        let mut is_seen = false;
        for j in heads {
            if let Some(event) = self.events.get(*j) {
                let thread = event.deed.choice.thread;
                is_seen = is_seen || thread == overtaking.thread;
                if self.is_first(heads, *j, &event.clock) && self.can(i, thread) {
                    firsts.push(thread)?;
                }
            }
        }
        let thread = overtaking.thread;
        if !is_seen && self.can(i, thread) {
            let clock = self.clock_of_overtaking(alloc, overtaking)?;
            if self.is_first(heads, usize::MAX, &clock) {
                firsts.push(thread)?;
            }
        }
        Ok(firsts)
    }

    // The clock of the step that races, or of its thread before it.
    fn clock_of_overtaking(
        &self,
        alloc: Global,
        overtaking: Overtaking,
    ) -> Result<Clock, AllocError> {
        match overtaking.made {
            Some(place) => match self.events.get(place) {
                Some(event) => event.clock.copy(alloc),
                None => Ok(Clock::new(alloc)),
            },
            None => self.clock_before(alloc, overtaking.end, overtaking.thread),
        }
    }

    // Whether none of the events at those indices before `below` comes before a clock.
    fn is_first(&self, heads: &[usize], below: usize, clock: &Clock) -> bool {
        !heads.iter().any(|g| *g < below && self.is_in(clock, *g))
    }

    // Whether an event comes before a clock.
    fn is_in(&self, clock: &Clock, place: usize) -> bool {
        match self.events.get(place) {
            Some(event) => clock.has(event),
            None => false,
        }
    }

    fn can(&self, i: usize, thread: u32) -> bool {
        match self.steps.get(i) {
            Some(step) => match parked_of(&step.parked, thread) {
                Some(it) => it.can_go_on(),
                None => false,
            },
            None => false,
        }
    }

    // The threads that go on after the first choice, so that the race is run in its other order, or
    // those of them that come first.
    fn lead(
        &self,
        alloc: Global,
        i: usize,
        overtaking: Overtaking,
        first: u32,
    ) -> Result<Vec<u32>, AllocError> {
        let mut threads = Vec::new(alloc);
        let mut is_left_out = false;
        for j in i.saturating_add(1)..overtaking.end {
            if MOST_LED <= threads.len() {
                return Ok(threads);
            }
            if let Some(event) = self.apart(i, j)
                && !event.deed.is_local()
            {
                let other = event.deed.choice.thread;
                if other == first && !is_left_out {
                    is_left_out = true;
                } else {
                    threads.push(other)?;
                }
            }
        }
        if is_left_out || overtaking.thread != first {
            threads.push(overtaking.thread)?;
        }
        Ok(threads)
    }
}

// Whether a choice of the thread is in the backtrack set or in the sleep set.
fn is_had(advice: &Advice, thread: u32) -> bool {
    advice.wants(thread) || advice.sleeps(Choice { thread, variant: 0 })
}

// The thread itself if it is among these, else the first of them.
fn best(firsts: &[u32], thread: u32) -> Option<u32> {
    if firsts.contains(&thread) {
        Some(thread)
    } else {
        firsts.first().copied()
    }
}
