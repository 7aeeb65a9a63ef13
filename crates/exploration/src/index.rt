//! Where the steps are on which a step of a run may depend.
//!
//! A step depends only on steps of the same object, or of one of a few kinds. So it need not be
//! compared with all steps before it.

use crate::deed::{Deed, Effect, is_exit, is_on_names, tells_time};
use std::alloc::{AllocError, Global};
use std::collections::HashMap;

// Events of a thread, by their indices, in order.
#[derive(Drop)]
struct Track {
    thread: u32,
    places: Vec<usize>,
}

// Events of the same object or kind, by threads.
#[derive(Drop)]
struct Tracks {
    tracks: Vec<Track>,
}

// The events of an object.
#[derive(Drop)]
struct Touched {
    changes: Tracks,
    looks: Tracks,
}

/// The events of a run so far, by threads, objects and kinds.
#[derive(Drop)]
pub struct Index {
    all: Tracks,
    // Where each object is in `touched`.
    slots: HashMap<u32, usize>,
    touched: Vec<Touched>,
    // Those on which all others depend.
    fixed: Tracks,
    on_names: Tracks,
    creations: Tracks,
    clocks: Tracks,
    late: Tracks,
}

// Whether all other steps depend on this one.
fn is_fixed(deed: &Deed) -> bool {
    deed.stands_still || is_exit(deed.kind)
}

impl Tracks {
    fn new(alloc: Global) -> Tracks {
        Tracks {
            tracks: Vec::new(alloc),
        }
    }

    fn add(&mut self, alloc: Global, thread: u32, place: usize) -> Result<(), AllocError> {
        let found = self.tracks.iter().position(|it| it.thread == thread);
        let at = match found {
            Some(at) => at,
            None => {
                let places = Vec::new(alloc);
                self.tracks.push(Track { thread, places })?;
                self.tracks.len() - 1
            }
        };
        if let Some(track) = self.tracks.get_mut(at) {
            track.places.push(place)?;
        }
        Ok(())
    }

    fn of(&self, thread: u32) -> &[usize] {
        match self.tracks.iter().find(|it| it.thread == thread) {
            Some(track) => track.places.as_slice(),
            None => &[],
        }
    }

    // Adds the events of the other threads, a list for each.
    fn add_others<'i>(
        &'i self,
        thread: u32,
        found: &mut Vec<&'i [usize]>,
    ) -> Result<(), AllocError> {
        for track in &self.tracks {
            if track.thread != thread {
                found.push(track.places.as_slice())?;
            }
        }
        Ok(())
    }
}

impl Index {
    /// The index of no events.
    pub fn new(alloc: Global) -> Index {
        Index {
            all: Tracks::new(alloc),
            slots: HashMap::new(alloc),
            touched: Vec::new(alloc),
            fixed: Tracks::new(alloc),
            on_names: Tracks::new(alloc),
            creations: Tracks::new(alloc),
            clocks: Tracks::new(alloc),
            late: Tracks::new(alloc),
        }
    }

    /// Adds the event at index `place`, which comes after all others.
    pub fn add(&mut self, alloc: Global, deed: &Deed, place: usize) -> Result<(), AllocError> {
        let thread = deed.choice.thread;
        self.all.add(alloc, thread, place)?;
        if is_fixed(deed) {
            self.fixed.add(alloc, thread, place)?;
        }
        if is_on_names(deed.kind) {
            self.on_names.add(alloc, thread, place)?;
        }
        if !deed.created.is_empty() {
            self.creations.add(alloc, thread, place)?;
        }
        if tells_time(deed.kind) {
            self.clocks.add(alloc, thread, place)?;
        }
        if deed.is_late {
            self.late.add(alloc, thread, place)?;
        }
        for effect in &deed.effects {
            self.add_effect(alloc, effect, thread, place)?;
        }
        Ok(())
    }

    fn add_effect(
        &mut self,
        alloc: Global,
        effect: &Effect,
        thread: u32,
        place: usize,
    ) -> Result<(), AllocError> {
        let found = self.slots.get(&effect.object).copied();
        let at = match found {
            Some(at) => at,
            None => {
                let at = self.touched.len();
                self.slots.insert(effect.object, at)?;
                let changes = Tracks::new(alloc);
                let looks = Tracks::new(alloc);
                self.touched.push(Touched { changes, looks })?;
                at
            }
        };
        match self.touched.get_mut(at) {
            Some(of) if effect.looks => of.looks.add(alloc, thread, place),
            Some(of) => of.changes.add(alloc, thread, place),
            None => Ok(()),
        }
    }

    /// The events of a thread.
    pub fn of(&self, thread: u32) -> &[usize] {
        self.all.of(thread)
    }

    /// The index of the last event of a thread before index `end`.
    pub fn last_before(&self, thread: u32, end: usize) -> Option<usize> {
        self.of(thread).iter().rev().copied().find(|it| *it < end)
    }

    /// The index of the first event of each thread after index `place`, in order.
    pub fn firsts_after(&self, alloc: Global, place: usize) -> Result<Vec<usize>, AllocError> {
        let mut firsts = Vec::new(alloc);
        for track in &self.all.tracks {
            let places = track.places.as_slice();
            let at = match places.binary_search(&place) {
                Ok(at) => at.saturating_add(1),
                Err(at) => at,
            };
            if let Some(first) = places.get(at) {
                firsts.push(*first)?;
            }
        }
        firsts.sort()?;
        Ok(firsts)
    }

    /// Lists that have all events of other threads on which a step may depend, each those of one
    /// thread, in order. An event may be in several lists.
    pub fn dependent<'i>(
        &'i self,
        alloc: Global,
        deed: &Deed,
    ) -> Result<Vec<&'i [usize]>, AllocError> {
        let thread = deed.choice.thread;
        let mut found = Vec::new(alloc);
        if is_fixed(deed) {
            self.all.add_others(thread, &mut found)?;
            return Ok(found);
        }
        self.fixed.add_others(thread, &mut found)?;
        if is_on_names(deed.kind) {
            self.on_names.add_others(thread, &mut found)?;
        }
        if !deed.created.is_empty() {
            self.creations.add_others(thread, &mut found)?;
        }
        if tells_time(deed.kind) {
            self.late.add_others(thread, &mut found)?;
        }
        if deed.is_late {
            self.clocks.add_others(thread, &mut found)?;
        }
        for effect in &deed.effects {
            self.add_touched(effect, thread, &mut found)?;
        }
        Ok(found)
    }

    // Adds the events on which an effect may depend: two looks are independent.
    fn add_touched<'i>(
        &'i self,
        effect: &Effect,
        thread: u32,
        found: &mut Vec<&'i [usize]>,
    ) -> Result<(), AllocError> {
        let at = self.slots.get(&effect.object).copied();
        let Some(of) = at.and_then(|at| self.touched.get(at)) else {
            return Ok(());
        };
        of.changes.add_others(thread, found)?;
        if !effect.looks {
            of.looks.add_others(thread, found)?;
        }
        Ok(())
    }
}
