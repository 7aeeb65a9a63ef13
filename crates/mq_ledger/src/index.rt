//! A hash table of hints: which slot has the entry with a given sequence number, and which slots
//! are vacant. A hint may be wrong, so whoever uses one checks it.

use crate::classes::CLASSES;
use std::alloc::{AllocError, Global};

/// No slot.
pub const NOBODY: usize = 18_446_744_073_709_551_615;

/// How many notes of a sequence number are checked.
pub const PROBES: u64 = 16;

/// A sequence number, and the slot that had its entry when the note was made. Notes are not
/// removed: a note is stale once the slot has another entry.
#[derive(Clone, Copy, Debug)]
pub struct Note {
    pub place: u64,
    pub key: usize,
}

/// The note of no entry.
const NOTHING: Note = Note {
    place: 0,
    key: NOBODY,
};

/// The hash table of notes, and the first vacant slot of each class. Each vacant slot has the next
/// one of its class.
#[derive(Debug, Drop)]
pub struct Index {
    // the number of notes is a power of two
    notes: Vec<Note>,
    vacant: [usize; CLASSES as usize],
}

impl Index {
    /// An empty index.
    pub fn new(alloc: Global) -> Index {
        Index {
            notes: Vec::new(alloc),
            vacant: [NOBODY; CLASSES as usize],
        }
    }

    // The position of a note of this sequence number: probing starts at its hash and goes on by
    // one.
    #[inline(always)]
    fn spot(&self, place: u64, probe: u64) -> usize {
        let mixed = place.wrapping_mul(11_400_714_819_323_198_485) / 4_294_967_296;
        (mixed.wrapping_add(probe) as usize) & self.notes.len().wrapping_sub(1)
    }

    /// The note of a sequence number at this probe, of [`PROBES`].
    #[inline(always)]
    pub fn note(&self, place: u64, probe: u64) -> Note {
        let spot = self.spot(place, probe);
        if spot < self.notes.len() {
            self.notes[spot]
        } else {
            NOTHING
        }
    }

    /// Writes that this slot has the entry `place`, over the note at this probe.
    #[inline(always)]
    pub fn set(&mut self, place: u64, probe: u64, key: usize) {
        let spot = self.spot(place, probe);
        if spot < self.notes.len() {
            self.notes[spot] = Note { place, key };
        }
    }

    /// The number of slots for which the index has room.
    pub fn slots(&self) -> usize {
        self.notes.len() / 4
    }

    /// The vacant slot of a class to try first.
    #[inline(always)]
    pub fn first_vacant(&self, class: u32) -> usize {
        if class < CLASSES {
            self.vacant[class as usize]
        } else {
            NOBODY
        }
    }

    /// Makes this slot the first of the vacant ones of its class.
    #[inline(always)]
    pub fn set_vacant(&mut self, class: u32, key: usize) {
        if class < CLASSES {
            self.vacant[class as usize] = key;
        }
    }

    /// Replaces the notes by an empty table for this number of slots, a power of two. If memory is
    /// refused, the notes stay.
    pub fn grow(&mut self, alloc: Global, slots: usize) -> Result<(), AllocError> {
        self.notes = vec![in alloc; NOTHING; slots.wrapping_mul(4)]?;
        Ok(())
    }
}
