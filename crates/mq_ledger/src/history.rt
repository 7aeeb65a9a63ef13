//! The history variable: the list of all records, which contracts read and no code stores.
ghost use Rattle.std.specs.Prelude.{◌≡◌, List, [], ◌∷◌};
ghost use Rattle.std.specs.Borrow.{ftrue};
ghost use Rattle.mq_model.specs.Record.{Record};

use mq_model::entries::Entry;
use std::marker::{Model, PhantomData};

/// The records so far, the latest first. The value has no bytes.
#[derive(Drop)]
pub struct History {
    marker: PhantomData<u8>,
    pub ghost past: { List Record },
}

impl Model for History {
    ghost also_owns = { λ _. ftrue };
}

// It owns nothing.
unsafe impl Send for History {}

impl History {
    /// The empty history.
    pub fn new() -> History
        ensures { result.past ≡ [] }
    {
        History {
            marker: PhantomData,
        }
    }

    /// Appends an entry with its payload. It does nothing at run time.
    #[inline(always)]
    pub fn note(&mut self, _entry: &Entry, _payload: &[u8])
        ensures { self.new.past ≡ record { entry = _entry.now; payload = _payload.now } ∷ self.old.past }
    {}
}
