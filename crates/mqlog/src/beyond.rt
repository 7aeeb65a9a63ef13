//! A part of a journal that begins behind its end.

use std::fmt;

/// The first entry that is to be shown, and the number of entries of the journal.
#[derive(Clone, Copy)]
pub struct Beyond {
    pub from: u64,
    pub len: u64,
}

impl fmt::Display for Beyond {
    ghost output = { λ _. None };

    ghost use Rattle.std.specs.Prelude.{None};

    fn fmt<W: fmt::Write>(&self, f: &mut fmt::Formatter<W>) -> fmt::Result {
        let (from, len) = (self.from, self.len);
        write!(f, "--from {from}: the journal has {len} entries")
    }
}
