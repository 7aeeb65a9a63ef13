//! When the calls of a script began and ended.
use script_runner::Gate;
use std::alloc::{AllocError, Global};
use std::sync::atomic::{AtomicU64, Ordering};

/// A gate that notes when each call began and ended. Its clock advances with each note. The time 0
/// stands for none.
#[derive(Drop)]
pub struct Moments {
    clock: AtomicU64,
    lines: Vec<Moment>,
}

// The times of a line.
#[derive(Drop)]
struct Moment {
    begin: AtomicU64,
    end: AtomicU64,
}

impl Moments {
    /// No times yet, for calls on this number of lines.
    pub fn new(alloc: Global, count: usize) -> Result<Moments, AllocError> {
        let mut lines = Vec::new(alloc);
        for _ in 0..count {
            lines.push(Moment {
                begin: AtomicU64::new(0),
                end: AtomicU64::new(0),
            })?;
        }
        Ok(Moments {
            clock: AtomicU64::new(1),
            lines,
        })
    }

    /// When the call in this line, counted from 1, began, if it did.
    pub fn begin(&self, line: u64) -> Option<u64> {
        let moment = self.of_line(line)?.begin.load(Ordering::SeqCst);
        if moment == 0 { None } else { Some(moment) }
    }

    /// When it ended, or the greatest number if it has not.
    pub fn end(&self, line: u64) -> u64 {
        match self.of_line(line) {
            Some(moment) => moment.end.load(Ordering::SeqCst),
            None => u64::MAX,
        }
    }

    fn of_line(&self, line: u64) -> Option<&Moment> {
        let index = usize::try_from(line.checked_sub(1)?).ok()?;
        self.lines.get(index)
    }

    fn next(&self) -> u64 {
        self.clock.fetch_add(1, Ordering::SeqCst)
    }
}

impl Gate for Moments {
    fn before(&self, _process: u32, line: u64) {
        if let Some(moment) = self.of_line(line) {
            moment.begin.store(self.next(), Ordering::SeqCst);
        }
    }

    fn after(&self, _process: u32, line: u64) {
        if let Some(moment) = self.of_line(line) {
            moment.end.store(self.next(), Ordering::SeqCst);
        }
    }
}
