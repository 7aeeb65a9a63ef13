//! A hook before and after each call.

/// A hook that the thread of a process calls before each call of the script, and after each that
/// returned.
pub trait Gate {
    /// The process is about to make the call in this line, counted from 1.
    fn before(&self, process: u32, line: u64);

    /// The call in this line has returned. It is not called for one that waits for ever.
    fn after(&self, _process: u32, _line: u64) {}
}

/// The hook that does nothing.
#[derive(Clone, Copy, Drop)]
pub struct Plain;

impl Gate for Plain {
    fn before(&self, _process: u32, _line: u64) {}
}
