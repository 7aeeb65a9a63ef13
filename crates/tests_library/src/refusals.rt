//! Lines that a test prints when an allocation was made to fail from outside and the test has
//! checked that nothing changed by it.
use std::alloc::Global;
use std::io::Print;

/// Prints that an allocation failed at this place. The caller has checked that nothing changed.
pub fn say_refused<R: Print>(rt: &R, place: &str) {
    let _ = println!(rt; "refused: {place}");
}

// An allocation of this many bytes is a mark. After it, a tool outside may make every allocation
// fail, a second mark included.
const MARK: usize = 16_777_213;

/// A mark. A tool outside may count the bytes requested between two marks.
pub fn mark(alloc: Global) {
    let _ = Vec::<u8>::with_capacity(alloc, MARK);
}

/// From here on a tool outside may make every allocation fail. Prints a line if it does.
pub fn refuse_all<R: Print>(rt: &R, alloc: Global) {
    mark(alloc);
    if Vec::<u8>::with_capacity(alloc, MARK).is_err() {
        say_refused(rt, "every allocation from here on");
    }
}
