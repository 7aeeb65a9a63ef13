//! The memory that making queues with bounds takes. A tool outside counts the bytes requested
//! between two marks.
use crate::refusals::mark;
use mq_state::books::Books;
use mq_state::memory::memory_of;
use std::alloc::Global;
use std::io::Print;
use std::process::Abort;

// Numbers of processes, of entries and of payload bytes.
static SIZES: [(u32, u64, u64); 6] = [
    (1, 0, 0),
    (1, 1, 0),
    (2, 0, 1),
    (5, 100, 1_000),
    (17, 4_096, 65_536),
    (32, 20_000, 1),
];

// Makes queues between two marks, and prints the number of bytes that `memory_of` predicts.
fn make<A: Abort + Print>(rt: &A, alloc: Global, n: u32, entries: u64, bytes: u64) {
    let bytes_taken = memory_of(n, entries, bytes).expect(rt, "a number");
    let n = n.clamp(1, 32);
    mark(alloc);
    let books = Books::bounded(alloc, n, entries, bytes);
    mark(alloc);
    assert!(rt; books.is_ok());
    println!(rt; "takes: {bytes_taken}").expect(rt, "an output");
}

#[test]
fn memory_of_is_what_the_making_asks_for(rt: HostRuntime) {
    for (n, entries, bytes) in SIZES {
        make(&rt, rt.alloc(), n, entries, bytes);
    }
}

#[test]
fn bounds_beyond_all_memory_are_refused(rt: HostRuntime) {
    assert!(rt; Books::bounded(rt.alloc(), 1, u64::MAX, u64::MAX).is_err());
}
