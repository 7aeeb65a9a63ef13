//! POSIX message queues for C: a static library over Lamport's lock, in which no call waits.
//!
//! A handle holds one process of a system. Each export checks every mistake of a C program that can
//! be detected, and takes a bounded number of steps to acquire the lock. If these do not acquire
//! it, the export returns `RETRY`, and the next try continues from there. `include/yakyrombe.h` has
//! the declarations, with what a C program must observe. The exports call `c_handles`.
#![tactic(auto)]

mod exports;
mod journals;
mod systems;
