//! The message queues of one thread. Each call appends the entry that the definitions determine.
#![tactic(auto)]

pub mod books;
mod buffers;
pub mod collected;
pub mod memory;
mod moves;
mod notices;
mod prefixes;
mod queues;
pub mod replay;
pub mod rewriting;
mod tables;
pub mod trail;
