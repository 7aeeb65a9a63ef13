//! The messages of one queue as linked slots. The message that is received next is found at once,
//! and pushes and pops take no memory.
#![tactic(auto)]

mod cells;
pub mod chains;
mod levels;

pub use chains::Slots;
