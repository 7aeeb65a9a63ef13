//! Concurrent histories as text, one line for each call, and checking whether they are
//! linearizable.
#![tactic(auto)]

pub mod descriptors;
mod first_contradiction;
mod fitting;
pub mod front;
pub mod hints;
pub mod input;
pub mod judgement;
pub mod line;
pub mod outcome;
pub mod places;
pub mod processes;
pub mod renaming;
pub mod said;
pub mod tasks;
pub mod text;
pub mod well_formed;
