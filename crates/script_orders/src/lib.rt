//! Every interleaving of the calls of a script.
#![tactic(auto)]

pub mod alone;
pub mod keys;
pub mod orders;
pub mod phased;
pub mod plan;
pub mod play;
pub mod readback;
pub mod report;
pub mod said;
pub mod turn;
mod waiting;
