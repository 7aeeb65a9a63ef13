//! Checking that a journal is legal. `checker::check_history` determines each reply from the
//! entries before it.
#![tactic(auto)]

pub mod checker;
mod expected;
pub mod scan_messages;
pub mod scan_names;
pub mod scan_notices;
mod tables;
pub mod taken;
