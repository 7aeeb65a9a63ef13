//! Runs scripts of message queue calls, with one thread for each process.
#![tactic(auto)]

mod after;
mod calls;
mod deal;
mod fault;
mod gate;
mod journal;
mod meeting;
mod noted;
mod noting;
mod peers;
mod phase;
mod run;
mod runner;
mod settling;
mod sink;
mod stop;
mod text;
mod turns;
mod waiting;

pub use after::run_after;
pub use fault::RunFault;
pub use gate::{Gate, Plain};
pub use journal::script_journal;
pub use noted::Noted;
pub use noting::run_noted;
pub use run::run_script;
