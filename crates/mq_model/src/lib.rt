//! The types, the journal and the definitions of the message queues.
#![tactic(auto)]

pub mod bounds;
pub mod callers;
pub mod clock;
pub mod entries;
pub mod error_order;
pub mod faults;
pub mod forms;
pub mod journals;
pub mod limits;
pub mod names;
pub mod owners;
pub mod registrations;
pub mod replies;
mod stored;
