//! The base of the queues under one name: the types, the journal and the definitions, the laws of
//! every legal journal, and the check that a journal is legal.
#![tactic(auto)]

pub use mq_checker::checker;
pub use mq_checker::checker::check_history;
pub use mq_laws as laws;
pub use mq_model::{callers, clock, entries, faults, journals, names, owners, registrations};
