//! The journal of a system. Either it is stored, or its records are a history variable, which
//! contracts read and no code stores.
#![tactic(auto)]

mod classes;
pub mod history;
mod index;
pub mod ledger;
mod paid;
mod slots;
pub mod unstored;
