//! The journal as text, with one line for each entry.
#![tactic(auto)]

pub mod call;
pub mod caller;
pub mod fault;
pub mod fitting;
pub mod input;
pub mod line;
pub mod lines;
pub mod payload;
pub mod reply;
pub mod text;
pub mod words;
