//! Scripts of message queue calls: their grammar, and the text of their replies.
#![tactic(auto)]

pub mod clock;
pub mod command;
pub mod fault;
pub mod line;
pub mod reasons;
pub mod reply;
pub mod script;
pub mod text;
pub mod verb;
