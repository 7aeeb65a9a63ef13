//! Why a line is malformed: of a script, a journal, a history, or a list of the steps of threads.
//! It is told to the one who wrote the line; which line is malformed is decided elsewhere.
#![tactic(auto)]

pub mod formats;
mod grammar;
pub mod kept;
mod marks;
pub mod scripts;
pub mod steps;
mod texts;
mod words;
