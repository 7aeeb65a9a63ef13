//! Reading the bytes of an input, splitting lines into words, and writing bytes to an output.
#![tactic(auto)]

pub mod input;
pub mod output;
pub mod sources;
pub mod words;
