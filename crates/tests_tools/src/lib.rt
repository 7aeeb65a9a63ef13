//! Tests of what the programs rest on: the bytes, words and numbers that `text_io` reads and
//! writes, scripts over readers, writers and gates of the tests, and the traces and requests of
//! `exploration`. They are in a crate of their own, so that none of those crates is proved again
//! for them. `checks/command_line` gives the programs themselves scripts, journals and histories,
//! and `checks/searched` gives `mqexplore` programs to explore.
#![tactic(auto)]

#[cfg(test)]
mod reading;
#[cfg(test)]
mod runs;
#[cfg(test)]
mod same;
#[cfg(test)]
mod streams;
#[cfg(test)]
mod words;
