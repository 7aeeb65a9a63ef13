//! Tests of the library, through the public items of its crates: Lamport's machine and the locks,
//! the laws of journals, the queues of one thread, and the processes. They are in a crate of their
//! own, so that none of those crates is proved again for them. Which reply a call gets, contracts
//! say; `checks/cases` has worked journals and scripts.
#![tactic(auto)]

#[cfg(test)]
mod books;
#[cfg(test)]
mod laws;
#[cfg(test)]
mod locks;
#[cfg(test)]
mod machine;
#[cfg(test)]
mod making;
#[cfg(test)]
mod processes;
#[cfg(test)]
mod refusals;
#[cfg(test)]
mod same;
#[cfg(test)]
mod steps;
