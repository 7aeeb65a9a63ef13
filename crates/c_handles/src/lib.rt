//! Handles of processes for C, and what the exports for C consist of.
//!
//! A handle holds one process of a system. Each try of a call takes a bounded number of steps to
//! acquire the lock. If these do not acquire it, the acquisition stays in progress, and the next
//! try continues from there.
#![tactic(auto)]

pub mod handle;
pub mod member;
pub mod numbers;
pub mod parts;
pub mod reading;
pub mod requests;
pub mod seal;
pub mod standing;
pub mod system;
pub mod tried;
