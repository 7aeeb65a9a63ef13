//! Journals as text for C: a second static library, beside `c_exports`.
//!
//! A program that reads the lines of a journal, or continues from one, links it too. It makes the
//! handles and takes the steps of `c_handles`, as the exports of `c_exports` do.
#![tactic(auto)]

mod reading;
mod resuming;
