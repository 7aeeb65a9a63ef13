//! Choosing the schedules of a program to try, from the traces of its earlier runs. It is proved
//! that each run takes only choices that an earlier run showed to be possible
//! (`explore::Program::run` requires it), that the search ends (by the measure of
//! `explore::search_within`), and which steps are independent (`dependence::are_independent`). That
//! no order that matters is left out is not proved, but tested against all interleavings of small
//! programs.
#![tactic(auto)]

pub mod advice;
pub mod deed;
pub mod dependence;
pub mod event;
pub mod explore;
pub mod fault;
pub mod follow;
pub mod index;
pub mod kind;
pub mod operation;
pub mod plan;
pub mod races;
pub mod record;
pub mod request;
pub mod search;
pub mod trace;
