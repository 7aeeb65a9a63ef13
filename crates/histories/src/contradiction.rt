//! A contradiction of any kind.
ghost use Rattle.std.specs.Prelude.{IfOk, IfSome, IsSome};
ghost use Rattle.histories.specs.Contradiction.{IsContradiction};
ghost use Rattle.histories.specs.Excess.{HasNoOrder};

use crate::excess::{Excess, find_excess};
use crate::not_full::{NotFull, find_not_full};
use crate::operation::Operation;
use crate::passed::{Passed, find_passed};
use std::alloc::{AllocError, Global};

/// Why a history has no linearization.
#[derive(Drop)]
pub enum Contradiction {
    Excess(Excess),
    Passed(Passed),
    NotFull(NotFull),
}

/// A contradiction, if one is found. Such a history has no linearization.
pub fn find_contradiction(
    alloc: Global,
    histories: &Vec<Vec<Operation>>,
) -> Result<Option<Contradiction>, AllocError>
    ensures is { IfOk result (λ found. IfSome found (IsContradiction histories.now.items)) }
    ensures none { IfOk result (λ found. IsSome found → HasNoOrder histories.now.items) }
{
    if let Some(excess) = find_excess(alloc, histories)? {
        return Ok(Some(Contradiction::Excess(excess)));
    }
    if let Some(passed) = find_passed(alloc, histories)? {
        return Ok(Some(Contradiction::Passed(passed)));
    }
    match find_not_full(alloc, histories)? {
        None => Ok(None),
        Some(found) => Ok(Some(Contradiction::NotFull(found))),
    }
}
