//! Which operations of a process are on the queue of a name.
ghost use Rattle.std.specs.Prelude.{◌≡◌};
ghost use Rattle.std.specs.List.{list_any};
ghost use Rattle.mq_model.specs.Names.{is_open, is_unlink};
ghost use Rattle.histories.specs.Named.{has_any, has_unlinked, is_marked, marks_after, marks_opened, unbinds};

use crate::operation::{Operation, Outcome, has_failed};
use mq_model::entries::Call;

/// For each of the 16 descriptors of a process, whether it is of the queue: the latest open that
/// returned it gave the queue's name.
pub type Marks = [bool; 16];

/// Whether a descriptor is marked.
pub fn is_marked(marks: &Marks, d: Option<u32>) -> bool
    ensures { result ≡ is_marked marks.now d }
{
    match d {
        None => false,
        Some(d) => d < 16 && marks[d as usize],
    }
}

fn marks_opened(name: &[u8], mut marks: Marks, given: &[u8], outcome: &Outcome) -> Marks
    ensures { result ≡ marks_opened name.now marks given.now outcome.now }
{
    match outcome {
        Outcome::Opened(d) => {
            if *d < 16 {
                marks[*d as usize] = given == name;
            }
            marks
        }
        _ => marks,
    }
}

/// The marks after an operation: an open marks the descriptor that it returned if it gave the name.
pub fn marks_after(name: &[u8], marks: Marks, operation: &Operation) -> Marks
    ensures { result ≡ marks_after name.now marks operation.now }
{
    marks_opened(name, marks, &operation.given, &operation.outcome)
}

/// Whether an operation is an unlink of the name that did not fail.
pub fn has_unlinked(name: &[u8], operation: &Operation) -> bool
    ensures { result ≡ has_unlinked name.now operation.now }
{
    operation.call.is_unlink()
        && !has_failed(&operation.outcome)
        && operation.given.as_slice() == name
}

// Whether an operation began by this time, and is such an unlink or an open that had not returned.
fn unbinds(time: u64, name: &[u8], operation: &Operation) -> bool
    ensures { result ≡ unbinds time name.now operation.now }
{
    operation.begin <= time
        && (has_unlinked(name, operation)
            || operation.call.is_open() && operation.outcome.is_pending())
}

fn one_unbinds(time: u64, name: &[u8], operations: &[Operation]) -> bool
    ensures { result ≡ list_any (unbinds time name.now) operations.now }
{
    let mut found = false;
    for operation in operations {
        found = found || unbinds(time, name, operation);
    }
    found
}

/// Whether an operation that began by this time is an unlink of the name that did not fail, or an
/// open that had not returned.
pub fn was_unbound(time: u64, name: &[u8], histories: &Vec<Vec<Operation>>) -> bool
    ensures { result ≡ has_any (unbinds time name.now) histories.now.items }
{
    let mut found = false;
    for operations in histories {
        found = found || one_unbinds(time, name, operations);
    }
    found
}
