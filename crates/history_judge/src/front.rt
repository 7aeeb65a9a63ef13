//! Prefixes of a history: what was seen of it until a return.
ghost use Rattle.std.specs.Prelude.{◌≡◌, ◌++◌, ◌∷◌, ◌+◌, [], IfOk, OnOk, drop, map};
ghost use Rattle.std.specs.List.{list_any};
ghost use Rattle.history_judge.specs.Text.{message_of, written_reply};
ghost use Rattle.history_judge.specs.Seen.{AreSameCalls, seen_call};
ghost use Rattle.history_judge.specs.Fronts.{AreHeld, AreReturnsOf, begins_at, ends_at, front_until, had_returned, is_held, under_way};

use crate::line::Called;
use histories::operation::{Operation, Outcome};
use mq_model::limits::PROCESSES;
use std::alloc::{AllocError, Global};

/// The returns of a history in order, each with its time and the index of its call. If two are at
/// the same time, the one whose line comes first is the earlier.
pub fn returns_of(alloc: Global, calls: &[Called]) -> Result<Vec<(u64, usize)>, AllocError>
    ensures { IfOk result (λ returns. AreReturnsOf calls.now returns.items) }
{
    let mut returns = Vec::new(alloc);
    for (index, called) in calls.iter().enumerate() {
        if !called.operation.outcome.is_pending() {
            returns.push((called.operation.end, index))?;
        }
    }
    returns.sort()?;
    Ok(returns)
}

// A copy of what was returned.
fn outcome_again(alloc: Global, outcome: &Outcome) -> Result<Outcome, AllocError>
    ensures reply { IfOk result (λ again. written_reply again ≡ written_reply outcome.now) }
    ensures message { IfOk result (λ again. message_of again ≡ message_of outcome.now) }
{
    match outcome {
        Outcome::Pending => Ok(Outcome::Pending),
        Outcome::Done => Ok(Outcome::Done),
        Outcome::Opened(d) => Ok(Outcome::Opened(*d)),
        Outcome::Got { prio, message } => {
            let message = message.as_slice().to_vec(alloc)?;
            Ok(Outcome::Got {
                prio: *prio,
                message,
            })
        }
        Outcome::Attributes(status) => Ok(Outcome::Attributes(*status)),
        Outcome::Notice(value) => Ok(Outcome::Notice(*value)),
        Outcome::Refused(fault) => Ok(Outcome::Refused(*fault)),
    }
}

// A copy of a call.
fn again(alloc: Global, called: &Called) -> Result<Called, AllocError>
    ensures { IfOk result (λ again. seen_call again ≡ seen_call called.now) }
{
    let operation = &called.operation;
    let given = operation.given.as_slice().to_vec(alloc)?;
    let outcome = outcome_again(alloc, &operation.outcome)?;
    Ok(Called {
        process: called.process,
        operation: Operation {
            call: operation.call,
            given,
            begin: operation.begin,
            end: operation.end,
            outcome,
        },
    })
}

// A copy of a call that has not returned.
fn under_way(alloc: Global, called: &Called) -> Result<Called, AllocError>
    ensures { IfOk result (λ again. seen_call again ≡ seen_call (under_way called.now)) }
{
    let operation = &called.operation;
    let given = operation.given.as_slice().to_vec(alloc)?;
    Ok(Called {
        process: called.process,
        operation: Operation {
            call: operation.call,
            given,
            begin: operation.begin,
            end: u64::MAX,
            outcome: Outcome::Pending,
        },
    })
}

// Whether a call is of this process and returned at this time.
fn ends_at(process: u32, moment: u64, called: &Called) -> bool
    ensures { result ≡ ends_at process moment called.now }
{
    let operation = &called.operation;
    called.process == process && !operation.outcome.is_pending() && operation.end == moment
}

// Whether a call is of this process and began at this time.
fn begins_at(process: u32, moment: u64, called: &Called) -> bool
    ensures { result ≡ begins_at process moment called.now }
{
    called.process == process && called.operation.begin == moment
}

// The calls behind an index.
fn behind(calls: &[Called], index: usize) -> &[Called]
    ensures { result.now ≡ drop (index + 1) calls.now }
{
    if index >= calls.len() {
        return &[];
    }
    &calls[index + 1..]
}

// Whether some call is of this process and returned at this time.
fn any_ends_at(calls: &[Called], process: u32, moment: u64) -> bool
    ensures { result ≡ list_any (ends_at process moment) calls.now }
{
    calls.iter().any(|called| ends_at(process, moment, called))
}

// Whether some call is of this process and began at this time.
fn any_begins_at(calls: &[Called], process: u32, moment: u64) -> bool
    ensures { result ≡ list_any (begins_at process moment) calls.now }
{
    calls
        .iter()
        .any(|called| begins_at(process, moment, called))
}

// Whether the calls of a process that return at the time of this return have not returned yet: one
// of them is in a line behind, and the process makes no call at that time, so that they return
// together with it.
fn is_held(calls: &[Called], last: (u64, usize), process: u32) -> bool
    ensures { result ≡ is_held last process calls.now }
{
    any_ends_at(behind(calls, last.1), process, last.0) && !any_begins_at(calls, process, last.0)
}

const COUNT: u32 = PROCESSES + 1;

// Whether the calls of each process are held at this return, from process 0 on.
fn held_at(alloc: Global, calls: &[Called], last: (u64, usize)) -> Result<Vec<bool>, AllocError>
    ensures { IfOk result (λ held. AreHeld last calls.now held.items) }
{
    let mut held = Vec::new(alloc);
    for process in 0..COUNT {
        held.push(is_held(calls, last, process))?;
    }
    Ok(held)
}

// The same of one process, which is in the list unless it has a greater number.
fn is_held_in(held: &[bool], calls: &[Called], last: (u64, usize), process: u32) -> bool
    requires { AreHeld last calls.now held.now }
    ensures { result ≡ is_held last process calls.now }
{
    let index = process as usize;
    if index < held.len() {
        held[index]
    } else {
        is_held(calls, last, process)
    }
}

// Whether an operation had returned at a time, and at the time itself unless it was held.
fn had_returned(moment: u64, held: bool, operation: &Operation) -> bool
    ensures { result ≡ had_returned moment held operation.now }
{
    !operation.outcome.is_pending()
        && (operation.end < moment || (operation.end == moment && !held))
}

/// The prefix of the history until the return of one of its calls. Calls that returned before it
/// have returned, and of those that returned at its time, the calls of each process that makes
/// another one at that time, or has none of them in a line behind that return. The others that
/// began by then are pending, and the rest are left out. If the history is well-formed, so is the
/// prefix.
pub fn front_of(
    alloc: Global,
    calls: &[Called],
    last: (u64, usize),
) -> Result<Vec<Called>, AllocError>
    ensures { IfOk result (λ front. AreSameCalls front.items (front_until last calls.now)) }
{
    let held = held_at(alloc, calls, last)?;
    let mut front = Vec::new(alloc);
    for called in calls {
        let is_held = is_held_in(&held, calls, last, called.process);
        if had_returned(last.0, is_held, &called.operation) {
            add(alloc, &mut front, called)?;
        } else if called.operation.begin <= last.0 {
            add_under_way(alloc, &mut front, called)?;
        }
    }
    Ok(front)
}

fn add(alloc: Global, calls: &mut Vec<Called>, called: &Called) -> Result<(), AllocError>
    ensures { OnOk result (map seen_call calls.new.items ≡
        map seen_call calls.old.items ++ seen_call called.now ∷ []) }
{
    let again = again(alloc, called)?;
    calls.push(again)?;
    Ok(())
}

fn add_under_way(alloc: Global, calls: &mut Vec<Called>, called: &Called) -> Result<(), AllocError>
    ensures { OnOk result (map seen_call calls.new.items ≡
        map seen_call calls.old.items ++ seen_call (under_way called.now) ∷ []) }
{
    let again = under_way(alloc, called)?;
    calls.push(again)?;
    Ok(())
}

/// A copy of the whole history.
pub fn whole_of(alloc: Global, calls: &[Called]) -> Result<Vec<Called>, AllocError>
    ensures { IfOk result (λ whole. AreSameCalls whole.items calls.now) }
{
    let mut whole = Vec::new(alloc);
    for called in calls {
        add(alloc, &mut whole, called)?;
    }
    Ok(whole)
}
