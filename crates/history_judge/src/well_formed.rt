//! Whether a history is well-formed: each process makes its calls one after the other, and each
//! call is given the bytes that it takes.
ghost use Rattle.std.specs.Prelude.{◌≡◌, IfSome, None, Some, max};
ghost use Rattle.history_judge.specs.Processes.{AreOfProcesses};
ghost use Rattle.history_judge.specs.WellFormed.{IsFirstFault, IsWellFormed, fault_behind, ill_formed_text, is_behind, overlaps, takes_name};

use crate::line::Called;
use histories::operation::{Operation, Outcome};
use mq_model::entries::{Call, Reply};
use mq_model::forms::is_payload;
use mq_model::limits::PROCESSES;
use std::fmt;

/// Why a call may not follow those before it in a history.
#[derive(Clone, Copy, Debug, PartialEq, Eq)]
pub enum IllFormed {
    /// An earlier call of its process had not returned, and the two did not begin together, or this
    /// one returned.
    BehindPending,
    /// It begins before an earlier call of its process ended, and does not begin and end together
    /// with it.
    Overlaps,
    /// It ends before it begins.
    EndsFirst,
    /// It names a queue by a malformed name.
    BadName,
    /// Its length is not that of its message, or it has a message although it takes none.
    BadLength,
}

impl fmt::Display for IllFormed {
    ghost output = { λ why. Some (ill_formed_text why) };

    fn fmt<W: fmt::Write>(&self, f: &mut fmt::Formatter<W>) -> fmt::Result {
        f.write_str(match self {
            IllFormed::BehindPending => "an earlier call of this process had not returned",
            IllFormed::Overlaps => "this call begins before an earlier one of its process ended",
            IllFormed::EndsFirst => "this call ends before it begins",
            IllFormed::BadName => "the name is not a valid queue name",
            IllFormed::BadLength => "the length is not that of the message",
        })
    }
}

const COUNT: usize = PROCESSES as usize + 1;

fn takes_name(call: Call) -> bool
    ensures { result ≡ takes_name call }
{
    match call {
        Call::MqOpen { flags: _, attr: _ } | Call::MqUnlink => true,
        _ => false,
    }
}

fn later(one: u64, other: u64) -> u64
    ensures { result ≡ max one other }
{
    one.max(other)
}

// Whether the operation begins before others of its process ended, whose latest times are these,
// and does not begin and end together with them, as the closes of an exit do.
fn overlaps(begin: u64, end: u64, operation: &Operation) -> bool
    ensures { result ≡ overlaps (record { begin = begin; end = end }) operation.now }
{
    operation.begin < end && !(operation.begin == begin && operation.end == end)
}

// Whether an earlier call had not returned, unless the two began together and neither returned, as
// the closes of an exit that had not ended.
fn is_behind(pending: bool, begin: u64, operation: &Operation) -> bool
    ensures { result ≡ is_behind pending begin operation.now }
{
    pending && !(operation.outcome.is_pending() && operation.begin == begin)
}

// Why a call may not follow others of its process.
fn fault_behind(pending: bool, begin: u64, end: u64, called: &Called) -> Option<IllFormed>
    ensures { result ≡ fault_behind pending (record { begin = begin; end = end }) called.now }
{
    let operation = &called.operation;
    if is_behind(pending, begin, operation) {
        return Some(IllFormed::BehindPending);
    }
    if overlaps(begin, end, operation) {
        return Some(IllFormed::Overlaps);
    }
    if operation.end < operation.begin {
        return Some(IllFormed::EndsFirst);
    }
    if is_payload(operation.call, Reply::Done, &operation.given) {
        return None;
    }
    if takes_name(operation.call) {
        Some(IllFormed::BadName)
    } else {
        Some(IllFormed::BadLength)
    }
}

/// The first line, counted from 1, whose call may not follow those before it, and why.
pub fn first_fault(calls: &[Called]) -> Option<(u64, IllFormed)>
    requires { AreOfProcesses calls.now }
    ensures none { result ≡ None → IsWellFormed calls.now }
    ensures some { IfSome result (λ fault. IsFirstFault calls.now fault.0 fault.1) }
{
    let mut begins = [0u64; COUNT];
    let mut ends = [0u64; COUNT];
    let mut pending = [false; COUNT];
    for n in 0..calls.len() {
        let called = &calls[n];
        let p = called.process as usize;
        if let Some(why) = fault_behind(pending[p], begins[p], ends[p], called) {
            return Some((n as u64 + 1, why));
        }
        begins[p] = later(begins[p], called.operation.begin);
        ends[p] = later(ends[p], called.operation.end);
        pending[p] = pending[p] | called.operation.outcome.is_pending();
    }
    None
}
