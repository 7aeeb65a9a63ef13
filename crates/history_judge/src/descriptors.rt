//! Renumbering of descriptors. An implementation may return any descriptor numbers; this library
//! returns the lowest free one. The operations of a history are renumbered to what this library
//! returns. An open determines which later calls of its process are about its descriptor.
ghost use Rattle.std.specs.Prelude.{◌≡◌, ◌<◌, IfOk, IfSome, is_none, position};
ghost use Rattle.history_judge.specs.Descriptors.{held_at, lowest_free, no_numbers, numbers_after, own_call, own_number, own_outcome, renamed, after_opened, after_closed};

use histories::operation::{Operation, Outcome};
use mq_model::entries::Call;
use mq_model::limits::DESCRIPTORS;
use std::alloc::{AllocError, Global};

// The implementation's number for each of this library's numbers that a process holds.
type Numbers = [Option<u32>; 16];

// The first number under which a descriptor is held.
fn held_at(numbers: &Numbers, d: u32) -> Option<usize>
    ensures first { result ≡ held_at numbers.now d }
    ensures few { IfSome result (λ number. number < 16) }
{
    numbers.iter().position(|number| *number == Some(d))
}

// This library's number for a descriptor, or 16, which no process holds.
fn own_number(numbers: &Numbers, d: u32) -> u32
    ensures { result ≡ own_number numbers.now d }
{
    match held_at(numbers, d) {
        None => DESCRIPTORS as u32,
        Some(number) => number as u32,
    }
}

fn free_at(numbers: &Numbers) -> Option<usize>
    ensures first { result ≡ position is_none numbers.now }
    ensures few { IfSome result (λ number. number < 16) }
{
    numbers.iter().position(|number| number.is_none())
}

// The lowest number that is free, or 16.
fn lowest_free(numbers: &Numbers) -> u32
    ensures { result ≡ lowest_free numbers.now }
{
    match free_at(numbers) {
        None => DESCRIPTORS as u32,
        Some(number) => number as u32,
    }
}

// A call with this library's number for its descriptor.
fn own_call(numbers: &Numbers, call: Call) -> Call
    ensures { result ≡ own_call numbers.now call }
{
    match call {
        Call::MqClose { d } => Call::MqClose {
            d: own_number(numbers, d),
        },
        Call::MqSend { d, prio, len } => Call::MqSend {
            d: own_number(numbers, d),
            prio,
            len,
        },
        Call::MqReceive { d, room } => Call::MqReceive {
            d: own_number(numbers, d),
            room,
        },
        Call::MqTimedSend {
            d,
            prio,
            len,
            until,
            now,
        } => Call::MqTimedSend {
            d: own_number(numbers, d),
            prio,
            len,
            until,
            now,
        },
        Call::MqTimedReceive {
            d,
            room,
            until,
            now,
        } => Call::MqTimedReceive {
            d: own_number(numbers, d),
            room,
            until,
            now,
        },
        Call::MqGetattr { d } => Call::MqGetattr {
            d: own_number(numbers, d),
        },
        Call::MqSetattr { d, nonblock } => Call::MqSetattr {
            d: own_number(numbers, d),
            nonblock,
        },
        Call::MqNotify { d, value } => Call::MqNotify {
            d: own_number(numbers, d),
            value,
        },
        _ => call,
    }
}

// What a call returned. An open returns the lowest free number.
fn own_outcome(numbers: &Numbers, outcome: Outcome) -> Outcome
    ensures { result ≡ own_outcome numbers.now outcome }
{
    match outcome {
        Outcome::Opened(_) => Outcome::Opened(lowest_free(numbers)),
        _ => outcome,
    }
}

// What a process holds after a call with this library's number.
fn numbers_after(numbers: Numbers, call: Call, outcome: &Outcome) -> Numbers
    ensures { result ≡ numbers_after numbers call outcome.now }
{
    match outcome {
        Outcome::Opened(d) => after_opened(numbers, lowest_free(&numbers), *d),
        Outcome::Done => after_closed(numbers, call),
        _ => numbers,
    }
}

fn after_opened(mut numbers: Numbers, number: u32, d: u32) -> Numbers
    ensures { result ≡ after_opened numbers number d }
{
    if number < DESCRIPTORS as u32 {
        numbers[number as usize] = Some(d);
    }
    numbers
}

fn after_closed(mut numbers: Numbers, call: Call) -> Numbers
    ensures { result ≡ after_closed numbers call }
{
    match call {
        Call::MqClose { d } => {
            if d < DESCRIPTORS as u32 {
                numbers[d as usize] = None;
            }
            numbers
        }
        _ => numbers,
    }
}

/// Renumbers the descriptors of a process: each open returns the lowest free number. A call with a
/// descriptor that the process does not hold gets the number 16, with which it fails.
pub fn rename(alloc: Global, operations: Vec<Operation>) -> Result<Vec<Operation>, AllocError>
    ensures { IfOk result (λ own. own.items ≡ renamed no_numbers operations.items) }
{
    let mut numbers: Numbers = [None; 16];
    let mut own = Vec::new(alloc);
    for operation in operations {
        let Operation {
            call,
            given,
            begin,
            end,
            outcome,
        } = operation;
        let call = own_call(&numbers, call);
        let after = numbers_after(numbers, call, &outcome);
        let outcome = own_outcome(&numbers, outcome);
        numbers = after;
        own.push(Operation {
            call,
            given,
            begin,
            end,
            outcome,
        })?;
    }
    Ok(own)
}
