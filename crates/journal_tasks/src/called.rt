//! The calls of a script as those of a history.
ghost use Rattle.std.specs.Prelude.{◌≡◌, ◌++◌, ◌∷◌, [], IfOk, List, OnOk, map, nat_lt, slice_get, true};
ghost use Rattle.history_judge.specs.Text.{message_of, written_reply};
ghost use Rattle.script_orders.specs.Plans.{plan_of};
ghost use Rattle.script_text.specs.Replies.{message_received};
ghost use Rattle.script_text.specs.Script.{said_script};
ghost use Rattle.journal_tasks.specs.Histories.{AreOfScript, Asked, Makes, MakesFront, asked, close_by, completions_of, message_came, reply_came, reply_said};
ghost use Rattle.std.specs.Option.{option_map};

use crate::moments::Moments;
use histories::operation::{Operation, Outcome};
use history_judge::line::Called;
use mq_model::entries::Call;
use script_orders::plan::{Planned, Step, programs_of};
use script_runner::Noted;
use script_text::reply::{Completion, Outcome as Said};
use script_text::script::Script;
use std::alloc::{AllocError, Global};

/// The calls of a script that began, each process's in the order of its lines. A malformed name
/// makes no call, and an exit becomes the closes of the descriptors that the process holds.
pub fn calls_of(
    alloc: Global,
    script: &Script<'_>,
    noted: &[Noted],
    moments: &Moments,
) -> Result<Vec<Called>, AllocError>
    ensures { IfOk result (λ calls.
        AreOfScript (said_script script.now) noted.now calls.items) }
{
    let programs = programs_of(alloc, script)?;
    let mut calls: Vec<Called> = Vec::new(alloc);
    for index in 0..script.processes {
        let program = programs[index as usize].as_slice();
        push_program(alloc, &mut calls, index + 1, program, noted, moments)?;
    }
    Ok(calls)
}

// Adds the calls of a process that began.
fn push_program(
    alloc: Global,
    calls: &mut Vec<Called>,
    process: u32,
    program: &[Planned],
    noted: &[Noted],
    moments: &Moments,
) -> Result<(), AllocError>
    ensures { OnOk result ((own : List Asked) ×
        MakesFront process (map plan_of program.now) (completions_of process noted.now) own ×
        (map asked calls.new.items ≡ map asked calls.old.items ++ own)) }
{
    let mut held: Vec<u32> = Vec::new(alloc);
    for index in 0..program.len() {
        let planned = &program[index];
        let came = completion_of(noted, process, index);
        let begin = moments.begin(planned.line);
        if came.is_none() && begin.is_none() {
            return Ok(());
        }
        let span = span_of(process, begin.unwrap_or(0), moments.end(planned.line));
        push_line(alloc, calls, &mut held, span, planned, came)?;
        if came.is_none() {
            return Ok(());
        }
    }
    Ok(())
}

// What the call of this process with this index returned, if it did.
fn completion_of(noted: &[Noted], process: u32, index: usize) -> Option<&Completion>
    ensures { option_map (λ c. c.now) result ≡ slice_get (completions_of process noted.now) index }
{
    let mut left = index;
    for one in noted {
        if one.process == process {
            if left == 0 {
                return Some(&one.completion);
            }
            left -= 1;
        }
    }
    None
}

// Which process made a call, and when the call began and ended.
#[derive(Clone, Copy)]
struct Span {
    process: u32,
    begin: u64,
    end: u64,
}

// The times of a call. They are adjusted so that it begins before it ends, which the clock already
// ensures.
fn span_of(process: u32, begin: u64, end: u64) -> Span
    ensures process { result.process ≡ process }
    ensures in_order { nat_lt result.begin result.end ≡ true }
{
    let begin = begin.min(u64::MAX - 1);
    Span {
        process,
        begin,
        end: end.max(begin + 1),
    }
}

// Adds the calls of a line. `held` are the descriptors that its process holds.
fn push_line(
    alloc: Global,
    calls: &mut Vec<Called>,
    held: &mut Vec<u32>,
    span: Span,
    planned: &Planned,
    came: Option<&Completion>,
) -> Result<(), AllocError>
    requires { nat_lt span.begin span.end ≡ true }
    ensures { OnOk result ((own : List Asked) ×
        Makes span.process planned.now.given.items planned.now.step (option_map (λ c. c.now) came.entry) own ×
        (map asked calls.new.items ≡ map asked calls.old.items ++ own)) }
{
    match planned.step {
        Step::Call(call) => {
            let outcome = outcome_or_pending(alloc, came)?;
            hold(held, call, &outcome)?;
            let given = planned.given.as_slice().to_vec(alloc)?;
            push_call(calls, called(span, call, given, outcome))?;
        }
        Step::Refusal(_) => {}
        Step::Exit => {
            push_closes(alloc, calls, held.as_slice(), span)?;
            held.clear();
        }
    }
    Ok(())
}

fn push_call(calls: &mut Vec<Called>, call: Called) -> Result<(), AllocError>
    ensures { OnOk result (map asked calls.new.items ≡
        map asked calls.old.items ++ asked call ∷ []) }
{
    calls.push(call)?;
    Ok(())
}

// Adds a close of each of these descriptors.
fn push_closes(
    alloc: Global,
    calls: &mut Vec<Called>,
    held: &[u32],
    span: Span,
) -> Result<(), AllocError>
    requires { nat_lt span.begin span.end ≡ true }
    ensures { OnOk result (map asked calls.new.items ≡
        map asked calls.old.items ++ map (close_by span.process) held.now) }
{
    for d in held {
        let call = Call::MqClose { d: *d };
        push_call(calls, called(span, call, Vec::new(alloc), Outcome::Done))?;
    }
    Ok(())
}

fn called(span: Span, call: Call, given: Vec<u8>, outcome: Outcome) -> Called
    ensures { asked result ≡ record {
      process = span.process;
      call = call;
      given = given.items;
      reply = written_reply outcome;
      message = message_of outcome;
      in_order = nat_lt span.begin span.end;
    } }
{
    Called {
        process: span.process,
        operation: Operation {
            call,
            given,
            begin: span.begin,
            end: span.end,
            outcome,
        },
    }
}

// Updates the descriptors that a process holds, after a call.
fn hold(held: &mut Vec<u32>, call: Call, outcome: &Outcome) -> Result<(), AllocError> {
    match (call, outcome) {
        (_, Outcome::Opened(d)) => held.push(*d)?,
        (Call::MqClose { d }, Outcome::Done) => held.retain(|other| *other != d),
        _ => {}
    }
    Ok(())
}

fn outcome_or_pending(alloc: Global, came: Option<&Completion>) -> Result<Outcome, AllocError>
    ensures reply { IfOk result (λ outcome. written_reply outcome ≡
        reply_came (option_map (λ c. c.now) came.entry)) }
    ensures message { IfOk result (λ outcome. message_of outcome ≡
        message_came (option_map (λ c. c.now) came.entry)) }
{
    match came {
        Some(completion) => outcome_of(alloc, completion),
        None => Ok(Outcome::Pending),
    }
}

// What a call returned, in the form of a history. A received message is at the start of the buffer.
fn outcome_of(alloc: Global, completion: &Completion) -> Result<Outcome, AllocError>
    ensures reply { IfOk result (λ outcome.
        written_reply outcome ≡ reply_said completion.now.outcome) }
    ensures message { IfOk result (λ outcome. message_of outcome ≡
        message_received completion.now.outcome completion.now.buffer.items) }
{
    match completion.outcome {
        Said::Opened(d) => Ok(Outcome::Opened(d)),
        Said::Done => Ok(Outcome::Done),
        Said::Got(received) => {
            let message = completion.buffer.as_slice()[..received.len].to_vec(alloc)?;
            Ok(Outcome::Got {
                prio: received.prio,
                message,
            })
        }
        Said::Attrs(status) => Ok(Outcome::Attributes(status)),
        Said::Notice(value) => Ok(Outcome::Notice(value)),
        Said::Refused(fault) => Ok(Outcome::Refused(fault)),
    }
}
