//! The operations of a history as the heuristic sees them: what each needs of its queue, and its
//! effect on it.
use crate::places::Names;
use histories::operation::{Operation, Outcome};
use mq_model::entries::Call;
use mq_model::error_order::attributes_given;
use mq_model::faults::Fault;
use schedules::likely::{Effect, Task, Tasks};
use std::alloc::{AllocError, Global};

// A message that was sent or received, with its queue.
type Message<'h> = (usize, u32, &'h [u8]);

/// The tasks for the operations of a history.
pub fn tasks_of(alloc: Global, histories: &Vec<Vec<Operation>>) -> Result<Tasks, AllocError> {
    let names = Names::of(alloc, histories)?;
    let mut queues: Vec<Vec<usize>> = Vec::new(alloc);
    for operations in histories {
        queues.push(names.queues_of(alloc, operations)?)?;
    }
    let mut messages: Vec<Message> = Vec::new(alloc);
    for (operations, queues) in histories.iter().zip(queues.iter()) {
        for (operation, queue) in operations.iter().zip(queues.iter()) {
            messages.push(message_of(operation, *queue))?;
        }
    }
    messages.sort()?;
    messages.dedup();
    let mut tasks: Vec<Vec<Task>> = Vec::new(alloc);
    for (operations, queues) in histories.iter().zip(queues.iter()) {
        tasks.push(tasks_in(alloc, operations, queues, &messages)?)?;
    }
    Ok(Tasks {
        tasks,
        queues: names.count(),
        kinds: messages.len(),
    })
}

fn tasks_in(
    alloc: Global,
    operations: &Vec<Operation>,
    queues: &Vec<usize>,
    messages: &[Message],
) -> Result<Vec<Task>, AllocError> {
    let mut tasks = Vec::new(alloc);
    for (operation, queue) in operations.iter().zip(queues.iter()) {
        let message = message_of(operation, *queue);
        let kind = match (&*messages).binary_search(&message) {
            Ok(kind) => kind,
            Err(kind) => kind,
        };
        tasks.push(Task {
            begin: operation.begin,
            end: operation.end,
            queue: *queue,
            kind,
            prio: message.1,
            effect: effect_of(operation),
        })?;
    }
    Ok(tasks)
}

// The message that an operation received, or else what it was given.
fn message_of(operation: &Operation, queue: usize) -> Message {
    match &operation.outcome {
        Outcome::Got { prio, message } => (queue, *prio, message.as_slice()),
        _ => (queue, operation.call.priority(), operation.given.as_slice()),
    }
}

fn effect_of(operation: &Operation) -> Effect {
    match &operation.outcome {
        Outcome::Pending => effect_under_way(operation.call),
        Outcome::Done => effect_done(operation.call),
        Outcome::Opened(_) => effect_of_open(operation.call),
        Outcome::Got { .. } => Effect::Receives,
        Outcome::Attributes(status) => Effect::Counts(status.curmsgs),
        Outcome::Notice(_) => Effect::Nothing,
        Outcome::Refused(fault) => effect_refused(operation.call, *fault),
    }
}

fn effect_of_open(call: Call) -> Effect {
    match call {
        Call::MqOpen { flags, attr: _ } => {
            Effect::Opens {
                creates: flags.create,
                room: attributes_given(call).maxmsg,
            }
        }
        _ => Effect::Nothing,
    }
}

fn effect_done(call: Call) -> Effect {
    if call.is_send() {
        return Effect::Sends;
    }
    match call {
        Call::MqUnlink => Effect::Unlinks,
        _ => Effect::Nothing,
    }
}

fn effect_under_way(call: Call) -> Effect {
    if call.is_send() {
        return Effect::Sends;
    }
    if call.is_receive() {
        return Effect::ReceivesAny;
    }
    match call {
        Call::MqOpen { .. } => effect_of_open(call),
        _ => Effect::LeftOut,
    }
}

fn effect_refused(call: Call, fault: Fault) -> Effect {
    match fault {
        Fault::Again | Fault::TimedOut => {
            if call.is_send() {
                Effect::FindsFull
            } else if call.is_receive() {
                Effect::FindsEmpty
            } else {
                Effect::Nothing
            }
        }
        Fault::NoEntry => Effect::FindsUnbound,
        Fault::Exists => Effect::FindsBound,
        _ => Effect::Nothing,
    }
}
