//! What a program is asked to do.

use crate::fault::Fault;
use crate::operation::Choice;
use std::alloc::{AllocError, Global};
use std::io::Write;
use text_io::output::write_all;

/// A thread that must not go on before a step accesses the object.
#[derive(Clone, Copy)]
pub struct Sleeper {
    pub thread: u32,
    pub object: u32,
}

/// A run with these choices first, and then by the rule of the program.
#[derive(Drop)]
pub struct Request {
    pub choices: Vec<Choice>,
    /// The threads that go on after the choices, in this order, as long as they can.
    pub lead: Vec<u32>,
    pub sleepers: Vec<Sleeper>,
}

impl Request {
    ghost use Rattle.std.specs.Prelude.{◌≡◌, []};

    /// The run that only follows the rule.
    pub fn first(alloc: Global) -> Request
        ensures { result.choices.items ≡ [] }
    {
        Request {
            choices: Vec::new(alloc),
            lead: Vec::new(alloc),
            sleepers: Vec::new(alloc),
        }
    }
}

fn push_choice(text: &mut String, choice: Choice) -> Result<(), AllocError> {
    if choice.variant == 0 {
        write!(text, " {}", choice.thread)
    } else {
        write!(text, " {}.{}", choice.thread, choice.variant)
    }
}

/// The line that asks for a run.
pub fn request_text(alloc: Global, request: &Request) -> Result<String, AllocError> {
    let mut text = String::from_str(alloc, "run")?;
    for choice in &request.choices {
        push_choice(&mut text, *choice)?;
    }
    if !request.lead.is_empty() {
        text.push_str(" lead")?;
        for thread in &request.lead {
            write!(text, " {thread}")?;
        }
    }
    if !request.sleepers.is_empty() {
        text.push_str(" sleep")?;
        for it in &request.sleepers {
            write!(text, " {}:{}", it.thread, it.object)?;
        }
    }
    text.push_str("\n")?;
    Ok(text)
}

/// Writes a line.
pub fn write_line<W: Write>(output: &mut W, text: &str) -> Result<(), Fault> {
    match write_all(output, text.as_bytes()) {
        Ok(()) => Ok(()),
        Err(_) => Err(Fault::Output),
    }
}
