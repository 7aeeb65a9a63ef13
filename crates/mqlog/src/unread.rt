//! What is said of a journal, a history or a list of steps with a malformed line.

use crate::{failed, say};
use journal_tasks::LogFault;
use line_reasons::formats::{Format, reason_of};
use line_reasons::kept::Kept;
use line_reasons::steps::first_bad_step;
use std::alloc::{AllocError, AllocGlobal};
use std::io::{Eprint, Read};
use std::process::ExitCode;

/// Says why a task on an input failed, and of a malformed line also what is wrong with it.
pub fn unread<R: Read>(
    rt: &(impl Eprint + AllocGlobal),
    file: Option<&str>,
    input: &Kept<R>,
    format: Format,
    fault: LogFault,
) -> ExitCode {
    match reason_text(rt, input, format, fault) {
        Some(text) => {
            say(rt, file, &text);
            ExitCode::from(fault.status())
        }
        None => failed(rt, file, fault),
    }
}

// The fault with the reason, if a line is malformed, it is kept, and there is memory for it.
fn reason_text<R: Read>(
    rt: &impl AllocGlobal,
    input: &Kept<R>,
    format: Format,
    fault: LogFault,
) -> Option<String> {
    let LogFault::BadLine(number) = fault else {
        return None;
    };
    let line = input.line(number)?;
    let reason = reason_of(rt.alloc(), format, number, line).ok()??;
    format!(in rt.alloc(); "{fault}: {reason}").ok()
}

/// What is wrong with a list of the steps of threads, if there is something.
pub fn wrong_steps(rt: &impl AllocGlobal, text: &[u8]) -> Result<Option<String>, AllocError> {
    match first_bad_step(rt.alloc(), text)? {
        Some((number, reason)) => {
            Ok(Some(format!(in rt.alloc(); "line {number}: no step: {reason}")?))
        }
        None => Ok(None),
    }
}
