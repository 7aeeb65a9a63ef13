//! Scripts that a task reads, and what is said of those that are malformed.

use crate::say;
use line_reasons::scripts::script_reason;
use script_runner::RunFault;
use script_text::script::MOST_BYTES;
use std::alloc::AllocGlobal;
use std::io::Eprint;
use std::process::ExitCode;
use text_io::input::read_all;
use text_io::sources::ByteSource;

/// The bytes of a script, up to one more than it may have. If they can't be read, it says so, and
/// returns the status with which the program ends.
pub fn script_of<R: ByteSource>(
    rt: &(impl Eprint + AllocGlobal),
    file: Option<&str>,
    input: &mut R,
) -> Result<Vec<u8>, ExitCode> {
    read_all(rt.alloc(), input, MOST_BYTES).map_err(|fault| stopped(
        rt,
        file,
        &[],
        RunFault::from(fault),
    ))
}

/// Says why the script with this text was not run to its end, and of a malformed line also what is
/// wrong with it.
pub fn stopped(
    rt: &(impl Eprint + AllocGlobal),
    file: Option<&str>,
    text: &[u8],
    fault: RunFault,
) -> ExitCode {
    let about = match fault {
        RunFault::Output => None,
        _ => file,
    };
    match reason_text(rt, text, &fault) {
        Some(reason) => say(rt, about, &reason),
        None => say(rt, about, &fault),
    }
    ExitCode::from(fault.status())
}

// The fault with the reason, if a line is malformed and there is memory for it.
fn reason_text(rt: &impl AllocGlobal, text: &[u8], fault: &RunFault) -> Option<String> {
    let RunFault::BadCall(line) = fault else {
        return None;
    };
    let reason = script_reason(rt.alloc(), text, *line).ok()?;
    format!(in rt.alloc(); "{fault}: {reason}").ok()
}
