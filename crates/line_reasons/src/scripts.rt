//! Why a line of a script is malformed.

use crate::marks::{Mark, is_wide, without_byte_order, without_return};
use script_text::fault::ScriptFault;
use script_text::reasons;
use script_text::script::read_script;
use std::alloc::{AllocError, Global};

// The text of a script without a byte order mark, and without a CR at the end of a line.
fn without_marks(alloc: Global, text: &[u8]) -> Result<Vec<u8>, AllocError> {
    let mut bare = Vec::new(alloc);
    let mut is_first = true;
    for line in without_byte_order(text).split(|b| *b == b'\n') {
        if !is_first {
            bare.extend_from_slice(b"\n")?;
        }
        bare.extend_from_slice(without_return(line))?;
        is_first = false;
    }
    Ok(bare)
}

// Whether this line is malformed in the text of a script, and none before it.
fn is_first_bad(alloc: Global, text: &[u8], number: u64) -> Result<bool, AllocError> {
    match read_script(alloc, text) {
        Ok(_) => Ok(false),
        Err(ScriptFault::BadCall(line)) => Ok(line == number),
        Err(ScriptFault::NoMemory) => Err(AllocError),
    }
}

// The mark that alone makes the line malformed, if there is one.
fn mark_of(alloc: Global, text: &[u8], number: u64) -> Result<Option<Mark>, AllocError> {
    let bare = without_marks(alloc, text)?;
    if bare.len() == text.len() || is_first_bad(alloc, &bare, number)? {
        return Ok(None);
    }
    let has_byte_order = without_byte_order(text).len() < text.len();
    if number == 1 && has_byte_order {
        Ok(Some(Mark::ByteOrder))
    } else {
        Ok(Some(Mark::CarriageReturn))
    }
}

/// Why this line of a script, counted from 1, is malformed, if it is the first one. The text is
/// that of the script, or longer by what follows the line.
pub fn script_reason(alloc: Global, text: &[u8], number: u64) -> Result<String, AllocError> {
    if is_wide(text) {
        return String::from_str(alloc, "the text is UTF-16: save it as UTF-8");
    }
    if let Some(mark) = mark_of(alloc, text, number)? {
        return String::from_str(alloc, mark.text());
    }
    let reason = reasons::reason_of(alloc, text, number)?;
    format!(in alloc; "{reason}")
}
