//! The lines of a process's replies.
ghost use Rattle.std.specs.Prelude.{◌≡◌, ◌++◌, OnOk};
ghost use Rattle.script_text.specs.ReplyLines.{reply_lines};

use crate::reply::{Completion, push_reply};
use std::alloc::{AllocError, Global};

/// Appends the lines of the replies to a process.
pub fn push_completions(
    alloc: Global,
    text: &mut Vec<u8>,
    process: u32,
    completions: &[Completion],
) -> Result<(), AllocError>
    ensures { OnOk result (text.new.items ≡ text.old.items ++ reply_lines process completions.now) }
{
    for completion in completions {
        push_reply(
            alloc,
            text,
            process,
            &completion.outcome,
            completion.buffer.as_slice(),
        )?;
    }
    Ok(())
}
