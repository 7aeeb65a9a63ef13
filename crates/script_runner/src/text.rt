//! The text of the replies of a phase.
ghost use Rattle.std.specs.Prelude.{◌≡◌, IfOk};
ghost use Rattle.script_runner.specs.Phase.{text_in};

use crate::turns::Worked;
use fast_mutex::Look;
use mq::{Guarded, Process};
use script_text::text::push_completions;
use std::alloc::{AllocError, Global};

/// The lines of the replies of a phase, those of the first process first.
pub fn text_of<L: Look<Guarded>>(
    alloc: Global,
    workers: &[Worked<Process<L>>],
) -> Result<Vec<u8>, AllocError>
    ensures { IfOk result (λ text. text.items ≡ text_in workers.now) }
{
    let mut text = Vec::new(alloc);
    for worked in workers {
        push_completions(
            alloc,
            &mut text,
            worked.process.number(),
            worked.completions.as_slice(),
        )?;
    }
    Ok(text)
}
