//! The text beside the mark of an entry.
ghost use Rattle.std.specs.Prelude.{◌≡◌, ◌++◌, OnOk};
ghost use Rattle.std.specs.List.{flat_map};
ghost use Rattle.journal_views.specs.Label.{label, named};

use std::alloc::AllocError;

/// The maximum number of bytes shown of a line, without its line feed.
const MOST_BYTES: usize = 100;

/// What replaces the bytes that are left out.
const CUT: &[u8] = b".. -> ";

/// Appends the text of a line, escaped as a picture needs. A line that is cut keeps its reply.
#[tactic(auto, using(crate::proofs::PictureSteps::named_steps))]
pub fn push_label(text: &mut Vec<u8>, line: &[u8], reply: &[u8]) -> Result<(), AllocError>
    ensures { OnOk result (text.new.items ≡ text.old.items ++ label line.now reply.now) }
{
    if line.len() <= MOST_BYTES + 1 {
        return push_named(text, line);
    }
    let front = (MOST_BYTES - CUT.len()).saturating_sub(reply.len());
    push_named(text, &line[..front])?;
    push_named(text, CUT)?;
    push_named(text, reply)
}

/// Appends bytes, escaped as a picture needs.
pub fn push_named(text: &mut Vec<u8>, bytes: &[u8]) -> Result<(), AllocError>
    ensures { OnOk result (text.new.items ≡ text.old.items ++ flat_map named bytes.now) }
{
    for b in bytes {
        push_byte(text, *b)?;
    }
    Ok(())
}

fn push_byte(text: &mut Vec<u8>, b: u8) -> Result<(), AllocError>
    ensures { OnOk result (text.new.items ≡ text.old.items ++ named b) }
{
    match b {
        b'&' => text.extend_from_slice(b"&amp;"),
        b'<' => text.extend_from_slice(b"&lt;"),
        b'>' => text.extend_from_slice(b"&gt;"),
        b'\n' => Ok(()),
        _ => text.extend_from_slice(&[b]),
    }
}
