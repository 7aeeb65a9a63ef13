//! Names and messages in quotes.
ghost use Rattle.std.specs.Prelude.{◌≡◌, IfOk, string_bytes};
ghost use Rattle.journal_format.specs.Text.{payload_text};

use percent_encoding::{AsciiSet, CONTROLS, ascii_set, percent_encode};
use std::alloc::{AllocError, Global};

/// The ASCII bytes that are escaped: control characters, the space and `%`.
pub const ESCAPED: AsciiSet = ascii_set!(CONTROLS.add(b' ').add(b'%'));

/// A space and a name or a message in quotes, or nothing if it has no bytes.
pub fn payload_text(alloc: Global, payload: &[u8]) -> Result<String, AllocError>
    ensures { IfOk result (λ text. string_bytes text ≡ payload_text payload.now) }
{
    let mut text = String::new(alloc);
    if !payload.is_empty() {
        text.push_str(" \"")?;
        percent_encode(payload, ESCAPED).append_to(&mut text)?;
        text.push('"')?;
    }
    Ok(text)
}
