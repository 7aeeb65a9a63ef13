//! The text about a call that waits for ever.
ghost use Rattle.std.specs.Prelude.{◌≡◌, ◌++◌, ◌-◌, [], IfOk, OnOk, map};
ghost use Rattle.script_orders.specs.Waiting.{line_numbered, spaced, wait_text};

use script_text::line::first_line;
use std::alloc::{AllocError, Global};
use text_io::words::words;

// The line of a script with this number, counted from 1; nothing if there is none.
fn line_numbered(script: &[u8], number: u64) -> &[u8]
    ensures { result.now ≡ line_numbered script.now number }
{
    let mut left = number.saturating_sub(1);
    let mut rest = script;
    while !rest.is_empty() {
        let (line, others) = first_line(rest);
        if left == 0 {
            return line;
        }
        left -= 1;
        rest = others;
    }
    &[]
}

// Appends words, each after a space.
fn push_spaced(text: &mut Vec<u8>, words: &[&[u8]]) -> Result<(), AllocError>
    ensures { OnOk result (text.new.items ≡
        text.old.items ++ spaced (map (λ word. word.now) words.now)) }
{
    for word in words {
        text.push(b' ')?;
        text.extend_from_slice(word)?;
    }
    Ok(())
}

/// The line of a script whose call waits for ever: its number, counted from 1, and its words.
pub fn wait_text(alloc: Global, script: &[u8], number: u64) -> Result<Vec<u8>, AllocError>
    ensures { IfOk result (λ text. text.items ≡ wait_text script.now number) }
{
    let mut text = Vec::new(alloc);
    let head = format!(in alloc; "line {number}: waits for ever:")?;
    text.extend_from_slice(head.as_bytes())?;
    let words = words(alloc, line_numbered(script, number))?;
    push_spaced(&mut text, &words)?;
    text.push(b'\n')?;
    Ok(text)
}
