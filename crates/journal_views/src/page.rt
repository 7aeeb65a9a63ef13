//! The text of a page.
ghost use Rattle.std.specs.Prelude.{◌≡◌, ◌≤◌, ◌+◌, ◌++◌, IfOk, OnOk, length};
ghost use Rattle.std.specs.List.{flat_map};
ghost use Rattle.mq_model.specs.Record.{first};
ghost use Rattle.journal_views.specs.Page.{last_line, lines_text, page_text, shielded};

use journal_format::line::line_of;
use mq_model::journals::Journal;
use std::alloc::{AllocError, Global};

/// A page: the head of a template, the line of the state before, the lines of `count` entries from
/// sequence number `from` on, and the tail of the template. Each `<` in a line is escaped, so that
/// no line ends the element that it is in.
pub(crate) fn page_of(
    alloc: Global,
    before: &[u8],
    journal: &Journal,
    from: u64,
    count: u64,
    head: &[u8],
    tail: &[u8],
) -> Result<Vec<u8>, AllocError>
    requires shown { from + count ≤ length journal.now.records }
    ensures { IfOk result (λ text. text.items ≡
        page_text head.now tail.now before.now journal.now.records from count) }
{
    let mut text = Vec::new(alloc);
    text.extend_from_slice(head)?;
    push_shielded(&mut text, before)?;
    push_lines(alloc, &mut text, journal, from, count)?;
    text.extend_from_slice(tail)?;
    Ok(text)
}

/// A page of a text: the head of a template, the text with each `<` escaped, and the tail of the
/// template.
pub fn page_of_text(
    alloc: Global,
    text: &[u8],
    head: &[u8],
    tail: &[u8],
) -> Result<Vec<u8>, AllocError>
    ensures { IfOk result (λ page. page.items ≡
        head.now ++ (flat_map shielded text.now ++ tail.now)) }
{
    let mut page = Vec::new(alloc);
    page.extend_from_slice(head)?;
    push_shielded(&mut page, text)?;
    page.extend_from_slice(tail)?;
    Ok(page)
}

// Appends the lines of `count` entries.
#[tactic(auto, using(crate::proofs::PageSteps::lines_steps))]
fn push_lines(
    alloc: Global,
    text: &mut Vec<u8>,
    journal: &Journal,
    from: u64,
    count: u64,
) -> Result<(), AllocError>
    requires shown { from + count ≤ length journal.now.records }
    ensures { OnOk result (text.new.items ≡ text.old.items ++
        flat_map shielded (lines_text journal.now.records from count)) }
{
    let _len = journal.len();
    for k in 0..count {
        push_line(alloc, text, journal, from + k)?;
    }
    Ok(())
}

// Appends the line of entry `place`.
#[tactic(auto, unfolding(crate::specs::Page::last_line), using(mq_model::proofs::Prefixes::prefixes))]
fn push_line(
    alloc: Global,
    text: &mut Vec<u8>,
    journal: &Journal,
    place: u64,
) -> Result<(), AllocError>
    requires { place + 1 ≤ length journal.now.records }
    ensures { OnOk result (text.new.items ≡ text.old.items ++
        flat_map shielded (last_line (first (place + 1) journal.now.records))) }
{
    let (entry, payload) = journal.record(place);
    let line = line_of(alloc, place, entry, payload)?;
    push_shielded(text, line.as_bytes())
}

// Appends bytes, escaped as a page needs.
#[tactic(auto, using(crate::proofs::PageSteps::shielded_steps))]
fn push_shielded(text: &mut Vec<u8>, bytes: &[u8]) -> Result<(), AllocError>
    ensures { OnOk result (text.new.items ≡ text.old.items ++ flat_map shielded bytes.now) }
{
    for b in bytes {
        push_byte(text, *b)?;
    }
    Ok(())
}

fn push_byte(text: &mut Vec<u8>, b: u8) -> Result<(), AllocError>
    ensures { OnOk result (text.new.items ≡ text.old.items ++ shielded b) }
{
    match b {
        b'&' => text.extend_from_slice(b"&amp;"),
        b'<' => text.extend_from_slice(b"&lt;"),
        _ => text.extend_from_slice(&[b]),
    }
}
