//! Why a line of a journal, of a history or of a list of steps is malformed.

use crate::grammar::{Misfit, check_called, check_entry, check_step};
use crate::marks::{Mark, is_wide, without_byte_order, without_feed, without_return};
use crate::texts::misfit_text;
use journal_format::lines::MOST_LINE;
use std::alloc::{AllocError, Global};
use text_io::words::words;

/// What a line is of.
#[derive(Clone, Copy, PartialEq, Eq)]
pub enum Format {
    Journal,
    History,
    /// Steps of threads, each with the sequence number of its entry.
    Steps,
}

// What is wrong with the words of the line with this number.
fn check<'s>(format: Format, number: u64, words: &[&'s [u8]]) -> Result<(), Misfit<'s>> {
    match format {
        Format::Journal => check_entry(number.saturating_sub(1), words),
        Format::History => check_called(words),
        Format::Steps => check_step(words),
    }
}

// The first byte that no line has, with its column, counted from 1.
fn strange_byte(line: &[u8]) -> Option<(u8, usize)> {
    for column in 0..line.len() {
        let b = line[column];
        if !(b' '..=b'~').contains(&b) {
            return Some((b, column.saturating_add(1)));
        }
    }
    None
}

// Whether words are separated by one space each, with none at the ends of the line.
fn is_spaced(line: &[u8]) -> bool {
    for word in line.split(|b| *b == b' ') {
        if word.is_empty() {
            return false;
        }
    }
    true
}

const CUT_OFF: &str = "the last line has no line feed: it may be cut off";

// What is wrong with a line that has no such mark, without its line feed, if there is something.
fn reason_in(
    alloc: Global,
    format: Format,
    number: u64,
    line: &[u8],
    is_ended: bool,
) -> Result<Option<String>, AllocError> {
    if let Some((b, column)) = strange_byte(line) {
        let reason = format!(in alloc;
            "the byte {b:02X} in column {column} is not printable ASCII; \
             a payload has it as %{b:02X}"
        )?;
        return Ok(Some(reason));
    }
    if line.len() > MOST_LINE {
        return Ok(Some(format!(in alloc; "a line has at most {MOST_LINE} bytes")?));
    }
    let words = words(alloc, line)?;
    if words.is_empty() && is_ended {
        return Ok(Some(String::from_str(alloc, "the line has no words")?));
    }
    match check(format, number, words.as_slice()) {
        Err(misfit) if is_ended || !is_last(line, misfit.word) => {
            Ok(Some(misfit_text(alloc, misfit)?))
        }
        _ if !is_ended && format != Format::Steps => { Ok(Some(String::from_str(alloc, CUT_OFF)?)) }
        _ if !is_spaced(line) => {
            let reason = "words are separated by one space, with none at the ends of the line";
            Ok(Some(String::from_str(alloc, reason)?))
        }
        _ => Ok(None),
    }
}

// Whether a line ends with this word, or before a word that is missing.
fn is_last(line: &[u8], word: Option<&[u8]>) -> bool {
    match word {
        Some(word) => line.ends_with(word),
        None => true,
    }
}

/// Why the line with this number, counted from 1, is malformed, if it is the first one. It ends
/// with its line feed, unless it is the last. None if nothing is wrong with it.
pub fn reason_of(
    alloc: Global,
    format: Format,
    number: u64,
    line: &[u8],
) -> Result<Option<String>, AllocError> {
    if number == 1 && is_wide(line) {
        return Ok(Some(String::from_str(alloc, "the text is UTF-16: save it as ASCII")?));
    }
    let text = without_feed(line);
    let unmarked = if number == 1 {
        without_byte_order(text)
    } else {
        text
    };
    let bare = without_return(unmarked);
    let has_end = text.len() < line.len() || bare.len() < unmarked.len();
    let is_ended = has_end || format == Format::Steps;
    let reason = reason_in(alloc, format, number, bare, is_ended)?;
    if reason.is_some() {
        return Ok(reason);
    }
    let mark = if unmarked.len() < text.len() {
        Mark::ByteOrder
    } else if bare.len() < unmarked.len() {
        Mark::CarriageReturn
    } else {
        return Ok(None);
    };
    Ok(Some(String::from_str(alloc, mark.text())?))
}
