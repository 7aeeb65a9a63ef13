//! The text about a word that is wrong or missing.

use crate::grammar::{Form, Misfit, Wanted, form_of};
use std::alloc::{AllocError, Global};

/// The maximum number of bytes that are shown of a word.
const MOST_SHOWN: usize = 40;

/// The first bytes of a word, each that is not printable ASCII as `?`.
pub fn shown(alloc: Global, word: &[u8]) -> Result<String, AllocError> {
    let mut text = String::new(alloc);
    for i in 0..word.len().min(MOST_SHOWN) {
        let b = word[i];
        let is_printable = (b' '..=b'~').contains(&b);
        text.push(if is_printable { char::from(b) } else { '?' })?;
    }
    if word.len() > MOST_SHOWN {
        text.push_str("..")?;
    }
    Ok(text)
}

// What a word in capitals is, in front of the words that it belongs to.
fn form_text(form: Form) -> &'static str {
    match form {
        Form::Process => ", a number from 1 to 32",
        Form::Small => ", a number of 32 bits without leading zeros",
        Form::Number => ", a number of 64 bits without leading zeros",
        Form::NumberOrDash => ", a number of 64 bits without leading zeros, or -",
        Form::NumberOrNone => ", a number of 64 bits without leading zeros, or none",
        Form::Integer => ", a signed number of 64 bits without leading zeros",
        Form::Flag => ", 0 or 1",
        Form::Flags => ", one of r, w, b and then any of c, x, n in this order",
        Form::Label => "",
    }
}

// What belongs at the place.
fn wanted_text(alloc: Global, wanted: Wanted) -> Result<String, AllocError> {
    let text = match wanted {
        Wanted::Place(place) => return format!(in alloc; "the sequence number {place}"),
        Wanted::Named(name, _) => return shown(alloc, name),
        Wanted::Caller => "a caller",
        Wanted::Call => "a call",
        Wanted::Payload => "a name or a message",
        Wanted::Arrow => "->",
        Wanted::Reply => "a reply",
        Wanted::Result => "a result",
        Wanted::End | Wanted::NoResult => "the end of the line",
    };
    String::from_str(alloc, text)
}

// What else is to be said of it, if another word is there.
fn note_text(alloc: Global, wanted: Wanted) -> Result<String, AllocError> {
    let text = match wanted {
        Wanted::Named(_, usage) => return format!(in alloc; ": {usage}"),
        Wanted::Caller => ": P or P.T, with a process P from 1 to 32 and a thread T from 2",
        Wanted::Call => {
            ": open, close, unlink, send, recv, tsend, trecv, getattr, setattr, notify, notice, \
             collect or withdraw"
        }
        Wanted::Payload => {
            ": it is in quotes, with %XX for a space, for % and for what is not printable ASCII, \
             and is left out if it is empty"
        }
        Wanted::Reply => {
            ": fd, queued, handed, waits, got, collected, withdrawn, attr, notice, ok or an error"
        }
        Wanted::Result => ": fd, got, attr, notice, ok or an error",
        Wanted::NoResult => ": a call whose END is - has no result",
        Wanted::Place(_) | Wanted::Arrow | Wanted::End => "",
    };
    String::from_str(alloc, text)
}

// What else is to be said of it, if it is missing.
fn missing_note(alloc: Global, wanted: Wanted) -> Result<String, AllocError> {
    match wanted {
        Wanted::Result => String::from_str(alloc, ": only a call whose END is - has none"),
        _ => note_text(alloc, wanted),
    }
}

/// What is wrong with a line.
pub fn misfit_text(alloc: Global, misfit: Misfit<'_>) -> Result<String, AllocError> {
    let wanted = wanted_text(alloc, misfit.wanted)?;
    let Some(word) = misfit.word else {
        let note = missing_note(alloc, misfit.wanted)?;
        return format!(in alloc; "{wanted} is missing{note}");
    };
    let note = note_text(alloc, misfit.wanted)?;
    let word = shown(alloc, word)?;
    let form = match misfit.wanted {
        Wanted::Named(name, _) => form_text(form_of(name)),
        _ => "",
    };
    format!(in alloc; "'{word}' where {wanted} belongs{form}{note}")
}
