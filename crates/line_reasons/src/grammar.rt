//! The parts of a line, and the first word that is not as the grammar has it.

use crate::words::{
    are_flags, is_caller, is_integer, is_number, is_payload, is_process, is_small_number,
};
use journal_format::reply::reply_of;
use mq_model::entries::Reply;

/// The words of calls. Those in brackets may be left out. Words in capitals are named; others stand
/// for themselves.
static CALLS: [&str; 13] = [
    "open FLAGS [limits MAXMSG MSGSIZE]",
    "close D",
    "unlink",
    "send D PRIO LEN",
    "recv D LEN",
    "tsend D PRIO LEN until SEC NSEC at SEC NSEC",
    "trecv D LEN until SEC NSEC at SEC NSEC",
    "getattr D",
    "setattr D F",
    "notify D VALUE|-",
    "notice",
    "collect",
    "withdraw at SEC NSEC",
];

/// The words of replies other than errors.
static REPLIES: [&str; 10] = [
    "fd D [created]",
    "queued [notified PLACE]",
    "handed PLACE",
    "waits",
    "got PLACE [admitted PLACE] [notified PLACE]",
    "collected PLACE",
    "withdrawn PLACE",
    "attr F MAXMSG MSGSIZE CURMSGS",
    "notice VALUE|none",
    "ok",
];

/// The words of results of a history other than errors, without the payload of a `got`.
static RESULTS: [&str; 5] = [
    "ok",
    "fd D",
    "got PRIO",
    "attr F MAXMSG MSGSIZE CURMSGS",
    "notice VALUE|none",
];

/// The words at the begin of a line of a history.
const HEAD: &str = "PROCESS BEGIN END";

/// The words of a step of a thread.
const STEP: &str = "PLACE THREAD STEP";

/// What belongs where a word is wrong or missing.
#[derive(Clone, Copy, PartialEq, Eq)]
pub enum Wanted {
    /// This sequence number.
    Place(u64),
    /// A caller of a journal.
    Caller,
    /// The first word of a call.
    Call,
    /// A name or a message.
    Payload,
    /// The arrow before a reply.
    Arrow,
    /// The first word of a reply.
    Reply,
    /// The first word of a result.
    Result,
    /// The word with this name in these words.
    Named(&'static [u8], &'static str),
    /// Nothing.
    End,
    /// Nothing, since the call had not returned.
    NoResult,
}

/// What a word in capitals is.
#[derive(Clone, Copy, PartialEq, Eq)]
pub enum Form {
    Process,
    Small,
    Number,
    NumberOrDash,
    NumberOrNone,
    Integer,
    Flag,
    Flags,
    /// The word itself.
    Label,
}

/// What the word with this name is.
pub fn form_of(name: &[u8]) -> Form {
    match name {
        b"D" | b"PRIO" => Form::Small,
        b"LEN" | b"PLACE" | b"BEGIN" | b"THREAD" | b"STEP" => Form::Number,
        b"F" => Form::Flag,
        b"FLAGS" => Form::Flags,
        b"PROCESS" => Form::Process,
        b"END" | b"VALUE|-" => Form::NumberOrDash,
        b"VALUE|none" => Form::NumberOrNone,
        b"MAXMSG" | b"MSGSIZE" | b"CURMSGS" | b"SEC" | b"NSEC" => Form::Integer,
        _ => Form::Label,
    }
}

// Whether a word is what the name of a word means.
fn is_named(name: &[u8], word: &[u8]) -> bool {
    match form_of(name) {
        Form::Process => is_process(word),
        Form::Small => is_small_number(word),
        Form::Number => is_number(word),
        Form::NumberOrDash => matches!(word, b"-") || is_number(word),
        Form::NumberOrNone => matches!(word, b"none") || is_number(word),
        Form::Integer => is_integer(word),
        Form::Flag => matches!(word, b"0" | b"1"),
        Form::Flags => are_flags(word),
        Form::Label => word == name,
    }
}

// Whether a word is an error.
fn is_error(word: &[u8]) -> bool {
    matches!(reply_of(&[word]), Some(Reply::Refused(_)))
}

// Whether a word is what belongs at its place. The first words of calls, replies and results are
// looked up instead.
fn is_wanted(wanted: Wanted, word: &[u8]) -> bool {
    match wanted {
        Wanted::Place(place) => is_number(word) && text_io::words::number(word) == Some(place),
        Wanted::Caller => is_caller(word),
        Wanted::Payload => is_payload(word),
        Wanted::Arrow => matches!(word, b"->"),
        Wanted::Named(name, _) => is_named(name, word),
        Wanted::Call | Wanted::Reply | Wanted::Result | Wanted::End | Wanted::NoResult => false,
    }
}

/// The first word that is wrong, or none if one is missing, and what belongs there.
#[derive(Clone, Copy)]
pub struct Misfit<'s> {
    pub word: Option<&'s [u8]>,
    pub wanted: Wanted,
}

/// The words that are left, if those before them are as they should be.
type Rest<'w, 's> = Result<&'w [&'s [u8]], Misfit<'s>>;

// There is a wrong word where this one belongs, or none.
fn misfit_at<'s>(words: &[&'s [u8]], wanted: Wanted) -> Misfit<'s> {
    Misfit {
        word: words.first().copied(),
        wanted,
    }
}

// The words after one.
fn after<'w, 's>(words: &'w [&'s [u8]], wanted: Wanted) -> Rest<'w, 's> {
    match words {
        [word, rest @ ..] if is_wanted(wanted, word) => Ok(rest),
        _ => Err(misfit_at(words, wanted)),
    }
}

// The name without its brackets.
fn bare(name: &'static [u8]) -> &'static [u8] {
    let name = match name {
        [b'[', rest @ ..] => rest,
        _ => name,
    };
    match name {
        [rest @ .., b']'] => rest,
        _ => name,
    }
}

// The word with this index.
fn word_at<'s>(words: &[&'s [u8]], index: usize) -> Option<&'s [u8]> {
    if index < words.len() {
        Some(words[index])
    } else {
        None
    }
}

// Whether the word with this name is left out: the first of a part in brackets if another word is
// there, and the others of the part if the one before them is.
fn is_left_out(before: bool, name: &[u8], label: &[u8], word: Option<&[u8]>) -> bool {
    if name.first() == Some(&b'[') {
        word != Some(label)
    } else {
        before
    }
}

// Whether there is a word, and it is what this name means.
fn is_there(name: &[u8], word: Option<&[u8]>) -> bool {
    match word {
        Some(word) => is_named(name, word),
        None => false,
    }
}

// The words after those with these names.
fn after_all<'w, 's>(usage: &'static str, words: &'w [&'s [u8]]) -> Rest<'w, 's> {
    let mut taken: usize = 0;
    let mut leaves_out = false;
    for name in usage.as_bytes().split(|b| *b == b' ') {
        let label = bare(name);
        let word = word_at(words, taken);
        leaves_out = is_left_out(leaves_out, name, label, word);
        if !leaves_out && !is_there(label, word) {
            let wanted = Wanted::Named(label, usage);
            return Err(Misfit { word, wanted });
        }
        taken = taken.saturating_add(usize::from(!leaves_out));
        leaves_out = leaves_out && name.last() != Some(&b']');
    }
    Ok(&words[taken.min(words.len())..])
}

// Whether these words begin with this one.
fn begins(usage: &str, word: &[u8]) -> bool {
    match usage.as_bytes().strip_prefix(word) {
        Some([]) | Some([b' ', ..]) => true,
        _ => false,
    }
}

// The words in a list that begin with this one.
fn usage_of(usages: &[&'static str], word: &[u8]) -> Option<&'static str> {
    usages.iter().copied().find(|usage| begins(usage, word))
}

// The words after a call.
fn after_call<'w, 's>(words: &'w [&'s [u8]]) -> Rest<'w, 's> {
    let Some(word) = words.first() else {
        return Err(misfit_at(words, Wanted::Call));
    };
    match usage_of(&CALLS, word) {
        Some(usage) => after_all(usage, words),
        None => Err(misfit_at(words, Wanted::Call)),
    }
}

// The words after a name or a message, if there is one.
fn after_payload<'w, 's>(words: &'w [&'s [u8]]) -> Rest<'w, 's> {
    match words {
        [[b'"', ..], ..] => after(words, Wanted::Payload),
        _ => Ok(words),
    }
}

// The words after a reply or a result: one of these, or an error.
fn after_one_of<'w, 's>(
    usages: &[&'static str],
    words: &'w [&'s [u8]],
    wanted: Wanted,
) -> Rest<'w, 's> {
    match words {
        [] => Err(misfit_at(words, wanted)),
        [word, rest @ ..] => match usage_of(usages, word) {
            Some(usage) => after_all(usage, words),
            None if is_error(word) => Ok(rest),
            None => Err(misfit_at(words, wanted)),
        },
    }
}

// That no word is left.
fn at_end<'s>(words: &[&'s [u8]], wanted: Wanted) -> Result<(), Misfit<'s>> {
    if words.is_empty() {
        Ok(())
    } else {
        Err(misfit_at(words, wanted))
    }
}

/// What is wrong with the words of the entry with this sequence number.
pub fn check_entry<'s>(place: u64, words: &[&'s [u8]]) -> Result<(), Misfit<'s>> {
    let words = after(words, Wanted::Place(place))?;
    let words = after(words, Wanted::Caller)?;
    let words = after_call(words)?;
    let words = after_payload(words)?;
    let words = after(words, Wanted::Arrow)?;
    let words = after_one_of(&REPLIES, words, Wanted::Reply)?;
    at_end(words, Wanted::End)
}

/// What is wrong with the words of a call of a history.
pub fn check_called<'s>(words: &[&'s [u8]]) -> Result<(), Misfit<'s>> {
    let is_pending = match words {
        [_, _, b"-", ..] => true,
        _ => false,
    };
    let words = after_all(HEAD, words)?;
    let words = after_call(words)?;
    let words = after_payload(words)?;
    let words = after(words, Wanted::Arrow)?;
    if is_pending {
        return at_end(words, Wanted::NoResult);
    }
    let is_received = match words {
        [b"got", ..] => true,
        _ => false,
    };
    let words = after_one_of(&RESULTS, words, Wanted::Result)?;
    if is_received {
        at_end(after_payload(words)?, Wanted::End)
    } else {
        at_end(words, Wanted::End)
    }
}

/// What is wrong with the words of a step of a thread.
pub fn check_step<'s>(words: &[&'s [u8]]) -> Result<(), Misfit<'s>> {
    at_end(after_all(STEP, words)?, Wanted::End)
}
