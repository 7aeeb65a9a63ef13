//! The words of replies.
ghost use Rattle.std.specs.Prelude.{◌≡◌, IfOk, string_bytes};
ghost use Rattle.std.specs.List.{join_with_byte};
ghost use Rattle.journal_format.specs.Reading.{attrs_at, collected_at, fault_written, got_at, handed_at, is_created, kind_written, notice_at, opened_at, queued_at, reply_at, reply_behind, withdrawn_at, words_at};
ghost use Rattle.journal_format.specs.Text.{reply_words};

use crate::call::flag_text;
use crate::words::{
    flag_of, integer_of, number_of, number_or_of, place_of, small_number_of, word_of,
};
use mq_model::entries::{Reply, Status};
use mq_model::faults::Fault;
use std::alloc::{AllocError, Global};

/// The first word of a reply that is not an error.
#[derive(Clone, Copy, PartialEq, Eq)]
pub enum Kind {
    Opened,
    Queued,
    Handed,
    Waits,
    Got,
    Collected,
    Withdrawn,
    Attrs,
    Notice,
    Done,
}

/// The words of a reply.
pub fn reply_text(alloc: Global, reply: &Reply) -> Result<String, AllocError>
    ensures { IfOk result (λ text. string_bytes text ≡ join_with_byte 32 (reply_words reply.now)) }
{
    match *reply {
        Reply::Opened { d, created: true } => format!(in alloc; "fd {d} created"),
        Reply::Opened { d, created: false } => format!(in alloc; "fd {d}"),
        Reply::Queued { notified: None } => String::from_str(alloc, "queued"),
        Reply::Queued {
            notified: Some(notified),
        } => format!(in alloc; "queued notified {notified}"),
        Reply::Handed { wait } => format!(in alloc; "handed {wait}"),
        Reply::Waits => String::from_str(alloc, "waits"),
        Reply::Got {
            place,
            admitted,
            notified,
        } => got_text(alloc, place, admitted, notified),
        Reply::Collected { by } => format!(in alloc; "collected {by}"),
        Reply::Withdrawn { wait } => format!(in alloc; "withdrawn {wait}"),
        Reply::Attrs(status) => {
            let flag = flag_text(status.nonblock);
            let (maxmsg, msgsize, curmsgs) = (status.maxmsg, status.msgsize, status.curmsgs);
            format!(in alloc; "attr {flag} {maxmsg} {msgsize} {curmsgs}")
        }
        Reply::Notice(None) => String::from_str(alloc, "notice none"),
        Reply::Notice(Some(value)) => format!(in alloc; "notice {value}"),
        Reply::Done => String::from_str(alloc, "ok"),
        Reply::Refused(fault) => String::from_str(alloc, fault.name()),
    }
}

// The words of a receive's reply.
fn got_text(
    alloc: Global,
    place: u64,
    admitted: Option<u64>,
    notified: Option<u64>,
) -> Result<String, AllocError>
    ensures { IfOk result (λ text. string_bytes text ≡
        join_with_byte 32 (reply_words (Reply.Got place admitted notified))) }
{
    match (admitted, notified) {
        (None, None) => format!(in alloc; "got {place}"),
        (Some(admitted), None) => format!(in alloc; "got {place} admitted {admitted}"),
        (None, Some(notified)) => format!(in alloc; "got {place} notified {notified}"),
        (Some(admitted), Some(notified)) => {
            format!(in alloc; "got {place} admitted {admitted} notified {notified}")
        }
    }
}

const KINDS: [Kind; 10] = [
    Kind::Opened,
    Kind::Queued,
    Kind::Handed,
    Kind::Waits,
    Kind::Got,
    Kind::Collected,
    Kind::Withdrawn,
    Kind::Attrs,
    Kind::Notice,
    Kind::Done,
];

impl Kind {
    ghost use Rattle.journal_format.specs.Reading.{kind_text};

    // The word of the kind.
    fn text(self) -> &'static [u8]
        ensures { result.now ≡ kind_text self }
    {
        match self {
            Kind::Opened => b"fd",
            Kind::Queued => b"queued",
            Kind::Handed => b"handed",
            Kind::Waits => b"waits",
            Kind::Got => b"got",
            Kind::Collected => b"collected",
            Kind::Withdrawn => b"withdrawn",
            Kind::Attrs => b"attr",
            Kind::Notice => b"notice",
            Kind::Done => b"ok",
        }
    }
}

// The kind of reply that a word is.
#[tactic(auto, unfolding(crate::specs::Reading::kind_written))]
fn kind_of(word: &[u8]) -> Option<Kind>
    ensures { result ≡ kind_written word.now }
{
    KINDS.iter().copied().find(|kind| word == kind.text())
}

const FAULTS: [Fault; 13] = [
    Fault::Again,
    Fault::BadDescriptor,
    Fault::Busy,
    Fault::Exists,
    Fault::Invalid,
    Fault::TooManyOpen,
    Fault::MessageSize,
    Fault::NameTooLong,
    Fault::NoEntry,
    Fault::NoSpace,
    Fault::NoMemory,
    Fault::TimedOut,
    Fault::JournalFull,
];

// The error that a word names.
#[tactic(auto, unfolding(crate::specs::Reading::fault_written))]
fn fault_of(word: &[u8]) -> Option<Fault>
    ensures { result ≡ fault_written word.now }
{
    FAULTS
        .iter()
        .copied()
        .find(|fault| word == fault.name().as_bytes())
}

/// The reply that the next words mean. Further words are ignored.
#[tactic(auto, unfolding(crate::specs::Reading::reply_at))]
pub fn reply_of(words: &[&[u8]]) -> Option<Reply>
    ensures { result ≡ reply_at (words_at words.now) }
{
    let (word, words) = word_of(words)?;
    match kind_of(word) {
        Some(kind) => reply_behind(kind, words),
        None => Some(Reply::Refused(fault_of(word)?)),
    }
}

// The reply that the words after its first one mean.
fn reply_behind(kind: Kind, words: &[&[u8]]) -> Option<Reply>
    ensures { result ≡ reply_behind kind (words_at words.now) }
{
    match kind {
        Kind::Opened => opened_of(words),
        Kind::Queued => queued_of(words),
        Kind::Handed => handed_of(words),
        Kind::Waits => Some(Reply::Waits),
        Kind::Got => got_of(words),
        Kind::Collected => collected_of(words),
        Kind::Withdrawn => withdrawn_of(words),
        Kind::Attrs => attrs_of(words),
        Kind::Notice => notice_of(words),
        Kind::Done => Some(Reply::Done),
    }
}

fn is_created(words: &[&[u8]]) -> bool
    ensures { result ≡ is_created (words_at words.now) }
{
    match words {
        [] => false,
        [word, ..] => *word == b"created".as_slice(),
    }
}

#[tactic(auto, unfolding(crate::specs::Reading::opened_at))]
fn opened_of(words: &[&[u8]]) -> Option<Reply>
    ensures { result ≡ opened_at (words_at words.now) }
{
    let (d, words) = small_number_of(words)?;
    let created = is_created(words);
    Some(Reply::Opened { d, created })
}

#[tactic(auto, unfolding(crate::specs::Reading::queued_at))]
fn queued_of(words: &[&[u8]]) -> Option<Reply>
    ensures { result ≡ queued_at (words_at words.now) }
{
    let (notified, _) = place_of(b"notified", words)?;
    Some(Reply::Queued { notified })
}

#[tactic(auto, unfolding(crate::specs::Reading::handed_at))]
fn handed_of(words: &[&[u8]]) -> Option<Reply>
    ensures { result ≡ handed_at (words_at words.now) }
{
    let (wait, _) = number_of(words)?;
    Some(Reply::Handed { wait })
}

#[tactic(auto, unfolding(crate::specs::Reading::got_at))]
fn got_of(words: &[&[u8]]) -> Option<Reply>
    ensures { result ≡ got_at (words_at words.now) }
{
    let (place, words) = number_of(words)?;
    let (admitted, words) = place_of(b"admitted", words)?;
    let (notified, _) = place_of(b"notified", words)?;
    Some(Reply::Got {
        place,
        admitted,
        notified,
    })
}

#[tactic(auto, unfolding(crate::specs::Reading::collected_at))]
fn collected_of(words: &[&[u8]]) -> Option<Reply>
    ensures { result ≡ collected_at (words_at words.now) }
{
    let (by, _) = number_of(words)?;
    Some(Reply::Collected { by })
}

#[tactic(auto, unfolding(crate::specs::Reading::withdrawn_at))]
fn withdrawn_of(words: &[&[u8]]) -> Option<Reply>
    ensures { result ≡ withdrawn_at (words_at words.now) }
{
    let (wait, _) = number_of(words)?;
    Some(Reply::Withdrawn { wait })
}

#[tactic(auto, unfolding(crate::specs::Reading::attrs_at))]
fn attrs_of(words: &[&[u8]]) -> Option<Reply>
    ensures { result ≡ attrs_at (words_at words.now) }
{
    let (nonblock, words) = flag_of(words)?;
    let (maxmsg, words) = integer_of(words)?;
    let (msgsize, words) = integer_of(words)?;
    let (curmsgs, _) = integer_of(words)?;
    Some(Reply::Attrs(Status {
        nonblock,
        maxmsg,
        msgsize,
        curmsgs,
    }))
}

#[tactic(auto, unfolding(crate::specs::Reading::notice_at))]
fn notice_of(words: &[&[u8]]) -> Option<Reply>
    ensures { result ≡ notice_at (words_at words.now) }
{
    let (value, _) = number_or_of(b"none", words)?;
    Some(Reply::Notice(value))
}
