//! The words for what a call returned.
ghost use Rattle.std.specs.Prelude.{◌≡◌, IfOk, drop, string_bytes};
ghost use Rattle.std.specs.Option.{option_map};
ghost use Rattle.journal_format.specs.Reading.{words_at};
ghost use Rattle.history_judge.specs.Reading.{message_at, outcome_at, shown};
ghost use Rattle.history_judge.specs.Text.{message_of, result_words, spaced, written_reply};

use histories::operation::Outcome;
use journal_format::payload::payload_text;
use journal_format::reply::{reply_of, reply_text};
use journal_format::words::quoted_of;
use mq_model::entries::Reply;
use percent_encoding::percent_decode;
use std::alloc::{AllocError, Global};

// The reply of a journal with the same words as what was returned.
fn written_reply(outcome: &Outcome) -> Option<Reply>
    ensures { result ≡ written_reply outcome.now }
{
    match outcome {
        Outcome::Pending => None,
        Outcome::Done => Some(Reply::Done),
        Outcome::Opened(d) => Some(Reply::Opened {
            d: *d,
            created: false,
        }),
        Outcome::Got { prio, message: _ } => Some(Reply::Got {
            place: u64::from(*prio),
            admitted: None,
            notified: None,
        }),
        Outcome::Attributes(status) => Some(Reply::Attrs(*status)),
        Outcome::Notice(value) => Some(Reply::Notice(*value)),
        Outcome::Refused(fault) => Some(Reply::Refused(*fault)),
    }
}

// The message that a receive returned.
fn message_of(outcome: &Outcome) -> &[u8]
    ensures { result.now ≡ message_of outcome.now }
{
    match outcome {
        Outcome::Got { prio: _, message } => message,
        _ => &[],
    }
}

/// The words for what was returned, each after a space, and nothing for a call that had not
/// returned.
#[tactic(auto, using(crate::proofs::Joining::result_parts))]
pub fn outcome_text(alloc: Global, outcome: &Outcome) -> Result<String, AllocError>
    ensures { IfOk result (λ text. string_bytes text ≡
        spaced (result_words (written_reply outcome.now) (message_of outcome.now))) }
{
    match written_reply(outcome) {
        None => Ok(String::new(alloc)),
        Some(reply) => {
            let words = reply_text(alloc, &reply)?;
            let quoted = payload_text(alloc, message_of(outcome))?;
            format!(in alloc; " {words}{quoted}")
        }
    }
}

/// What the words after the arrow mean. Words that no line has may be accepted, too; then the line
/// of what was read differs.
#[tactic(auto, unfolding(crate::specs::Reading::outcome_at))]
pub fn outcome_of(alloc: Global, words: &[&[u8]]) -> Result<Option<Outcome>, AllocError>
    ensures { IfOk result (λ read. option_map shown read ≡ outcome_at (words_at words.now)) }
{
    if words.is_empty() {
        return Ok(Some(Outcome::Pending));
    }
    let Some(reply) = reply_of(words) else {
        return Ok(None);
    };
    match reply {
        Reply::Done => Ok(Some(Outcome::Done)),
        Reply::Opened { d, created: _ } => Ok(Some(Outcome::Opened(d))),
        Reply::Got {
            place,
            admitted: _,
            notified: _,
        } => got_of(alloc, place, words),
        Reply::Attrs(status) => Ok(Some(Outcome::Attributes(status))),
        Reply::Notice(value) => Ok(Some(Outcome::Notice(value))),
        Reply::Refused(fault) => Ok(Some(Outcome::Refused(fault))),
        _ => Ok(None),
    }
}

fn behind_first<'w, 's>(words: &'w [&'s [u8]]) -> &'w [&'s [u8]]
    ensures { words_at result.now ≡ drop 1 (words_at words.now) }
{
    match words {
        [] => words,
        [_first, words @ ..] => words,
    }
}

// The message of a receive, whose priority was read already.
fn got_of(alloc: Global, prio: u64, words: &[&[u8]]) -> Result<Option<Outcome>, AllocError>
    ensures { IfOk result (λ read. option_map shown read ≡ message_at prio (words_at words.now)) }
{
    let Ok(prio) = u32::try_from(prio) else {
        return Ok(None);
    };
    let quoted = quoted_of(behind_first(behind_first(words))).0;
    let mut message = Vec::new(alloc);
    percent_decode(quoted).append_to(&mut message)?;
    Ok(Some(Outcome::Got { prio, message }))
}
