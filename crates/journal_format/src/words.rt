//! The words of a line, one after the other. Each function returns what the next words mean, and
//! the words after them.
ghost use Rattle.std.specs.Prelude.{◌≡◌};
ghost use Rattle.std.specs.Option.{option_map};
ghost use Rattle.journal_format.specs.Reading.{flag_at, integer_at, limits_at, moment_at, number_at, number_or_at, place_at, quoted_at, read_off, read_word, word_at, words_at};

use mq_model::entries::{Attr, Deadline};
use text_io::words::{integer, number, small_number};

/// The next word.
#[tactic(auto, unfolding(crate::specs::Reading::word_at))]
pub fn word_of<'w, 's>(words: &'w [&'s [u8]]) -> Option<(&'s [u8], &'w [&'s [u8]])>
    ensures { option_map read_word result ≡ word_at (words_at words.now) }
{
    match words {
        [word, words @ ..] => Some((word, words)),
        [] => None,
    }
}

/// A 64-bit number.
#[tactic(auto, unfolding(crate::specs::Reading::number_at))]
pub fn number_of<'w, 's>(words: &'w [&'s [u8]]) -> Option<(u64, &'w [&'s [u8]])>
    ensures { option_map read_off result ≡ number_at 64 (words_at words.now) }
{
    let (word, words) = word_of(words)?;
    Some((number(word)?, words))
}

/// A 32-bit number.
#[tactic(auto, unfolding(crate::specs::Reading::number_at))]
pub fn small_number_of<'w, 's>(words: &'w [&'s [u8]]) -> Option<(u32, &'w [&'s [u8]])>
    ensures { option_map read_off result ≡ number_at 32 (words_at words.now) }
{
    let (word, words) = word_of(words)?;
    Some((small_number(word)?, words))
}

/// A 64-bit integer.
#[tactic(auto, unfolding(crate::specs::Reading::integer_at))]
pub fn integer_of<'w, 's>(words: &'w [&'s [u8]]) -> Option<(i64, &'w [&'s [u8]])>
    ensures { option_map read_off result ≡ integer_at (words_at words.now) }
{
    let (word, words) = word_of(words)?;
    Some((integer(word)?, words))
}

/// A label, and then a time.
#[tactic(auto, unfolding(crate::specs::Reading::moment_at))]
pub fn moment_of<'w, 's>(words: &'w [&'s [u8]]) -> Option<(Deadline, &'w [&'s [u8]])>
    ensures { option_map read_off result ≡ moment_at (words_at words.now) }
{
    let (_label, words) = word_of(words)?;
    let (sec, words) = integer_of(words)?;
    let (nsec, words) = integer_of(words)?;
    Some((Deadline { sec, nsec }, words))
}

/// The limits of a new queue, or none if the next word is not the label of limits.
#[tactic(auto, unfolding(crate::specs::Reading::limits_at))]
pub fn limits_of<'w, 's>(words: &'w [&'s [u8]]) -> Option<(Option<Attr>, &'w [&'s [u8]])>
    ensures { option_map read_off result ≡ limits_at (words_at words.now) }
{
    match words {
        [word, limits @ ..] if *word == b"limits".as_slice() => {
            let (maxmsg, limits) = integer_of(limits)?;
            let (msgsize, words) = integer_of(limits)?;
            Some((Some(Attr { maxmsg, msgsize }), words))
        }
        _ => Some((None, words)),
    }
}

/// This label, and then a sequence number; or none if the next word is another.
#[tactic(auto, unfolding(crate::specs::Reading::place_at))]
pub fn place_of<'w, 's>(
    label: &'static [u8],
    words: &'w [&'s [u8]],
) -> Option<(Option<u64>, &'w [&'s [u8]])>
    ensures { option_map read_off result ≡ place_at label.entry.now (words_at words.now) }
{
    match words {
        [word, place @ ..] if *word == label => {
            let (place, words) = number_of(place)?;
            Some((Some(place), words))
        }
        _ => Some((None, words)),
    }
}

/// A number, or none if the next word is `none`.
#[tactic(auto, unfolding(crate::specs::Reading::number_or_at))]
pub fn number_or_of<'w, 's>(
    none: &'static [u8],
    words: &'w [&'s [u8]],
) -> Option<(Option<u64>, &'w [&'s [u8]])>
    ensures { option_map read_off result ≡ number_or_at none.entry.now (words_at words.now) }
{
    let (word, words) = word_of(words)?;
    if word == none {
        Some((None, words))
    } else {
        Some((Some(number(word)?), words))
    }
}

/// 1 for nonblocking. Any other word means that it is not.
#[tactic(auto, unfolding(crate::specs::Reading::flag_at))]
pub fn flag_of<'w, 's>(words: &'w [&'s [u8]]) -> Option<(bool, &'w [&'s [u8]])>
    ensures { option_map read_off result ≡ flag_at (words_at words.now) }
{
    let (word, words) = word_of(words)?;
    Some((word == b"1".as_slice(), words))
}

/// What is between quotes, or nothing if the next word does not begin with a quote.
#[tactic(auto, unfolding(crate::specs::Reading::quoted_at))]
pub fn quoted_of<'w, 's>(words: &'w [&'s [u8]]) -> (&'s [u8], &'w [&'s [u8]])
    ensures { read_word result ≡ quoted_at (words_at words.now) }
{
    match words {
        [] => (&[], words),
        [word, rest @ ..] => match word {
            [b'"', bytes @ ..] => (&bytes[..bytes.len().saturating_sub(1)], rest),
            _ => (&[], words),
        },
    }
}
