//! Whether a word is as the grammar has it.

use mq_model::limits::PROCESSES;
use text_io::words::{integer, number, small_number};

// Whether these decimal digits begin with a zero that is not needed.
fn is_padded(digits: &[u8]) -> bool {
    matches!(digits, [b'0', _, ..])
}

/// A number of 64 bits, without leading zeros.
pub fn is_number(word: &[u8]) -> bool {
    number(word).is_some() && !is_padded(word)
}

/// A number of 32 bits, without leading zeros.
pub fn is_small_number(word: &[u8]) -> bool {
    small_number(word).is_some() && !is_padded(word)
}

/// A signed number of 64 bits, without leading zeros.
pub fn is_integer(word: &[u8]) -> bool {
    if integer(word).is_none() {
        return false;
    }
    match word {
        [b'-', b'0', ..] => false,
        [b'-', ..] => true,
        _ => !is_padded(word),
    }
}

/// A number from 1 to 32.
pub fn is_process(word: &[u8]) -> bool {
    match small_number(word) {
        Some(process) => 1 <= process && process <= PROCESSES && !is_padded(word),
        None => false,
    }
}

// A thread of a process other than the first.
fn is_thread(word: &[u8]) -> bool {
    match small_number(word) {
        Some(thread) => 2 <= thread && thread <= u32::MAX / PROCESSES && !is_padded(word),
        None => false,
    }
}

/// A process, or a process, a dot and a thread of it other than the first.
pub fn is_caller(word: &[u8]) -> bool {
    match word.iter().position(|b| *b == b'.') {
        None => matches!(word, b"0") || is_process(word),
        Some(dot) => is_process(&word[..dot]) && is_thread(&word[dot + 1..]),
    }
}

// What follows this letter, if the word begins with it.
fn without(letter: u8, word: &[u8]) -> &[u8] {
    match word {
        [first, rest @ ..] if *first == letter => rest,
        _ => word,
    }
}

/// The flags of an open: `r`, `w` or `b`, and then `c`, `x` and `n`, each of which may be left out.
pub fn are_flags(word: &[u8]) -> bool {
    match word {
        [b'r' | b'w' | b'b', rest @ ..] => {
            without(b'n', without(b'x', without(b'c', rest))).is_empty()
        }
        _ => false,
    }
}

// The value of an upper-case hexadecimal digit.
fn digit_of(b: u8) -> Option<u8> {
    match b {
        b'0'..=b'9' => Some(b - b'0'),
        b'A'..=b'F' => Some(b - b'A' + 10),
        _ => None,
    }
}

// Whether these two digits stand for a byte that is escaped.
fn is_escape(high: u8, low: u8) -> bool {
    match (digit_of(high), digit_of(low)) {
        (Some(high), Some(low)) => {
            let b = u32::from(high) * 16 + u32::from(low);
            b <= u32::from(b' ') || b == u32::from(b'%') || b > u32::from(b'~')
        }
        _ => false,
    }
}

// Whether each `%` begins the escape of a byte that is escaped.
fn is_escaped(bytes: &[u8]) -> bool {
    let mut digits = 0usize;
    for i in 0..bytes.len() {
        if digits > 0 {
            digits -= 1;
        } else if bytes[i] == b'%' {
            if bytes.len() - i < 3 || !is_escape(bytes[i + 1], bytes[i + 2]) {
                return false;
            }
            digits = 2;
        }
    }
    true
}

/// A name or a message in quotes, with at least one byte.
pub fn is_payload(word: &[u8]) -> bool {
    match word {
        [b'"', bytes @ .., b'"'] => !bytes.is_empty() && is_escaped(bytes),
        _ => false,
    }
}
