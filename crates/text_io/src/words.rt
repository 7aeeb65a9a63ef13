//! The words of a line, and the numbers that they mean.
ghost use Rattle.std.specs.Prelude.{◌≡◌, ◌≤◌, IfOk, IfSome, map};
ghost use Rattle.text_io.specs.Words.{count_written, integer_written, number_written, words_of};

use std::alloc::{AllocError, Global};

/// The words of a line: its pieces between spaces, and before the line feed, that are not empty.
pub fn words<'s>(alloc: Global, line: &'s [u8]) -> Result<Vec<&'s [u8]>, AllocError>
    ensures { IfOk result (λ words. map (λ word. word.now) words.items ≡ words_of line.now) }
{
    line.split(|b| *b == b' ' || *b == b'\n')
        .filter(|word| !word.is_empty())
        .collect(alloc)
}

/// The value of decimal digits that fits in a `u64`. Leading zeros are allowed.
pub fn number(word: &[u8]) -> Option<u64>
    ensures { result ≡ number_written 64 word.now }
{
    if word.is_empty() {
        return None;
    }
    let mut value = 0u64;
    for b in word {
        if !b.is_ascii_digit() {
            return None;
        }
        value = value.checked_mul(10)?.checked_add(u64::from(*b - b'0'))?;
    }
    Some(value)
}

/// The value of decimal digits that fits in a `u32`. Leading zeros are allowed.
pub fn small_number(word: &[u8]) -> Option<u32>
    ensures { result ≡ number_written 32 word.now }
{
    u32::try_from(number(word)?).ok()
}

/// A number from 1 to `most`.
pub fn count_of(most: u32, word: &[u8]) -> Option<u32>
    ensures written { result ≡ count_written most word.now }
    ensures bounds { IfSome result (λ n. (1 ≤ n) × (n ≤ most)) }
{
    let n = small_number(word)?;
    if 1 <= n && n <= most { Some(n) } else { None }
}

/// The value of decimal digits, perhaps after a `-`, that fits in an `i64`.
pub fn integer(word: &[u8]) -> Option<i64>
    ensures { result ≡ integer_written word.now }
{
    match word {
        [b'-', digits @ ..] => i64::try_from(-i128::from(number(digits)?)).ok(),
        _ => i64::try_from(number(word)?).ok(),
    }
}
