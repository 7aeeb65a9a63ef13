//! Marks of other systems that make a line malformed: a byte order mark, and CR before a line feed.

/// Such a mark.
#[derive(Clone, Copy, PartialEq, Eq)]
pub enum Mark {
    ByteOrder,
    CarriageReturn,
}

/// The byte order mark of UTF-8.
const BYTE_ORDER: [u8; 3] = [0xEF, 0xBB, 0xBF];

impl Mark {
    /// Why it makes a line malformed.
    pub fn text(self) -> &'static str {
        match self {
            Mark::ByteOrder => "the text begins with a byte order mark: save it without one",
            Mark::CarriageReturn => "the line ends in CR LF: a line ends in a line feed alone",
        }
    }
}

/// Whether a text is in UTF-16, by its byte order mark.
pub fn is_wide(text: &[u8]) -> bool {
    matches!(text, [0xFF, 0xFE, ..] | [0xFE, 0xFF, ..])
}

/// The text without a byte order mark at its begin.
pub fn without_byte_order(text: &[u8]) -> &[u8] {
    match text.strip_prefix(BYTE_ORDER.as_slice()) {
        Some(rest) => rest,
        None => text,
    }
}

/// The line without its line feed.
pub fn without_feed(line: &[u8]) -> &[u8] {
    match line {
        [rest @ .., b'\n'] => rest,
        _ => line,
    }
}

/// The line, without its line feed, without a CR at its end.
pub fn without_return(line: &[u8]) -> &[u8] {
    match line {
        [rest @ .., b'\r'] => rest,
        _ => line,
    }
}
