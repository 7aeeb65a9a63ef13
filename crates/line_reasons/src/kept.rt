//! An input that keeps what was read of its last lines, so that one of them can be shown.
ghost use Rattle.std.specs.Prelude.{None};

use std::alloc::Global;
use std::io;
use std::io::Read;
use text_io::sources::ByteSource;

/// The lines of the last read, with what came before it of the first of them. If there is no memory
/// for them they are not kept.
#[derive(Drop)]
struct Tail {
    text: Vec<u8>,
    // How many lines are before the text.
    before: u64,
    // The length of the whole lines in the text, and their number.
    whole: usize,
    lines: u64,
    is_lost: bool,
}

impl Tail {
    // Keeps what was read, and drops the lines that were whole before.
    fn keep(&mut self, bytes: &[u8]) {
        let whole = self.whole.min(self.text.len());
        self.text.rotate_left(whole);
        self.text.truncate(self.text.len() - whole);
        self.before = self.before.saturating_add(self.lines);
        self.whole = 0;
        self.lines = 0;
        if self.text.extend_from_slice(bytes).is_err() {
            self.is_lost = true;
        }
        self.count(bytes);
    }

    // Counts the lines that end in the last bytes of the text.
    fn count(&mut self, bytes: &[u8]) {
        let before = self.text.len().saturating_sub(bytes.len());
        for i in 0..bytes.len() {
            if bytes[i] == b'\n' {
                self.lines = self.lines.saturating_add(1);
                self.whole = before.saturating_add(i).saturating_add(1);
            }
        }
    }

    // The line with this number, counted from 1.
    fn line(&self, number: u64) -> Option<&[u8]> {
        if self.is_lost {
            return None;
        }
        let mut at = self.before;
        for line in self.text.split_inclusive(|b| *b == b'\n') {
            at = at.saturating_add(1);
            if at == number {
                return Some(line);
            }
        }
        None
    }
}

/// A reader, and the lines of its last read. Reads go on if there is no memory for the lines.
#[derive(Drop)]
pub struct Kept<R> {
    reader: R,
    tail: Tail,
}

impl<R: Read> ByteSource for Kept<R> {
    ghost remaining = { λ kept. R.remaining kept.reader };

    ghost failed = { λ _. None };

    fn read_bytes(&mut self, buf: &mut [u8]) -> io::Result<usize> {
        let count = self.reader.read(buf)?;
        // An end is no read: the last lines stay.
        if count > 0 {
            self.tail.keep(&buf[..count]);
        }
        Ok(count)
    }
}

impl<R: Read> Kept<R> {
    /// Nothing was read yet.
    pub fn new(alloc: Global, reader: R) -> Kept<R> {
        let tail = Tail {
            text: Vec::new(alloc),
            before: 0,
            whole: 0,
            lines: 0,
            is_lost: false,
        };
        Kept { reader, tail }
    }

    /// The line with this number, counted from 1, with its line feed if that was read. None if it
    /// is not kept: it is not one of the last read, or there was no memory for it.
    pub fn line(&self, number: u64) -> Option<&[u8]> {
        self.tail.line(number)
    }
}
