//! What inputs are read from, and whether a read failed.
ghost use Rattle.std.specs.Prelude.{◌≡◌, ℕ, Bool, List, Option, None, Some, false, IsErr, IsOk};
ghost use Rattle.std.specs.Io.{ReadsAtMost};
ghost use Rattle.std.specs.Io.KnownBytes.{ReadConsumes};
ghost use Rattle.text_io.specs.Sources.{HasFailed};

use std::io;
use std::io::Read;

/// What bytes are read from. Each reader is one.
pub trait ByteSource {
    // The bytes that reads will return from here on, if they are known.
    ghost remaining: { Self → Option (List ℕ) };

    // Whether a read of it failed, if that is known.
    ghost failed: { Self → Option Bool };

    /// Reads into the buffer, and returns how many bytes were read: none at the end.
    fn read_bytes(&mut self, buf: &mut [u8]) -> io::Result<usize>
        ensures bound { ReadsAtMost result buf.new }
        ensures bytes { ReadConsumes (remaining self.old) (remaining self.new) result buf.new }
        ensures cause { IsErr result → HasFailed (failed self.new) }
        ensures well { IsOk result → failed self.new ≡ failed self.old };
}

impl<R: Read> ByteSource for R {
    ghost remaining = { λ reader. R.remaining reader };

    ghost failed = { λ _. None };

    fn read_bytes(&mut self, buf: &mut [u8]) -> io::Result<usize> {
        self.read(buf)
    }
}

/// Bytes in memory. No read of them fails.
#[derive(Drop)]
pub struct Memory<'a> {
    /// The bytes that were not read yet.
    pub rest: &'a [u8],
}

impl ByteSource for Memory<'_> {
    ghost remaining = { λ memory. Some memory.rest.now };

    ghost failed = { λ _. Some false };

    fn read_bytes(&mut self, buf: &mut [u8]) -> io::Result<usize> {
        let count = self.rest.len().min(buf.len());
        let (first, others) = self.rest.split_at(count);
        buf[..count].copy_from_slice(first);
        self.rest = others;
        Ok(count)
    }
}

/// A reader, and whether a read of it failed.
#[derive(Drop)]
pub struct Watched<R> {
    pub reader: R,
    pub failed: bool,
}

impl<R: Read> ByteSource for Watched<R> {
    ghost remaining = { λ watched. R.remaining watched.reader };

    ghost failed = { λ watched. Some watched.failed };

    fn read_bytes(&mut self, buf: &mut [u8]) -> io::Result<usize> {
        let result = self.reader.read(buf);
        if result.is_err() {
            self.failed = true;
        }
        result
    }
}
