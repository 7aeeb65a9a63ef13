//! Readers and writers that fail.
use crate::same::same;
use std::alloc::Global;
use std::io;
use std::io::{Error, ErrorKind, Read, Write};
use std::test::Fail;
use text_io::input::{ReadFault, read_all};
use text_io::output::{WriteFailed, write_all};
use text_io::sources::Watched;

/// A reader that returns its bytes one by one, and fails at the read `fails_at`, counted from 1.
#[derive(Drop)]
pub struct OneByOne {
    pub rest: &'static [u8],
    pub reads: usize,
    pub fails_at: usize,
    pub kind: ErrorKind,
}

impl Read for OneByOne {
    fn read(&mut self, buf: &mut [u8]) -> io::Result<usize> {
        self.reads = self.reads.saturating_add(1);
        if self.reads == self.fails_at {
            return Err(Error::from(self.kind));
        }
        match (self.rest, buf) {
            ([first, others @ ..], [place, ..]) => {
                *place = *first;
                self.rest = others;
                Ok(1)
            }
            _ => Ok(0),
        }
    }
}

/// A reader of these bytes.
pub fn one_by_one(rest: &'static [u8], fails_at: usize, kind: ErrorKind) -> OneByOne {
    OneByOne {
        rest,
        reads: 0,
        fails_at,
        kind,
    }
}

// The bytes from a reader that fails at this read, and whether a read failed.
fn bytes_until(alloc: Global, fails_at: usize, most: usize) -> (Result<Vec<u8>, ReadFault>, bool) {
    let mut input = Watched {
        reader: one_by_one(b"abc", fails_at, ErrorKind::Interrupted),
        failed: false,
    };
    let read = read_all(alloc, &mut input, most);
    (read, input.failed)
}

#[test]
fn all_is_read_unless_a_read_fails(rt: HostRuntime) -> Result<(), Fail> {
    for fails_at in 1..=4 {
        let (read, failed) = bytes_until(rt.alloc(), fails_at, 256);
        same(&rt, read.err(), Some(ReadFault::Failed), "a read fails");
        assert!(rt; failed, "{fails_at}");
    }
    for most in [3, 4, 256, usize::MAX] {
        let (all, failed) = bytes_until(rt.alloc(), 5, most);
        assert!(rt; all?.as_slice() == b"abc".as_slice(), "{most}");
        assert!(rt; !failed, "{most}");
    }
    Ok(())
}

/// A writer that takes `width` bytes per write, `writes` times, and then takes nothing, or fails.
#[derive(Drop)]
pub struct Narrow {
    pub taken: Vec<u8>,
    pub width: usize,
    pub writes: usize,
    pub fails: bool,
}

impl Write for Narrow {
    fn write(&mut self, buf: &[u8]) -> io::Result<usize> {
        if self.writes == 0 {
            return if self.fails {
                Err(Error::from(ErrorKind::Interrupted))
            } else {
                Ok(0)
            };
        }
        self.writes -= 1;
        let count = buf.len().min(self.width);
        self.taken.extend_from_slice(&buf[..count])?;
        Ok(count)
    }

    fn flush(&mut self) -> io::Result<()> {
        Ok(())
    }
}

#[test]
fn all_is_written_unless_a_write_fails(rt: HostRuntime) {
    let bytes = b"abc".as_slice();
    for fails in [false, true] {
        for writes in 0..=3 {
            let mut output = Narrow {
                taken: Vec::new(rt.alloc()),
                width: 1,
                writes,
                fails,
            };
            let outcome = write_all(&mut output, bytes);
            let wanted = if writes < 3 { Err(WriteFailed) } else { Ok(()) };
            same(&rt, outcome, wanted, "a narrow output");
            assert!(rt; output.taken.as_slice() == &bytes[..writes], "at {writes}");
        }
    }
}

#[test]
fn faults_have_their_texts(rt: HostRuntime) -> Result<(), Fail> {
    let (failed, no_memory) = (ReadFault::Failed, ReadFault::NoMemory);
    let texts = format!(in rt.alloc(); "{failed}, {no_memory}, {WriteFailed}")?;
    let wanted = "a read failed, no memory, a write failed";
    same(&rt, texts.as_str(), wanted, "the texts");
    Ok(())
}
