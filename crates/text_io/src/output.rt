//! Writing bytes to an output.
ghost use Rattle.std.specs.Prelude.{OnErr, OnOk, Some};
ghost use Rattle.std.specs.Io.KnownBytes.{Appends};
ghost use Rattle.text_io.specs.Faults.{write_failed_text};
ghost use Rattle.text_io.specs.Output.{AppendsPart, AppendsTooLittle};

use std::error::Error;
use std::fmt;
use std::io::Write;

/// A write failed, with whatever error, or wrote nothing. An interrupted write is not tried again.
#[derive(Clone, Copy, Debug, PartialEq, Eq)]
pub struct WriteFailed;

impl fmt::Display for WriteFailed {
    ghost output = { λ _. Some write_failed_text };

    fn fmt<W: fmt::Write>(&self, f: &mut fmt::Formatter<W>) -> fmt::Result {
        f.write_str("a write failed")
    }
}

impl Error for WriteFailed {}

/// Writes all the bytes, in as many writes as needed.
pub fn write_all<W: Write>(output: &mut W, bytes: &[u8]) -> Result<(), WriteFailed>
    ensures whole { OnOk result (Appends (W.contents output.old)
        (W.contents output.new) bytes.now) }
    ensures part { AppendsPart (W.contents output.old) (W.contents output.new) bytes.now }
    ensures failed { OnErr result (AppendsTooLittle (W.contents output.old)
        (W.contents output.new) bytes.now) }
{
    let mut written = 0;
    while written < bytes.len() {
        let count = output.write(&bytes[written..]).map_err(|_| WriteFailed)?;
        if count == 0 {
            return Err(WriteFailed);
        }
        written += count;
    }
    Ok(())
}
