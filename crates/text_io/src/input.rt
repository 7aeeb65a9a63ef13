//! Reading all bytes of an input.
ghost use Rattle.std.specs.Prelude.{◌≡◌, ◌≤◌, ◌+◌, ℕ, List, IfOk, IfSome, IsErrOf, OnErr, Some, length, take, vec_len};
ghost use Rattle.std.specs.Io.KnownBytes.{Consumes};
ghost use Rattle.text_io.specs.Faults.{read_fault_text};
ghost use Rattle.text_io.specs.Sources.{HasFailed};
ghost use Rattle.text_io.specs.declared.input.ReadFault.TheVariants.{Failed, NoMemory};

use crate::sources::ByteSource;
use std::alloc::{AllocError, Global};
use std::error::Error;
use std::fmt;

/// Why an input could not be read.
#[derive(Clone, Copy, Debug, PartialEq, Eq)]
pub enum ReadFault {
    /// A read failed, with whatever error. An interrupted read is not tried again.
    Failed,
    /// Memory was refused.
    NoMemory,
}

impl fmt::Display for ReadFault {
    ghost output = { λ fault. Some (read_fault_text fault) };

    fn fmt<W: fmt::Write>(&self, f: &mut fmt::Formatter<W>) -> fmt::Result {
        match self {
            ReadFault::Failed => f.write_str("a read failed"),
            ReadFault::NoMemory => f.write_str("no memory"),
        }
    }
}

impl Error for ReadFault {}

impl From<AllocError> for ReadFault {
    ghost from_gives = { λ _ fault. fault ≡ NoMemory };

    fn from(_refused: AllocError) -> ReadFault {
        ReadFault::NoMemory
    }
}

/// The maximum length of a read, in bytes.
const CHUNK: usize = 4096;

/// The bytes of the input, up to one more than `most`. Each read except the last returns at least
/// one byte, so there are at most `most + 1` reads. What was read before an error is lost. Once
/// `most + 1` bytes are there, nothing more is read.
pub fn read_all<R: ByteSource>(
    alloc: Global,
    input: &mut R,
    most: usize,
) -> Result<Vec<u8>, ReadFault>
    ensures size { IfOk result (λ bytes. vec_len bytes ≤ most + 1) }
    ensures bytes { IfOk result (λ bytes. IfSome (R.remaining input.old) (λ all. bytes.items ≡
        take (most + 1) all)) }
    ensures left { IfOk result (λ bytes.
        Consumes (R.remaining input.old) (R.remaining input.new) bytes.items) }
    ensures lost { OnErr result ((lost : List ℕ) × (length lost ≤ most + 1) ×
        Consumes (R.remaining input.old) (R.remaining input.new) lost) }
    ensures failed { IsErrOf result Failed → (lost : List ℕ) × (length lost ≤ most) ×
        Consumes (R.remaining input.old) (R.remaining input.new) lost }
    ensures cause { IsErrOf result Failed → HasFailed (R.failed input.new) }
    ensures well { (IsErrOf result Failed → ⊥) → R.failed input.new ≡ R.failed input.old }
{
    let mut bytes = Vec::new(alloc);
    let mut chunk = [0u8; CHUNK];
    while bytes.len() <= most {
        let room = (most - bytes.len()).min(CHUNK - 1) + 1;
        let count = input
            .read_bytes(&mut chunk[..room])
            .map_err(|_| ReadFault::Failed)?;
        if count == 0 {
            return Ok(bytes);
        }
        bytes.extend_from_slice(&chunk[..count])?;
    }
    Ok(bytes)
}
