//! The lines of an input, read one after the other.
ghost use Rattle.std.specs.Prelude.{◌≡◌, ◌<◌, ◌≤◌, ◌+◌, ◌++◌, ℕ, List, [], Option, Ok, false, true, IfOk, IsErrOf, OnOk, length};
ghost use Rattle.journal_format.specs.Lines.{HasEnded, HasNewLine, HasRead};
ghost use Rattle.journal_format.specs.Text.{can_go_on, has_feed};
ghost use Rattle.text_io.specs.Sources.{HasFailed};
ghost use Rattle.journal_format.specs.declared.fault.JournalFault.TheVariants.{BadLine, Input};

use crate::fault::JournalFault;
use std::alloc::Global;
use text_io::sources::ByteSource;

/// The maximum length of a text, in bytes.
pub const MOST_BYTES: usize = 1 << 40;

/// The maximum length of a line that is read, in bytes. Each byte of a name or a message takes at
/// most three bytes in it.
pub const MOST_LINE: usize = (1 << 20) + 3 * (1 << 16);

/// The maximum length of a read, in bytes.
pub const CHUNK: usize = 4096;

/// What was read from an input and not taken yet.
#[derive(Drop)]
pub struct Lines {
    pub rest: Vec<u8>,
    /// How many further bytes may be read.
    pub left: usize,
}

// Whether these bytes can be in a line before its line feed: each is printable ASCII.
fn can_go_on(bytes: &[u8]) -> bool
    ensures { result ≡ can_go_on bytes.now }
{
    bytes.iter().all(|b| (b' '..=b'~').contains(b))
}

impl Lines {
    /// Nothing was read yet. Of a longer input only the first 2^40 + 1 bytes will be read.
    pub fn new(alloc: Global) -> Lines
        ensures rest { result.rest.items ≡ [] }
        ensures left { result.left ≡ MOST_BYTES + 1 }
    {
        Lines {
            rest: Vec::new(alloc),
            left: MOST_BYTES + 1,
        }
    }

    /// Reads until `rest` has a whole line. False if no line will come: everything was read, or
    /// `rest` is longer than a line can be, or has a byte that no line has. `JournalFault::Input`:
    /// a read failed.
    pub fn come<R: ByteSource>(&mut self, input: &mut R) -> Result<bool, JournalFault>
        requires rest { has_feed self.old.rest.items ≡ false }
        requires short { length self.old.rest.items ≤ CHUNK }
        ensures feed { IfOk result (λ came. has_feed self.new.rest.items ≡ came) }
        ensures read { OnOk result ((start : Option (List ℕ)) (front : List ℕ) →
            HasRead start (R.remaining input.old) (front ++ self.old.rest.items) self.old.left →
            HasRead start (R.remaining input.new) (front ++ self.new.rest.items) self.new.left) }
        ensures last { OnOk result (HasNewLine self.new.rest.items) }
        ensures less { result ≡ Ok true → self.new.left < self.old.left }
        ensures end { result ≡ Ok false →
            HasEnded self.new.rest.items self.new.left (R.remaining input.new) }
        ensures few { OnOk result (length self.new.rest.items ≤ MOST_LINE + CHUNK) }
        ensures no_line { (line : ℕ) → IsErrOf result (BadLine line) → ⊥ }
        ensures cause { IsErrOf result Input → HasFailed (R.failed input.new) }
        ensures well { (IsErrOf result Input → ⊥) → R.failed input.new ≡ R.failed input.old }
    {
        if !can_go_on(self.rest.as_slice()) {
            return Ok(false);
        }
        let mut chunk = [0u8; CHUNK];
        'reads: while self.left > 0 && self.rest.len() <= MOST_LINE {
            let count = input
                .read_bytes(&mut chunk[..self.left.min(CHUNK)])
                .map_err(|_| JournalFault::Input)?;
            if count == 0 {
                return Ok(false);
            }
            self.left -= count;
            self.rest.extend_from_slice(&chunk[..count])?;
            if chunk[..count].contains(&b'\n') {
                return Ok(true);
            }
            if !can_go_on(&chunk[..count]) {
                return Ok(false);
            }
        }
        Ok(false)
    }
}
