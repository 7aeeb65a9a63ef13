//! Where the replies of a script go: they are written, or noted.
ghost use Rattle.std.specs.Prelude.{◌≡◌, ⊤, ℕ, List, Option, None, Some, IfOk, OnErr, OnOk};
ghost use Rattle.std.specs.Io.KnownBytes.{Appends};
ghost use Rattle.text_io.specs.Output.{AppendsTooLittle};
ghost use Rattle.script_runner.specs.Notes.{lines_of};
ghost use Rattle.script_runner.specs.Phase.{text_in};

use crate::noted::{Noted, note_all};
use crate::text::text_of;
use crate::turns::Worked;
use fast_mutex::Look;
use mq::{Guarded, Process};
use std::alloc::{AllocError, Global};
use std::io::Write;
use text_io::output::{WriteFailed, write_all};

/// Takes the replies of the phases of a script. It makes a `T` from the replies of a phase when its
/// calls have ended, and gets it back when the processes have met.
pub trait Sink<T> {
    // The bytes that it has written, if they are known.
    ghost written: { Self → Option (List ℕ) };

    // The lines of the replies that it has noted, if they are known.
    ghost noted: { Self → Option (List ℕ) };

    // This was made of replies with these lines.
    ghost is_of: { T → List ℕ → Type 0 };

    /// Takes what the calls of a phase returned, also if some of them wait for ever. It writes
    /// nothing yet.
    fn take<L: Look<Guarded>>(
        &mut self,
        alloc: Global,
        workers: &[Worked<Process<L>>],
    ) -> Result<T, AllocError>
        ensures unwritten { written self.new ≡ written self.old }
        ensures noted { OnOk result (Appends (noted self.old) (noted self.new)
            (text_in workers.now)) }
        ensures made { IfOk result (λ taken. is_of taken (text_in workers.now)) };

    /// Ends a phase whose calls have all returned: it may write the replies now.
    fn end(&mut self, taken: T) -> Result<(), WriteFailed>
        ensures noted { noted self.new ≡ noted self.old }
        ensures written { OnOk result ((text : List ℕ) → is_of taken text →
            Appends (written self.old) (written self.new) text) }
        ensures failed { OnErr result ((text : List ℕ) → is_of taken text →
            AppendsTooLittle (written self.old) (written self.new) text) };
}

/// The lines of the replies of a phase, which are written when it ends. Any output takes them.
#[derive(Drop)]
pub struct Written {
    text: Vec<u8>,
}

impl<W: Write> Sink<Written> for W {
    ghost written = { λ output. W.contents output };

    ghost noted = { λ _. None };

    ghost is_of = { λ taken text. taken.text.items ≡ text };

    fn take<L: Look<Guarded>>(
        &mut self,
        alloc: Global,
        workers: &[Worked<Process<L>>],
    ) -> Result<Written, AllocError> {
        let text = text_of(alloc, workers)?;
        Ok(Written { text })
    }

    fn end(&mut self, taken: Written) -> Result<(), WriteFailed> {
        write_all(self, taken.text.as_slice())
    }
}

/// The replies of a phase, which were noted when its calls ended.
#[derive(Drop)]
pub struct Kept;

impl Sink<Kept> for Vec<Noted> {
    ghost written = { λ _. None };

    ghost noted = { λ all. Some (lines_of all.items) };

    ghost is_of = { λ _ _. ⊤ };

    fn take<L: Look<Guarded>>(
        &mut self,
        alloc: Global,
        workers: &[Worked<Process<L>>],
    ) -> Result<Kept, AllocError> {
        note_all(alloc, self, workers)?;
        Ok(Kept)
    }

    fn end(&mut self, _taken: Kept) -> Result<(), WriteFailed> {
        Ok(())
    }
}
