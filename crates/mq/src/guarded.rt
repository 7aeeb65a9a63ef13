//! The state that the lock guards.
ghost use Rattle.std.specs.Prelude.{◌≡◌, ◌≤◌, false, length, is_some};
ghost use Rattle.fast_mutex.specs.Marks.{flag};
ghost use Rattle.mq_model.specs.Record.{first};
ghost use Rattle.mq_model.specs.Waits.{named_wait};
ghost use Rattle.mq.specs.Calls.{answered_bits};

use fast_mutex::Logged;
use mq_model::entries::{Entry, Reply};
use mq_model::limits::PROCESSES;
use mq_state::books::Books;
use std::marker::Model;

/// A record of the journal as the lock's contracts see it: an entry with its payload. Only
/// contracts use this type; no value of it exists at run time.
#[derive(Drop)]
pub struct LoggedRecord {
    entry: Entry,
    payload: Vec<u8>,
}

impl Model for LoggedRecord {
    ghost use Rattle.mq_model.specs.Record.{Record};

    ghost Value = { Record };

    ghost view = { λ r. record { entry = r.entry; payload = r.payload.items } };
}

/// The queues, guarded by a lock. The list that the lock's contracts see is the journal, the latest
/// record first. The fixed part is the number of processes, the bounds of the journal, and whether
/// it is stored.
#[derive(Drop)]
pub struct Guarded {
    pub(crate) books: Books,
    // which waits are answered: bit p - 1 stands for process p
    answered: u32,
    ghost known: { answered ≡ answered_bits books.records },
}

impl Guarded {
    /// The first state of a lock.
    pub(crate) fn holding(books: Books) -> Guarded
        ensures { result.books ≡ books }
    {
        let answered = all_answered(&books);
        Guarded { books, answered }
    }
}

impl Logged for Guarded {
    type Item = LoggedRecord;

    ghost use Rattle.std.specs.Prelude.{refl};
    ghost use Rattle.mq_model.specs.Waits.{is_answered};
    ghost use Rattle.mq.specs.Calls.{author, fixed_of};
    ghost use Rattle.mq_model.proofs.OthersLeave.{answered-stays};

    ghost items = { λ s. s.books.records };

    ghost fixed = { λ s. fixed_of s.books.n s.books.bounds s.books.stored };

    ghost author = { author };

    ghost is_answered = { λ p past. is_answered past p };

    fn answered(&self, process: u32) -> bool {
        self.books.answered(process)
    }

    fn answers(&self) -> u32 {
        self.answered
    }

    ghost nobody = { λ p. refl };

    ghost stays = { answered-stays };
}

/// The queues during a critical section, with what was found at its start: which waits were
/// answered, and how many records the journal had.
#[derive(Drop)]
pub(crate) struct Visit {
    pub(crate) books: Books,
    pub(crate) answered: u32,
    pub(crate) places: u64,
}

impl Visit {
    #[inline(always)]
    pub(crate) fn begin(state: Guarded) -> Visit
        ensures books { result.books ≡ state.books }
        ensures answered { result.answered ≡ answered_bits state.books.records }
        ensures places { result.places ≡ length state.books.records }
    {
        let Guarded { books, answered } = state;
        let places = books.journal_len();
        Visit {
            books,
            answered,
            places,
        }
    }

    /// The state to give back. Which waits are answered is worked out again only if there are more
    /// records.
    #[inline(always)]
    pub(crate) fn end(self) -> Guarded
        requires places { self.places ≤ length self.books.records }
        requires answered { self.answered ≡ answered_bits (first self.places self.books.records) }
        ensures { result.books ≡ self.books }
    {
        let Visit {
            books,
            answered,
            places,
        } = self;
        let answered = answered_now(&books, answered, places);
        Guarded { books, answered }
    }

    /// The state to give back after one call with this reply. Which waits are answered is worked
    /// out again only if the reply names a wait.
    #[inline(always)]
    pub(crate) fn end_after(self, reply: Reply) -> Guarded
        requires quiet { is_some (named_wait reply) ≡ false →
            self.answered ≡ answered_bits self.books.records }
        ensures { result.books ≡ self.books }
    {
        let Visit {
            books,
            answered,
            places: _,
        } = self;
        let answered = if names_wait(reply) {
            all_answered(&books)
        } else {
            answered
        };
        Guarded { books, answered }
    }
}

// Which waits are answered, given that `answered` is right for the first `places` records.
#[inline(always)]
fn answered_now(books: &Books, answered: u32, places: u64) -> u32
    requires places { places ≤ length books.now.records }
    requires answered { answered ≡ answered_bits (first places books.now.records) }
    ensures { result ≡ answered_bits books.now.records }
{
    if books.journal_len() == places {
        answered
    } else {
        all_answered(books)
    }
}

#[inline]
fn names_wait(reply: Reply) -> bool
    ensures { result ≡ is_some (named_wait reply) }
{
    match reply {
        Reply::Handed { .. } => true,
        Reply::Got { admitted, .. } => admitted.is_some(),
        _ => false,
    }
}

// Which waits are answered, looked up for one process after another.
fn all_answered(books: &Books) -> u32
    ensures { result ≡ answered_bits books.now.records }
{
    let mut bits = 0;
    let mut process = PROCESSES;
    while process > 0 {
        bits = 2 * bits + bit(books.answered(process));
        process -= 1;
    }
    bits
}

fn bit(is_set: bool) -> u32
    ensures { result ≡ flag is_set }
{
    if is_set { 1 } else { 0 }
}
