//! The end of a process, in the critical section.
ghost use Rattle.std.specs.Prelude.{◌≡◌, ◌≤◌, ◌∷◌, [], false, Some, None, OnOk, IfOk, IfErr};
ghost use Rattle.mq_model.specs.Bounds.{finds_full};
ghost use Rattle.mq_model.specs.Waits.{open_wait};
ghost use Rattle.mq_model.specs.Descriptors.{lowest_held};
ghost use Rattle.mq_model.specs.declared.entries.Call.{Call};
ghost use Rattle.mq_model.specs.declared.entries.Reply.{Reply};
ghost use Rattle.mq.specs.Calls.{Closing, Stops, recorded};

use super::Guard;
use crate::departed::{Departed, departed_of};
use crate::guarded::Guarded;
use crate::stays::{begin, depart};
use crate::system::Mq;
use fast_mutex::Look;
use mq_model::entries::Reply;
use mq_model::faults::Fault;
use mq_model::limits;
use mq_state::books::Books;

// The number of descriptors that a process may hold.
const DESCRIPTORS: u32 = limits::DESCRIPTORS as u32;

// Closes the lowest descriptor of process p.
fn close_lowest(books: &mut Books, p: u32, d: u32) -> Result<(), Fault>
    requires process { (1 ≤ p) × (p ≤ books.old.n) }
    requires no_wait { open_wait books.old.records p ≡ None }
    requires lowest { lowest_held books.old.records p ≡ Some d }
    ensures ok { IfOk result (λ _. books.new.records ≡ recorded p (Call.MqClose d) [] Reply.Done ∷
        books.old.records) }
    ensures room { OnOk result (finds_full books.old.bounds books.old.records p
        (Call.MqClose d) [] ≡ false) }
    ensures err { IfErr result (λ e. Stops books.old.bounds books.old.records p e ×
        (books.new.records ≡ books.old.records)) }
    ensures processes { books.new.n ≡ books.old.n }
    ensures bounds { books.new.bounds ≡ books.old.bounds }
    ensures stored { books.new.stored ≡ books.old.stored }
{
    match books.close(p, d) {
        Reply::Done => Ok(()),
        Reply::Refused(fault) => Err(fault),
        _ => unreachable!(),
    }
}

// Closes all descriptors of process p in rising order, until a close fails.
fn close_all(books: &mut Books, p: u32) -> Result<(), Fault>
    requires process { (1 ≤ p) × (p ≤ books.old.n) }
    requires no_wait { open_wait books.old.records p ≡ None }
    ensures closing { Closing books.old.bounds books.old.records books.new.records p }
    ensures ok { OnOk result (lowest_held books.new.records p ≡ None) }
    ensures err { IfErr result (Stops books.old.bounds books.new.records p) }
    ensures free { open_wait books.new.records p ≡ None }
    ensures processes { books.new.n ≡ books.old.n }
    ensures bounds { books.new.bounds ≡ books.old.bounds }
    ensures stored { books.new.stored ≡ books.old.stored }
{
    'descriptors: for d in 0..DESCRIPTORS {
        if books.lowest_open(p) == Some(d) {
            close_lowest(books, p, d)?;
        }
    }
    Ok(())
}

impl<L: Look<Guarded>> Guard<L> {
    ghost use Rattle.std.specs.Prelude.{◌≡◌};
    ghost use Rattle.mq.specs.Calls.{IsFree, Exits};

    /// As [`Process::exit`].
    pub fn exit(self, mq: &Mq<L>) -> (Departed<L>, Result<(), Fault>)
        requires made { self.process.lock ≡ mq.now }
        requires free { IsFree self.process }
        ensures call { Exits self.process result.0 result.1 }
        ensures free { IsFree result.0 }
    {
        let (inside, mut state) = begin::<L>(self.walk, self.number);
        let done = close_all(&mut state.books, self.number);
        (departed_of(depart(mq, inside, state), None), done)
    }
}
