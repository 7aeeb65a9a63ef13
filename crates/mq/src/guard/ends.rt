//! Ending a wait, in the critical section.
ghost use Rattle.std.specs.Prelude.{◌≡◌, ◌≤◌, ◌↔◌, true, None, [], length, IsSome, IfSome};
ghost use Rattle.mq_model.specs.Deadlines.{is_over};
ghost use Rattle.mq_model.specs.Legality.{Appends};
ghost use Rattle.mq_model.specs.Waits.{open_wait, wait_deadline, answered_by};
ghost use Rattle.mq_model.specs.declared.entries.Call.{Call};
ghost use Rattle.mq_model.specs.declared.entries.Reply.{Reply};
ghost use Rattle.mq_state.specs.Buffers.{room_of, waiting_call, collected, collected_into};

use super::Guard;
use crate::departed::{Departed, departed_of};
use crate::guarded::Guarded;
use crate::stays::{begin, depart};
use crate::system::Mq;
use fast_mutex::Look;
use mq_model::entries::Deadline;
use mq_state::books::Books;
use mq_state::collected::Collected;

impl<L: Look<Guarded>> Guard<L> {
    ghost use Rattle.std.specs.Prelude.{◌≡◌, ◌≤◌, true, IsSome, IfSome, IfNone, length};
    ghost use Rattle.mq_model.specs.Deadlines.{is_over};
    ghost use Rattle.mq_model.specs.Waits.{wait_deadline};
    ghost use Rattle.mq_state.specs.Buffers.{waiting_room};
    ghost use Rattle.mq.specs.Says.{FitsIn};
    ghost use Rattle.mq.specs.Calls.{IsFree, Collects, StillWaits, WithdrawsAt};

    /// As [`Process::collect`].
    pub fn collect(self, mq: &Mq<L>, buf: &mut [u8]) -> (Departed<L>, Option<Collected>)
        requires made { self.process.lock ≡ mq.now }
        requires wait { IsSome (waiting_room self.process.left self.process.number) }
        requires room { IfSome (waiting_room self.process.left self.process.number)
            (λ room. room ≤ length buf.old) }
        ensures none { IfNone result.1 (StillWaits self.process result.0) }
        ensures same { IfNone result.1 (buf.new ≡ buf.old) }
        ensures some { IfSome result.1 (λ outcome.
            Collects self.process result.0 outcome buf.old buf.new) }
        ensures free { IfSome result.1 (λ outcome. IsFree result.0) }
        ensures fits { IfSome result.1 (λ outcome. FitsIn outcome (length buf.old)) }
        ensures told { self.process.told ≡ true → IsSome result.1 }
    {
        let (inside, mut state) = begin::<L>(self.walk, self.number);
        let outcome = state.books.collect(self.number, buf);
        let seat = depart(mq, inside, state);
        match outcome {
            Some(outcome) => (departed_of(seat, None), Some(outcome)),
            None => (departed_of(seat, self.waits), None),
        }
    }

    /// Ends the open wait, whose deadline has passed at the time `now`. If the wait is answered, it
    /// is collected. Otherwise it is withdrawn, and the result is `None`. Takes no memory.
    pub fn end_wait(
        self,
        mq: &Mq<L>,
        buf: &mut [u8],
        now: Deadline,
    ) -> (Departed<L>, Option<Collected>)
        requires made { self.process.lock ≡ mq.now }
        requires wait { IsSome (waiting_room self.process.left self.process.number) }
        requires room { IfSome (waiting_room self.process.left self.process.number)
            (λ room. room ≤ length buf.old) }
        requires over { is_over (wait_deadline self.process.left self.process.number) now ≡ true }
        ensures some { IfSome result.1 (λ outcome.
            Collects self.process result.0 outcome buf.old buf.new) }
        ensures none { IfNone result.1 (WithdrawsAt now self.process result.0) }
        ensures same { IfNone result.1 (buf.new ≡ buf.old) }
        ensures fits { IfSome result.1 (λ outcome. FitsIn outcome (length buf.old)) }
        ensures free { IsFree result.0 }
    {
        let (inside, mut state) = begin::<L>(self.walk, self.number);
        let outcome = end_wait(&mut state.books, self.number, buf, now);
        (departed_of(depart(mq, inside, state), None), outcome)
    }
}

// The same for process p of these queues.
fn end_wait(books: &mut Books, p: u32, buf: &mut [u8], now: Deadline) -> Option<Collected>
    requires process { (1 ≤ p) × (p ≤ books.old.n) }
    requires wait { IsSome (open_wait books.old.records p) }
    requires room { room_of (waiting_call books.old.records p) ≤ length buf.old }
    requires over { is_over (wait_deadline books.old.records p) now ≡ true }
    ensures some { IsSome result ↔ IsSome (answered_by books.old.records p) }
    ensures value { result ≡ collected books.old.records p }
    ensures entry { IfSome (answered_by books.old.records p) (λ by.
        Appends books.old.records books.new.records p Call.Collect [] (Reply.Collected by)) }
    ensures withdraws { result ≡ None →
        IfSome (open_wait books.old.records p) (λ wait.
        Appends books.old.records books.new.records p (Call.Withdraw now) []
        (Reply.Withdrawn wait)) }
    ensures buffer { buf.new ≡ collected_into books.old.records p buf.old }
    ensures processes { books.new.n ≡ books.old.n }
    ensures bounds { books.new.bounds ≡ books.old.bounds }
    ensures stored { books.new.stored ≡ books.old.stored }
{
    match books.collect(p, buf) {
        Some(outcome) => Some(outcome),
        None => {
            books.withdraw(p, now);
            None
        }
    }
}
