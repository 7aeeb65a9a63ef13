//! The start and the end of a critical section, once the lock is acquired.
ghost use Rattle.std.specs.Prelude.{◌≡◌, true, false, is_some};
ghost use Rattle.fast_mutex.specs.Items.{GrowsBy};
ghost use Rattle.mq_model.specs.Legality.{Legal};
ghost use Rattle.mq_model.specs.Waits.{named_wait, open_wait, wait_deadline};
ghost use Rattle.mq_state.specs.Buffers.{waiting_room};
ghost use Rattle.mq.specs.Calls.{Came, Knows, answered_bits, author, bounds_in, stored_in, fixed_of};

use crate::guarded::{Guarded, Visit};
use crate::system::Mq;
use fast_mutex::Look;
use mq_model::entries::Reply;

/// Starts the critical section of this process, whose acquisition has the lock.
#[inline(always)]
pub(crate) fn begin<L: Look<Guarded>>(walk: L::Walk, process: u32) -> (L::Inside, Visit)
    requires inside { L.is_in walk ≡ true }
    requires process { process ≡ (L.walking walk).number }
    requires fixed { (L.walking walk).lock.fixed ≡ fixed_of (L.walking walk).lock.count
        (bounds_in (L.walking walk).lock.fixed) (stored_in (L.walking walk).lock.fixed) }
    ensures came { Came (L.walking walk) (L.walking walk).lock
        (L.stay result.0) result.1.books process }
    ensures wait { open_wait result.1.books.records process ≡
        open_wait (L.walking walk).left (L.walking walk).number }
    ensures deadline { wait_deadline result.1.books.records process ≡
        wait_deadline (L.walking walk).left (L.walking walk).number }
    ensures room { waiting_room result.1.books.records (L.stay result.0).number ≡
        waiting_room (L.walking walk).left (L.walking walk).number }
    ensures knows { Knows (L.stay result.0) result.1.answered result.1.places }
{
    let (inside, state) = L::admitted(walk);
    (inside, Visit::begin(state))
}

/// Releases the lock, and returns the seat.
#[inline(always)]
pub(crate) fn depart<L: Look<Guarded>>(mq: &Mq<L>, inside: L::Inside, visit: Visit) -> L::Seat
    requires lock { (L.stay inside).lock ≡ mq.now }
    requires n { visit.books.n ≡ mq.now.count }
    requires bounds { visit.books.bounds ≡ bounds_in mq.now.fixed }
    requires stored { visit.books.stored ≡ stored_in mq.now.fixed }
    requires knows { Knows (L.stay inside) visit.answered visit.places }
    requires grows { GrowsBy author (L.stay inside).number
        (L.stay inside).left visit.books.records }
    ensures left { L.ticket result ≡
        record {
          lock = mq.now;
          number = (L.stay inside).number;
          left = visit.books.records;
          told = false;
        } }
    ensures legal { Legal visit.books.records }
{
    let _ = visit.books.journal_len();
    mq.lock().leave(inside, visit.end())
}

/// The same after one call with this reply. No record is looked up.
#[inline(always)]
pub(crate) fn depart_after<L: Look<Guarded>>(
    mq: &Mq<L>,
    inside: L::Inside,
    visit: Visit,
    reply: Reply,
) -> L::Seat
    requires lock { (L.stay inside).lock ≡ mq.now }
    requires n { visit.books.n ≡ mq.now.count }
    requires bounds { visit.books.bounds ≡ bounds_in mq.now.fixed }
    requires stored { visit.books.stored ≡ stored_in mq.now.fixed }
    requires quiet { is_some (named_wait reply) ≡ false →
        visit.answered ≡ answered_bits visit.books.records }
    requires grows { GrowsBy author (L.stay inside).number
        (L.stay inside).left visit.books.records }
    ensures left { L.ticket result ≡
        record {
          lock = mq.now;
          number = (L.stay inside).number;
          left = visit.books.records;
          told = false;
        } }
    ensures legal { Legal visit.books.records }
{
    let _ = visit.books.journal_len();
    mq.lock().leave(inside, visit.end_after(reply))
}
