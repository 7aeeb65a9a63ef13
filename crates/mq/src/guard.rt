//! A process in its critical section, and the calls that it can make there.
ghost use Rattle.std.specs.Prelude.{◌≡◌};
ghost use Rattle.mq.specs.Blocked.{is_blocked};
ghost use Rattle.mq.specs.Calls.{wait_begun};
ghost use Rattle.std.specs.List.{list_all};

mod ends;
mod exits;
mod reading;

use crate::departed::{Departed, departed_of};
use crate::guarded::Guarded;
use crate::returned::Returned;
use crate::stays::{begin, depart, depart_after};
use crate::system::Mq;
use fast_mutex::Look;
use mq_model::entries::{Call, Reply};
use mq_state::books::Books;
use std::marker::Model;

/// A process in its critical section. It makes one call, which never waits, and becomes a
/// [`Departed`], which wakes those who wait for this call and is a [`Process`] again. Contracts see
/// the process as it was before the acquisition, so each call here has the contract of the same
/// call of [`Process`]. They also see how many accesses to words of the lock it has made. While a
/// `Guard` exists all other processes stay out. If it is dropped, they stay out for good.
#[derive(Drop)]
pub struct Guard<L: Look<Guarded>> {
    pub(crate) number: u32,
    pub(crate) walk: L::Walk,
    pub(crate) waits: Option<usize>,
}

impl<L: Look<Guarded>> Model for Guard<L> {
    ghost use Rattle.std.specs.Prelude.{◌≡◌, true};
    ghost use Rattle.mq.specs.Calls.{Entrant, UnderWay};

    ghost Value = { Entrant };

    ghost view = { λ a. record { process = L.walking a.walk; accesses = L.walk_accesses a.walk } };

    ghost invariant = { λ a. UnderWay (L.walking a.walk) a.number a.waits ×
        (L.is_in a.walk ≡ true) };
}

impl<L: Look<Guarded>> Guard<L> {
    ghost use Rattle.std.specs.Prelude.{◌≡◌, IsSome, [], length};
    ghost use Rattle.std.specs.List.{list_all};
    ghost use Rattle.mq_state.specs.Buffers.{waiting_room};
    ghost use Rattle.mq_state.specs.Requests.{Brings};
    ghost use Rattle.mq.specs.Kinds.{IsOf, IsCall, IsWaiting, IsOver};
    ghost use Rattle.mq.specs.Blocked.{is_blocked};
    ghost use Rattle.mq.specs.Calls.{IsFree, Calls, KeepsAnswered, WaitsIn};

    /// As [`Process::make`].
    #[inline(always)]
    pub fn make<A: Returned>(
        self,
        mq: &Mq<L>,
        call: Call,
        given: &[u8],
        buf: &mut [u8],
    ) -> (Departed<L>, A)
        requires made { self.process.lock ≡ mq.now }
        requires free { IsFree self.process }
        requires brings { Brings call given.now (length buf.old) }
        requires kind { IsOf A.kind call }
        ensures call { let kind = A.kind in
            IsCall kind.says self.process result.0 call given.now buf.old buf.new result.1 }
        ensures waits { let kind = A.kind in IsWaiting kind.waiting result.1 →
            WaitsIn result.0 call }
        ensures free { let kind = A.kind in IsOver kind.waiting result.1 → IsFree result.0 }
        ensures begun { IsSome (waiting_room result.0.left result.0.number) →
            WaitsIn result.0 call }
    {
        let room = buf.len();
        let (inside, mut state) = begin::<L>(self.walk, self.number);
        let answer = A::ask(&mut state.books, self.number, call, given, buf);
        let returned = A::of_answer(answer);
        let seat = depart_after(mq, inside, state, answer.reply);
        (departed_of(seat, wait_begun(answer.reply, room)), returned)
    }

    /// As [`Process::are_blocked`].
    pub fn are_blocked(self, mq: &Mq<L>, processes: &[u32]) -> (Departed<L>, bool)
        requires made { self.process.lock ≡ mq.now }
        ensures blocked { result.1 ≡ list_all (is_blocked result.0.left) processes.now }
        ensures calls { Calls self.process result.0 [] }
        ensures wait { waiting_room result.0.left result.0.number ≡
            waiting_room self.process.left self.process.number }
        ensures told { KeepsAnswered self.process result.0 }
    {
        let (inside, state) = begin::<L>(self.walk, self.number);
        let blocked = all_blocked(&state.books, processes);
        (departed_of(depart(mq, inside, state), self.waits), blocked)
    }

    /// Releases the lock without a call.
    pub fn leave(self, mq: &Mq<L>) -> Departed<L>
        requires made { self.process.lock ≡ mq.now }
        ensures calls { Calls self.process result [] }
        ensures wait { waiting_room result.left result.number ≡
            waiting_room self.process.left self.process.number }
        ensures told { KeepsAnswered self.process result }
    {
        self.are_blocked(mq, &[]).0
    }
}

// The buffer length that the wait needs which this reply begins.
#[inline(always)]
fn wait_begun(reply: Reply, room: usize) -> Option<usize>
    ensures { result ≡ wait_begun reply room }
{
    match reply {
        Reply::Waits => Some(room),
        _ => None,
    }
}

fn all_blocked(books: &Books, processes: &[u32]) -> bool
    ensures { result ≡ list_all (is_blocked books.now.records) processes.now }
{
    processes
        .iter()
        .all(|p| books.waiting(*p).is_some() && !books.answered(*p))
}
