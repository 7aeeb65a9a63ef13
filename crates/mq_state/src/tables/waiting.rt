//! Which callers wait on a queue. The row of a queue has the number of those whose open wait is on
//! it, so one test shows whether any caller waits.
ghost use Rattle.std.specs.Prelude.{◌≡◌, ◌≤◌, IsTrue, length, vec_len, vec_capacity};
ghost use Rattle.mq_model.specs.Descriptors.{alive};
ghost use Rattle.mq_model.specs.Messages.{is_in, least};
ghost use Rattle.mq_model.specs.Legality.{Legal};
ghost use Rattle.mq_model.specs.Callers.{waiting};
ghost use Rattle.mq_state.specs.Kept.{Mirrors};
ghost use Rattle.mq_state.specs.Queues.{waiting_in};
ghost use Rattle.mq_state.specs.WaitCounts.{waits_on, wait_count, KnowWaits, moved_queue, waits_noted};

use crate::moves::WaitMove;
use crate::prefixes::Prefix;
use crate::queues;
use crate::tables::Tables;
use mq_model::callers::{self, Caller, OpenWait, WaitKind};

fn waits_on(q: u64, wait: Option<OpenWait>) -> bool
    ensures { result ≡ waits_on q wait }
{
    match wait {
        None => false,
        Some(w) => w.queue == q,
    }
}

// How many callers wait on queue q.
#[tactic(auto, unfolding(crate::specs::WaitCounts::wait_count))]
fn wait_count(q: u64, callers: &[Caller]) -> u64
    ensures { result ≡ wait_count q callers.now }
{
    callers.iter().filter(|x| waits_on(q, x.wait)).count() as u64
}

// The queue on which an entry of caller p, made on queue q, begins or ends a wait.
#[inline]
pub(crate) fn moved_queue(callers: &[Caller], p: u32, wait: WaitMove, q: u64) -> Option<u64>
    ensures { result ≡ moved_queue callers.now p wait q }
{
    match wait {
        WaitMove::Stays => None,
        WaitMove::Begins => Some(q),
        WaitMove::Ends => match callers::wait(callers, p) {
            None => None,
            Some(open) => Some(open.queue),
        },
    }
}

impl Tables {
    // Updates how many callers wait, in the row of a queue on which a wait began or ended.
    #[inline]
    pub(crate) fn note_waiting(&mut self, moved: Option<u64>)
        ensures same { self.new ≡ record self.old { queues = self.new.queues } }
        ensures queues { self.new.queues.items ≡
            waits_noted moved self.old.callers.items self.old.queues.items }
        ensures room { (vec_len self.new.queues ≡ vec_len self.old.queues) ×
            (vec_capacity self.new.queues ≡ vec_capacity self.old.queues) }
    {
        if let Some(q) = moved {
            let count = wait_count(q, &self.callers);
            queues::set_waiting(&mut self.queues, q, count);
        }
    }

    // The sequence number of the send, or receive, that has waited longest on queue q. `count` is
    // the number of callers that wait on it.
    #[inline(always)]
    pub(crate) fn first_wait(
        &self,
        journal: &Prefix<'_>,
        q: u64,
        kind: WaitKind,
        count: u64,
    ) -> Option<u64>
        requires mirror { Mirrors journal.now self.now }
        requires legal { Legal journal.now.records }
        requires few { self.now.n ≤ 2048 }
        requires alive { IsTrue (is_in (alive journal.now.records) q) }
        requires known { KnowWaits self.now.callers.items self.now.queues.items }
        requires line { count ≡ waiting_in self.now.queues.items q }
        ensures { result ≡ least (waiting journal.now.records kind q) }
    {
        if count == 0 {
            return None;
        }
        self.first_of(journal, q, kind)
    }

    // The same, if some caller waits.
    fn first_of(&self, journal: &Prefix<'_>, q: u64, kind: WaitKind) -> Option<u64>
        requires mirror { Mirrors journal.now self.now }
        requires legal { Legal journal.now.records }
        requires few { self.now.n ≤ 2048 }
        ensures { result ≡ least (waiting journal.now.records kind q) }
    {
        match callers::first_wait(&self.callers, q, kind) {
            None => None,
            Some((_, place)) => Some(place),
        }
    }
}
