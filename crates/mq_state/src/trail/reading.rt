//! What the tables of a trail say about its journal, without a scan of the entries.
ghost use Rattle.std.specs.Prelude.{◌≡◌, ◌≤◌, ◌<◌, ℕ, IfOk, IfSome, IsTrue, None, Some, length, map, slice_get};
ghost use Rattle.mq_model.specs.Names.{bound_queue};
ghost use Rattle.mq_model.specs.Descriptors.{alive, held};
ghost use Rattle.mq_model.specs.Messages.{is_in, present};
ghost use Rattle.mq_model.specs.Notices.{notices, registered};
ghost use Rattle.mq_model.specs.Waits.{answered_by, open_wait, wait_deadline};
ghost use Rattle.mq_model.specs.Callers.{pending_in, waiting};
ghost use Rattle.mq_state.specs.Buffers.{room_of, waiting_room};
ghost use Rattle.mq_state.specs.Waiting.{IsLastWait, later};

use crate::prefixes::Prefix;
use crate::trail::Trail;
use crate::{notices, queues};
use mq_model::callers::{self, Caller, WaitKind};
use mq_model::entries::{Call, Deadline, Description, Registration};
use mq_model::owners;
use std::alloc::{AllocError, Global};

impl Trail {
    /// What caller p's process holds under descriptor d.
    pub fn held(&self, p: u32, d: u32) -> Option<Description>
        ensures { result ≡ held self.now p d }
    {
        owners::held(&self.tables.owners, p, d)
    }

    /// The sequence number of the open wait of caller p.
    pub fn wait(&self, p: u32) -> Option<u64>
        ensures { result ≡ open_wait self.now p }
    {
        self.tables.wait(p)
    }

    /// The deadline of the open wait of caller p.
    pub fn deadline(&self, p: u32) -> Option<Deadline>
        ensures { result ≡ wait_deadline self.now p }
    {
        match callers::wait(&self.tables.callers, p) {
            None => None,
            Some(wait) => wait.until,
        }
    }

    /// The buffer length of the receive in which caller p waits, or 0 if it waits in a send.
    pub fn waiting_room(&self, p: u32) -> Option<u64>
        ensures { result ≡ waiting_room self.now p }
    {
        match self.tables.wait(p) {
            None => None,
            Some(_) => Some(room_of(self.tables.waiting_call(p))),
        }
    }

    /// The sequence number of the entry that answers the open wait of caller p.
    pub fn answer(&self, p: u32) -> Option<u64>
        ensures { result ≡ answered_by self.now p }
    {
        self.tables.answer(p)
    }

    /// The queue that a name is bound to.
    pub fn bound(&self, name: &[u8]) -> Option<u64>
        ensures { result ≡ bound_queue self.now name.now }
    {
        self.tables.bound(&Prefix::of(&self.journal), name)
    }

    /// The queues that exist, the latest first.
    pub fn queues(&self, alloc: Global) -> Result<Vec<u64>, AllocError>
        ensures { IfOk result (λ queues. queues.items ≡ alive self.now) }
    {
        queues::places(alloc, &self.tables.queues)
    }

    /// The registration on queue q, which exists.
    pub fn registration(&self, q: u64) -> Option<Registration>
        requires { IsTrue (is_in (alive self.now) q) }
        ensures { result ≡ registered self.now q }
    {
        queues::registration(&self.tables.queues, q)
    }

    /// The messages in queue q, which exists, the latest first.
    pub fn messages(&self, alloc: Global, q: u64) -> Result<Vec<u64>, AllocError>
        requires { IsTrue (is_in (alive self.now) q) }
        ensures { IfOk result (λ messages. messages.items ≡ present self.now q) }
    {
        let messages = queues::messages(alloc, &self.tables.queues, q)?;
        let places = places_of(alloc, &messages)?;
        Ok(places)
    }

    /// The number of notices that caller p's process has not yet taken.
    pub fn notice_count(&self, p: u32) -> usize
        ensures { result ≡ length (notices self.now p) }
    {
        notices::count(&self.tables.inboxes, p)
    }

    /// The one of these with this many older ones.
    pub fn notice(&self, p: u32, index: usize) -> Option<u64>
        ensures { result ≡ slice_get (notices self.now p) index }
    {
        notices::nth(&self.tables.inboxes, p, index)
    }

    /// The sends, or the receives, that wait on queue q, the latest first.
    pub fn waiting(&self, alloc: Global, q: u64, kind: WaitKind) -> Result<Vec<u64>, AllocError>
        ensures { IfOk result (λ places. places.items ≡ waiting self.now kind q) }
    {
        let mut places = Vec::new(alloc);
        let mut bound = self.journal.len();
        while let Some(place) = last_wait(&self.tables.callers, q, kind, bound) {
            places.push(place)?;
            bound = place;
        }
        Ok(places)
    }
}

// The sequence numbers of these messages.
fn places_of(alloc: Global, messages: &[(u32, u64)]) -> Result<Vec<u64>, AllocError>
    ensures { IfOk result (λ places. places.items ≡ map (λ m. m.1) messages.now) }
{
    let mut places = Vec::new(alloc);
    for i in 0..messages.len() {
        places.push(messages[i].1)?;
    }
    Ok(places)
}

// The buffer length of a receive, and 0 for any other call.
fn room_of(call: Call) -> u64
    ensures { result ≡ room_of call }
{
    match call {
        Call::MqReceive { d: _, room } => room,
        Call::MqTimedReceive {
            d: _,
            room,
            until: _,
            now: _,
        } => room,
        _ => 0,
    }
}

// The greatest place below a bound from which a caller waits on queue q in a call of this kind.
fn last_wait(callers: &[Caller], q: u64, kind: WaitKind, bound: u64) -> Option<u64>
    requires { length callers.now ≤ 2049 }
    ensures none { result ≡ None → (p w : ℕ) →
        pending_in callers.now p q kind ≡ Some w → bound ≤ w }
    ensures some { IfSome result (IsLastWait callers.now q kind bound) }
{
    let mut last: Option<u64> = None;
    for i in 0..callers.len() {
        last = later(last, callers::pending(callers, i as u32, q, kind), bound);
    }
    last
}

// The later of two places, of which the second counts only below a bound.
fn later(last: Option<u64>, place: Option<u64>, bound: u64) -> Option<u64>
    ensures { result ≡ later last place bound }
{
    let Some(new) = place else {
        return last;
    };
    match last {
        None => { if new < bound { Some(new) } else { None } }
        Some(old) => {
            if old < new && new < bound {
                Some(new)
            } else {
                Some(old)
            }
        }
    }
}
