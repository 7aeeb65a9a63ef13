//! What the tables say about the journal: the facts that a reply depends on, and the reply that the
//! order of errors gives for them.
ghost use Rattle.std.specs.Prelude.{◌≡◌, ◌<◌, ◌≤◌, ◌^◌, IfSome, IsSome, IsTrue, false, ℕ, List, length};
ghost use Rattle.std.specs.Option.{option_and_then, option_map};
ghost use Rattle.mq_model.specs.Names.{attributes, bound_queue};
ghost use Rattle.mq_model.specs.Descriptors.{held, alive};
ghost use Rattle.mq_model.specs.Record.{Past};
ghost use Rattle.mq_model.specs.Messages.{is_in, present, best};
ghost use Rattle.mq_model.specs.Notices.{registered};
ghost use Rattle.mq_model.specs.Legality.{Legal, may_call, reply_to, reply_to_send, reply_to_receive};
ghost use Rattle.mq_ledger.specs.Ledgers.{IsReadable};
ghost use Rattle.mq_state.specs.Kept.{Mirrors, AreThoseOf};
ghost use Rattle.mq_state.specs.Queues.{waiting_in};
ghost use Rattle.mq_state.specs.WaitCounts.{KnowWaits};
ghost use Rattle.mq_state.specs.Requests.{without_deadline};

use crate::notices;
use crate::prefixes::Prefix;
use crate::queues::{self, LineFacts};
use crate::tables::Tables;
use mq_model::callers::WaitKind;
use mq_model::entries::{Call, Description, Registration, Reply};
use mq_model::error_order::{NotifyFacts, OpenFacts, ReceiveFacts, SendFacts, StatusFacts};
use mq_model::{callers, error_order, owners};

// The sequence number of a message.
fn message_place(message: Option<(u32, u64)>) -> Option<u64>
    ensures { result ≡ option_map (λ m. m.1) message }
{
    match message {
        None => None,
        Some((_, place)) => Some(place),
    }
}

// The sequence number of a registration.
fn registration_place(registration: Option<Registration>) -> Option<u64>
    ensures { result ≡ option_map (λ n. n.place) registration }
{
    match registration {
        None => None,
        Some(n) => Some(n.place),
    }
}

// The reply to a call, given the reply to the same call without its deadline. The deadline matters
// only if the call would wait.
#[inline(always)]
pub(super) fn by_deadline(call: Call, plain: Reply) -> Reply
    ensures { (past : Past) (p : ℕ) (name : List ℕ) →
        plain ≡ reply_to past p (without_deadline call) name → result ≡ reply_to past p call name }
{
    match call {
        Call::MqTimedSend { until, now, .. } | Call::MqTimedReceive { until, now, .. } => {
            error_order::timed(until, now, plain)
        }
        _ => plain,
    }
}

impl Tables {
    // What process p holds under descriptor d: a queue that exists.
    #[inline(always)]
    pub(super) fn held(&self, journal: &Prefix<'_>, p: u32, d: u32) -> Option<Description>
        requires mirror { Mirrors journal.now self.now }
        requires legal { Legal journal.now.records }
        ensures held { result ≡ held journal.now.records p d }
        ensures alive { IfSome result (λ h. IsTrue (is_in (alive journal.now.records) h.queue)) }
    {
        owners::held(&self.owners, p, d)
    }

    /// The queue of descriptor d of process p, if it holds one.
    pub fn held_queue(&self, journal: &Prefix<'_>, p: u32, d: u32) -> Option<u64>
        requires { Mirrors journal.now self.now }
        ensures { result ≡ option_map (λ h. h.queue) (held journal.now.records p d) }
    {
        match owners::held(&self.owners, p, d) {
            None => None,
            Some(h) => Some(h.queue),
        }
    }

    /// The registration on the queue of descriptor d of process p.
    pub fn held_registration(&self, journal: &Prefix<'_>, p: u32, d: u32) -> Option<Registration>
        requires mirror { Mirrors journal.now self.now }
        requires legal { Legal journal.now.records }
        ensures { result ≡ option_and_then (registered journal.now.records)
            (option_map (λ h. h.queue) (held journal.now.records p d)) }
    {
        match self.held(journal, p, d) {
            None => None,
            Some(h) => self.line(journal, h.queue, self.hint(h.queue)).registration,
        }
    }

    // The queue that a name is bound to.
    pub(crate) fn bound(&self, journal: &Prefix<'_>, name: &[u8]) -> Option<u64>
        requires legal { Legal journal.now.records }
        requires readable { IsReadable journal.now }
        requires mirror { Mirrors journal.now self.now }
        ensures { result ≡ bound_queue journal.now.records name.now }
    {
        queues::bound(journal, &self.queues, name)
    }

    // The row of queue q: its limits, its messages and its registration.
    #[inline(always)]
    fn line(&self, journal: &Prefix<'_>, q: u64, hint: usize) -> LineFacts
        requires mirror { Mirrors journal.now self.now }
        requires alive { IsTrue (is_in (alive journal.now.records) q) }
        ensures count { result.count ≡ length (present journal.now.records q) }
        ensures bound { result.count < 2 ^ 63 }
        ensures best { option_map (λ m. m.1) result.best ≡ best journal.now.records q }
        ensures registered { result.registration ≡ registered journal.now.records q }
        ensures attributes { result.attributes ≡ attributes journal.now.records q }
        ensures waiting { result.waiting ≡ waiting_in self.now.queues.items q }
    {
        queues::line(&self.queues, q, hint)
    }
}

impl Tables {
    // The reply to a send on this descriptor. If `quiet`, there is none if some process waits on its
    // queue: the usual calls have no code for that.
    #[inline(always)]
    pub(super) fn reply_to_send(
        &self,
        journal: &Prefix<'_>,
        held: Option<Description>,
        hint: usize,
        quiet: bool,
        prio: u32,
        len: u64,
    ) -> Option<Reply>
        requires mirror { Mirrors journal.now self.now }
        requires legal { Legal journal.now.records }
        requires alive { IfSome held (λ h. IsTrue (is_in (alive journal.now.records) h.queue)) }
        requires few { self.now.n ≤ 2048 }
        requires known { KnowWaits self.now.callers.items self.now.queues.items }
        ensures reply { IfSome result (λ reply.
            reply ≡ reply_to_send journal.now.records held prio len) }
        ensures any { quiet ≡ false → IsSome result }
    {
        let Some(h) = held else {
            return Some(error_order::send(prio, len, None));
        };
        let line = self.line(journal, h.queue, hint);
        if quiet && line.waiting != 0 {
            return None;
        }
        let facts = SendFacts {
            description: h,
            attributes: line.attributes,
            count: line.count as u64,
            waiting: self.first_wait(journal, h.queue, WaitKind::Receive, line.waiting),
            registered: registration_place(line.registration),
        };
        Some(error_order::send(prio, len, Some(facts)))
    }

    // The same for a receive.
    #[inline(always)]
    pub(super) fn reply_to_receive(
        &self,
        journal: &Prefix<'_>,
        held: Option<Description>,
        hint: usize,
        quiet: bool,
        room: u64,
    ) -> Option<Reply>
        requires mirror { Mirrors journal.now self.now }
        requires legal { Legal journal.now.records }
        requires alive { IfSome held (λ h. IsTrue (is_in (alive journal.now.records) h.queue)) }
        requires few { self.now.n ≤ 2048 }
        requires known { KnowWaits self.now.callers.items self.now.queues.items }
        ensures reply { IfSome result (λ reply.
            reply ≡ reply_to_receive journal.now.records held room) }
        ensures any { quiet ≡ false → IsSome result }
    {
        let Some(h) = held else {
            return Some(error_order::receive(room, None));
        };
        let line = self.line(journal, h.queue, hint);
        if quiet && line.waiting != 0 {
            return None;
        }
        let facts = ReceiveFacts {
            description: h,
            attributes: line.attributes,
            count: line.count as u64,
            best: message_place(line.best),
            waiting: self.first_wait(journal, h.queue, WaitKind::Send, line.waiting),
            registered: registration_place(line.registration),
        };
        Some(error_order::receive(room, Some(facts)))
    }

    // The reply to a call of process p without its deadline. `name` is the name of an open or an
    // unlink.
    pub(super) fn plain_reply(&self, journal: &Prefix<'_>, p: u32, call: Call, name: &[u8]) -> Reply
        requires readable { IsReadable journal.now }
        requires tables { AreThoseOf journal.now.records self.now }
        ensures { result ≡ reply_to journal.now.records p (without_deadline call) name.now }
    {
        match call {
            Call::MqOpen { flags, attr } => {
                let facts = OpenFacts {
                    bound: self.bound(journal, name).is_some(),
                    free: owners::free_number(&self.owners, p),
                    queues: self.queues.len() as u64,
                };
                error_order::open(flags, attr, facts)
            }
            Call::MqClose { d } => error_order::close(self.held(journal, p, d)),
            Call::MqUnlink => error_order::unlink(self.bound(journal, name)),
            Call::MqSend { d, prio, len } | Call::MqTimedSend { d, prio, len, .. } => {
                let held = self.held(journal, p, d);
                let hint = self.hint_of(held);
                self.reply_to_send(journal, held, hint, false, prio, len)
                    .unwrap()
            }
            Call::MqReceive { d, room } | Call::MqTimedReceive { d, room, .. } => {
                let held = self.held(journal, p, d);
                let hint = self.hint_of(held);
                self.reply_to_receive(journal, held, hint, false, room)
                    .unwrap()
            }
            Call::MqGetattr { d } | Call::MqSetattr { d, .. } => match self.held(journal, p, d) {
                Some(h) => {
                    let line = self.line(journal, h.queue, self.hint(h.queue));
                    let facts = StatusFacts {
                        description: h,
                        attributes: line.attributes,
                        count: line.count as u64,
                    };
                    error_order::status(Some(facts))
                }
                None => error_order::status(None),
            },
            Call::MqNotify { d, value } => match self.held(journal, p, d) {
                Some(h) => {
                    let line = self.line(journal, h.queue, self.hint(h.queue));
                    let registered = line.registration;
                    error_order::notify(p, value, Some(NotifyFacts { registered }))
                }
                None => error_order::notify(p, value, None),
            },
            Call::NextNotice => Reply::Notice(notices::first(&self.inboxes, p)),
            Call::Collect => Reply::Collected {
                by: self.answer(p).unwrap_or(0),
            },
            Call::Withdraw { .. } => Reply::Withdrawn {
                wait: self.wait(p).unwrap_or(0),
            },
        }
    }

    // The reply to a call of process p. `name` is the name of an open or an unlink.
    pub(crate) fn reply_to(&self, journal: &Prefix<'_>, p: u32, call: Call, name: &[u8]) -> Reply
        requires readable { IsReadable journal.now }
        requires tables { AreThoseOf journal.now.records self.now }
        ensures { result ≡ reply_to journal.now.records p call name.now }
    {
        by_deadline(call, self.plain_reply(journal, p, call, name))
    }

    // Whether process p may make a call now.
    pub(crate) fn may_call(&self, journal: &Prefix<'_>, p: u32, call: Call) -> bool
        requires mirror { Mirrors journal.now self.now }
        ensures { result ≡ may_call journal.now.records p call }
    {
        match call {
            Call::Collect => self.answer(p).is_some(),
            Call::Withdraw { now } => match callers::wait(&self.callers, p) {
                None => false,
                Some(wait) => self.answer(p).is_none() && error_order::is_over(wait.until, now),
            },
            _ => self.wait(p).is_none(),
        }
    }
}
