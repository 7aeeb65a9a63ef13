//! The reply to each call, from the entries before it: the facts that it depends on, taken from the
//! tables and the entries, and the reply that the order of errors of `mq_model` gives for them.
//! Facts that the reply does not depend on are not looked up.
#![tactic(auto, using(mq_model::proofs::Prefixes::prefixes))]

ghost use Rattle.std.specs.Prelude.{◌≡◌, ◌≤◌, ◌==◌, ◌&&◌, length, IsTrue, IfSome, is_some, None, if◌then◌else◌};
ghost use Rattle.mq_model.specs.Record.{first};
ghost use Rattle.mq_model.specs.Descriptors.{held, created, alive, lowest_free};
ghost use Rattle.mq_model.specs.Messages.{is_in, present, best, least, waiting_sends, waiting_receives};
ghost use Rattle.mq_model.specs.Names.{attributes, bound_queue};
ghost use Rattle.mq_model.specs.Notices.{registered_place};
ghost use Rattle.mq_model.specs.Legality.{reply_to_open, reply_to_send, reply_to_receive, reply_to_attributes, reply_to_notify, reply_to, Legal};
ghost use Rattle.mq_checker.specs.CheckerTables.{TablesMirror};

use crate::scan_messages::{best, present_count};
use crate::scan_names::{alive_count, attributes, bound_queue};
use crate::scan_notices::{next_notice, registered};
use crate::tables;
use crate::tables::Tables;
use mq_model::callers::WaitKind;
use mq_model::entries::{Attr, Call, Description, OpenFlags, Reply};
use mq_model::error_order;
use mq_model::error_order::{NotifyFacts, OpenFacts, ReceiveFacts, SendFacts, StatusFacts};
use mq_model::journals::Journal;

// The number of queues that exist. It matters only if the name of an open is not bound.
fn queues_unless(journal: &Journal, k: u64, tables: &Tables, bound: bool) -> u64
    requires bound { k ≤ length journal.now.records }
    requires mirror { TablesMirror (first k journal.now.records) tables.now }
    ensures { result ≡ (if bound then 0 else length (alive (first k journal.now.records))) }
{
    if bound {
        0
    } else {
        alive_count(journal, k, tables)
    }
}

fn open_facts(journal: &Journal, k: u64, tables: &Tables, p: u32, name: &[u8]) -> OpenFacts
    requires bound { k ≤ length journal.now.records }
    requires mirror { TablesMirror (first k journal.now.records) tables.now }
    ensures bound { result.bound ≡ is_some (bound_queue (first k journal.now.records) name.now) }
    ensures free { result.free ≡ lowest_free (first k journal.now.records) p }
    ensures queues { result.queues ≡
        (if result.bound then 0 else length (alive (first k journal.now.records))) }
{
    let bound = bound_queue(journal, k, name).is_some();
    let free = tables::lowest_free(journal, k, tables, p);
    let queues = queues_unless(journal, k, tables, bound);
    OpenFacts {
        bound,
        free,
        queues,
    }
}

fn reply_to_open(
    journal: &Journal,
    k: u64,
    tables: &Tables,
    p: u32,
    flags: OpenFlags,
    attr: Option<Attr>,
    name: &[u8],
) -> Reply
    requires bound { k ≤ length journal.now.records }
    requires mirror { TablesMirror (first k journal.now.records) tables.now }
    ensures { result ≡ reply_to_open (first k journal.now.records) p flags attr name.now }
{
    let facts = open_facts(journal, k, tables, p, name);
    error_order::open(flags, attr, facts)
}

fn registered_place(journal: &Journal, k: u64, q: u64) -> Option<u64>
    requires { k ≤ length journal.now.records }
    ensures { result ≡ registered_place (first k journal.now.records) q }
{
    match registered(journal, k, q) {
        Some(n) => Some(n.place),
        None => None,
    }
}

// The place of the registration on queue `q`. It matters only if the call may notify.
fn registered_if(journal: &Journal, k: u64, q: u64, counts: bool) -> Option<u64>
    requires { k ≤ length journal.now.records }
    ensures { result ≡ (if counts then registered_place (first k journal.now.records) q else None) }
{
    if counts {
        registered_place(journal, k, q)
    } else {
        None
    }
}

fn send_facts(journal: &Journal, k: u64, tables: &Tables, h: Description) -> SendFacts
    requires bound { k ≤ length journal.now.records }
    requires mirror { TablesMirror (first k journal.now.records) tables.now }
    requires legal { Legal (first k journal.now.records) }
    ensures description { result.description ≡ h }
    ensures attributes { result.attributes ≡ attributes (first k journal.now.records) h.queue }
    ensures count { result.count ≡ length (present (first k journal.now.records) h.queue) }
    ensures waiting { result.waiting ≡
        least (waiting_receives (first k journal.now.records) h.queue) }
    ensures registered { result.registered ≡
        (if result.count == 0 then registered_place
        (first k journal.now.records) h.queue else None) }
{
    let count = present_count(journal, k, &tables.marks, h.queue);
    SendFacts {
        description: h,
        attributes: attributes(journal, k, h.queue),
        count,
        waiting: tables::first_wait(journal, k, tables, h.queue, WaitKind::Receive),
        registered: registered_if(journal, k, h.queue, count == 0),
    }
}

fn reply_to_send(
    journal: &Journal,
    k: u64,
    tables: &Tables,
    held: Option<Description>,
    prio: u32,
    len: u64,
) -> Reply
    requires bound { k ≤ length journal.now.records }
    requires mirror { TablesMirror (first k journal.now.records) tables.now }
    requires legal { Legal (first k journal.now.records) }
    ensures { result ≡ reply_to_send (first k journal.now.records) held prio len }
{
    match held {
        None => error_order::send(prio, len, None),
        Some(h) => {
            let facts = send_facts(journal, k, tables, h);
            error_order::send(prio, len, Some(facts))
        }
    }
}

// The number of messages in queue `q`. It matters only if a send waits.
fn count_if(journal: &Journal, k: u64, tables: &Tables, q: u64, waits: bool) -> u64
    requires bound { k ≤ length journal.now.records }
    requires mirror { TablesMirror (first k journal.now.records) tables.now }
    ensures { result ≡ (if waits then length (present (first k journal.now.records) q) else 0) }
{
    if waits {
        present_count(journal, k, &tables.marks, q)
    } else {
        0
    }
}

fn receive_facts(journal: &Journal, k: u64, tables: &Tables, h: Description) -> ReceiveFacts
    requires bound { k ≤ length journal.now.records }
    requires mirror { TablesMirror (first k journal.now.records) tables.now }
    requires legal { Legal (first k journal.now.records) }
    ensures description { result.description ≡ h }
    ensures attributes { result.attributes ≡ attributes (first k journal.now.records) h.queue }
    ensures count { result.count ≡ (if is_some result.waiting then length
        (present (first k journal.now.records) h.queue) else 0) }
    ensures best { result.best ≡ best (first k journal.now.records) h.queue }
    ensures waiting { result.waiting ≡ least (waiting_sends (first k journal.now.records) h.queue) }
    ensures registered { result.registered ≡
        (if is_some result.waiting && result.count == 1 then registered_place
        (first k journal.now.records) h.queue else None) }
{
    let waiting = tables::first_wait(journal, k, tables, h.queue, WaitKind::Send);
    let waits = waiting.is_some();
    let count = count_if(journal, k, tables, h.queue, waits);
    ReceiveFacts {
        description: h,
        attributes: attributes(journal, k, h.queue),
        count,
        best: best(journal, k, &tables.marks, h.queue),
        waiting,
        registered: registered_if(journal, k, h.queue, waits && count == 1),
    }
}

fn reply_to_receive(
    journal: &Journal,
    k: u64,
    tables: &Tables,
    held: Option<Description>,
    room: u64,
) -> Reply
    requires bound { k ≤ length journal.now.records }
    requires mirror { TablesMirror (first k journal.now.records) tables.now }
    requires legal { Legal (first k journal.now.records) }
    ensures { result ≡ reply_to_receive (first k journal.now.records) held room }
{
    match held {
        None => error_order::receive(room, None),
        Some(h) => {
            let facts = receive_facts(journal, k, tables, h);
            error_order::receive(room, Some(facts))
        }
    }
}

// The number of messages in queue `q`.
fn few_present(journal: &Journal, k: u64, tables: &Tables, q: u64) -> u64
    requires bound { k ≤ length journal.now.records }
    requires legal { Legal (first k journal.now.records) }
    requires created { IsTrue (is_in (created (first k journal.now.records)) q) }
    requires mirror { TablesMirror (first k journal.now.records) tables.now }
    ensures count { result ≡ length (present (first k journal.now.records) q) }
    ensures few { result ≤ 4096 }
{
    present_count(journal, k, &tables.marks, q)
}

fn reply_to_attributes(
    journal: &Journal,
    k: u64,
    tables: &Tables,
    held: Option<Description>,
) -> Reply
    requires bound { k ≤ length journal.now.records }
    requires legal { Legal (first k journal.now.records) }
    requires created { IfSome held (λ h.
        IsTrue (is_in (created (first k journal.now.records)) h.queue)) }
    requires mirror { TablesMirror (first k journal.now.records) tables.now }
    ensures { result ≡ reply_to_attributes (first k journal.now.records) held }
{
    match held {
        None => error_order::status(None),
        Some(h) => error_order::status(Some(StatusFacts {
            description: h,
            attributes: attributes(journal, k, h.queue),
            count: few_present(journal, k, tables, h.queue),
        })),
    }
}

fn reply_to_notify(
    journal: &Journal,
    k: u64,
    p: u32,
    held: Option<Description>,
    value: Option<u64>,
) -> Reply
    requires { k ≤ length journal.now.records }
    ensures { result ≡ reply_to_notify (first k journal.now.records) p held value }
{
    match held {
        None => error_order::notify(p, value, None),
        Some(h) => error_order::notify(
            p,
            value,
            Some(NotifyFacts {
                registered: registered(journal, k, h.queue),
            }),
        ),
    }
}

// What process `p` holds under `d`, with the fact that its queue was created.
fn held_created(journal: &Journal, k: u64, tables: &Tables, p: u32, d: u32) -> Option<Description>
    requires mirror { TablesMirror (first k journal.now.records) tables.now }
    requires bound { k ≤ length journal.now.records }
    requires legal { Legal (first k journal.now.records) }
    ensures held { result ≡ held (first k journal.now.records) p d }
    ensures created { IfSome result (λ h.
        IsTrue (is_in (created (first k journal.now.records)) h.queue)) }
{
    tables::held(journal, k, tables, p, d)
}

// The reply to a call at place `k`.
pub(crate) fn reply_to(
    journal: &Journal,
    k: u64,
    tables: &Tables,
    p: u32,
    call: Call,
    name: &[u8],
) -> Reply
    requires bound { k ≤ length journal.now.records }
    requires legal { Legal (first k journal.now.records) }
    requires mirror { TablesMirror (first k journal.now.records) tables.now }
    ensures { result ≡ reply_to (first k journal.now.records) p call name.now }
{
    match call {
        Call::MqOpen { flags, attr } => reply_to_open(journal, k, tables, p, flags, attr, name),
        Call::MqClose { d } => error_order::close(tables::held(journal, k, tables, p, d)),
        Call::MqUnlink => error_order::unlink(bound_queue(journal, k, name)),
        Call::MqSend { d, prio, len } => reply_to_send(
            journal,
            k,
            tables,
            tables::held(journal, k, tables, p, d),
            prio,
            len,
        ),
        Call::MqReceive { d, room } => reply_to_receive(
            journal,
            k,
            tables,
            tables::held(journal, k, tables, p, d),
            room,
        ),
        Call::MqTimedSend {
            d,
            prio,
            len,
            until,
            now,
        } => {
            let held = tables::held(journal, k, tables, p, d);
            error_order::timed(
                until,
                now,
                reply_to_send(journal, k, tables, held, prio, len),
            )
        }
        Call::MqTimedReceive {
            d,
            room,
            until,
            now,
        } => {
            let held = tables::held(journal, k, tables, p, d);
            error_order::timed(until, now, reply_to_receive(journal, k, tables, held, room))
        }
        Call::MqGetattr { d } | Call::MqSetattr { d, .. } => reply_to_attributes(
            journal,
            k,
            tables,
            held_created(journal, k, tables, p, d),
        ),
        Call::MqNotify { d, value } => reply_to_notify(
            journal,
            k,
            p,
            tables::held(journal, k, tables, p, d),
            value,
        ),
        Call::NextNotice => Reply::Notice(next_notice(journal, k, p)),
        Call::Collect => Reply::Collected {
            by: tables::answer(journal, k, tables, p).unwrap_or(0),
        },
        Call::Withdraw { now: _ } => Reply::Withdrawn {
            wait: tables::wait(journal, k, tables, p).unwrap_or(0),
        },
    }
}
