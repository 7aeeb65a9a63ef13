//! Names, descriptors and queues, by a scan of the entries before a place.
#![tactic(auto, using(mq_model::proofs::Prefixes::prefixes))]

ghost use Rattle.std.specs.Prelude.{◌≡◌, ◌+◌, ◌<◌, ◌≤◌, ◌∷◌, length};
ghost use Rattle.mq_model.specs.Record.{first, record_at};
ghost use Rattle.std.specs.Option.{option_map};
ghost use Rattle.mq_model.specs.Names.{creates, unlinks, bound_queue, name_of, attributes};
ghost use Rattle.mq_model.specs.Descriptors.{opened_queue, held, called_queue, is_place, is_named, alive};
ghost use Rattle.mq_checker.specs.CheckerTables.{TablesMirror};

use crate::tables::{Tables, is_held};
use mq_model::callers::share;
use mq_model::entries::{Attr, Call, Description, Entry, Reply};
use mq_model::error_order::{DEFAULT_ATTRIBUTES, attributes_given};
use mq_model::journals::Journal;

/// The entry at a place. It is inlined, so that only what the caller reads is loaded.
#[inline(always)]
pub fn entry_at(journal: &Journal, place: u64) -> Entry
    requires { place < length journal.now.records }
    ensures { first (place + 1) journal.now.records
        ≡ record { entry = result; payload = name_of journal.now.records place }
        ∷ first place journal.now.records }
{
    match journal.entry(place) {
        Some(entry) => entry,
        None => unreachable!(),
    }
}

// The queue that a name is bound to before place `k`.
pub(crate) fn bound_queue(journal: &Journal, k: u64, name: &[u8]) -> Option<u64>
    requires { k ≤ length journal.now.records }
    ensures { result ≡ bound_queue (first k journal.now.records) name.now }
{
    for i in (0..k).rev() {
        let (entry, payload) = journal.record(i);
        if payload == name && entry.call.creates(entry.reply) {
            return Some(i);
        }
        if payload == name && entry.call.unlinks(entry.reply) {
            return None;
        }
    }
    None
}

pub(crate) fn opened_queue(journal: &Journal, k: u64, name: &[u8], created: bool) -> u64
    requires { k ≤ length journal.now.records }
    ensures { result ≡ opened_queue (first k journal.now.records) name.now created }
{
    if created {
        k
    } else {
        bound_queue(journal, k, name).unwrap_or(0)
    }
}

/// What the process of caller `p` holds under `d` before place `k`.
#[tactic(auto, using(mq_model::proofs::Prefixes::prefixes, crate::proofs::Flagged::flagged_twice))]
pub fn held(journal: &Journal, k: u64, p: u32, d: u32) -> Option<Description>
    requires { k ≤ length journal.now.records }
    ensures { result ≡ held (first k journal.now.records) p d }
{
    let mut flag = None;
    for i in (0..k).rev() {
        let entry = entry_at(journal, i);
        if share(entry.process, p) {
            match entry.call {
                Call::MqOpen { flags, attr: _ } => {
                    if let Reply::Opened { d: e, created } = entry.reply {
                        if e == d {
                            let (_, name) = journal.record(i);
                            let queue = opened_queue(journal, i, name, created);
                            let nonblock = flag.unwrap_or(flags.nonblock);
                            return Some(Description {
                                queue,
                                access: flags.access,
                                nonblock,
                            });
                        }
                    }
                }
                Call::MqClose { d: e } => {
                    if let Reply::Done = entry.reply {
                        if e == d {
                            return None;
                        }
                    }
                }
                Call::MqSetattr { d: e, nonblock } => {
                    if let Reply::Attrs(_) = entry.reply {
                        if e == d {
                            flag = Some(flag.unwrap_or(nonblock));
                        }
                    }
                }
                _ => {}
            }
        }
    }
    None
}

/// Whether a call of caller `p` at place `k` is made on queue `q`.
pub fn is_on(journal: &Journal, k: u64, p: u32, call: Call, q: u64) -> bool
    requires { k ≤ length journal.now.records }
    ensures { result ≡ is_place q (called_queue (first k journal.now.records) p call) }
{
    match call.descriptor() {
        Some(d) => match held(journal, k, p, d) {
            Some(h) => h.queue == q,
            None => false,
        },
        None => false,
    }
}

// The entry at place `m`, if that is before place `k`.
pub(crate) fn entry_before(journal: &Journal, k: u64, m: u64) -> Option<Entry>
    requires { k ≤ length journal.now.records }
    ensures { result ≡ option_map (λ r. r.entry) (record_at (first k journal.now.records) m) }
{
    if m < k { journal.entry(m) } else { None }
}

// The attributes of queue `q`.
pub(crate) fn attributes(journal: &Journal, k: u64, q: u64) -> Attr
    requires { k ≤ length journal.now.records }
    ensures { result ≡ attributes (first k journal.now.records) q }
{
    match entry_before(journal, k, q) {
        Some(entry) => attributes_given(entry.call),
        None => DEFAULT_ATTRIBUTES,
    }
}

// Whether queue `q` is still bound to its name at place `k`.
pub(crate) fn is_named(journal: &Journal, k: u64, q: u64) -> bool
    requires place { q < k }
    requires bound { k ≤ length journal.now.records }
    ensures { result ≡ is_named (first k journal.now.records) q }
{
    let (_, name) = journal.record(q);
    match bound_queue(journal, k, name) {
        Some(bound) => bound == q,
        None => false,
    }
}

// The number of queues that exist at place `k`.
pub(crate) fn alive_count(journal: &Journal, k: u64, tables: &Tables) -> u64
    requires bound { k ≤ length journal.now.records }
    requires mirror { TablesMirror (first k journal.now.records) tables.now }
    ensures { result ≡ length (alive (first k journal.now.records)) }
{
    let mut count = 0;
    for i in 0..k {
        let (entry, _) = journal.record(i);
        if entry.call.creates(entry.reply) {
            if is_named(journal, k, i) || is_held(journal, k, tables, i) {
                count += 1;
            }
        }
    }
    count
}
