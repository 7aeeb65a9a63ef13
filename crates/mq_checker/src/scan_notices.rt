//! Registrations and notices, by a scan of the entries before a place.
#![tactic(auto, using(mq_model::proofs::Prefixes::prefixes))]

ghost use Rattle.std.specs.Prelude.{◌≡◌, ◌≤◌, length, slice_get};
ghost use Rattle.mq_model.specs.Record.{first, record_at};
ghost use Rattle.mq_model.specs.Notices.{registered, value_of_notify, value_given, gives_notice, notices_given, notices};

use crate::scan_names::{entry_at, is_on};
use mq_model::callers::share;
use mq_model::entries::{Call, Registration, Reply};
use mq_model::journals::Journal;
use mq_model::registrations::{notified, registration_after, touches_registrations};

/// The registration on queue `q` before place `k`.
pub fn registered(journal: &Journal, k: u64, q: u64) -> Option<Registration>
    requires { k ≤ length journal.now.records }
    ensures { result ≡ registered (first k journal.now.records) q }
{
    let mut registration = None;
    for i in 0..k {
        let entry = entry_at(journal, i);
        if touches_registrations(entry) {
            let on = is_on(journal, i, entry.process, entry.call, q);
            registration = registration_after(on, i, entry, registration);
        }
    }
    registration
}

pub(crate) fn value_of_notify(call: Call) -> Option<u64>
    ensures { result ≡ value_of_notify call }
{
    match call {
        Call::MqNotify { d: _, value } => value,
        _ => None,
    }
}

// The value that the process of caller `p` gave to its registration at a place.
pub(crate) fn value_given(journal: &Journal, k: u64, p: u32, place: u64) -> Option<u64>
    requires { k ≤ length journal.now.records }
    ensures { result ≡ value_given p (record_at (first k journal.now.records) place) }
{
    let mut value = None;
    for i in 0..k {
        let (entry, _) = journal.record(i);
        if place == i {
            value = if share(entry.process, p) {
                value_of_notify(entry.call)
            } else {
                None
            };
        }
    }
    value
}

pub(crate) fn gives_notice(reply: Reply) -> bool
    ensures { result ≡ gives_notice reply }
{
    match reply {
        Reply::Notice(value) => match value {
            Some(_) => true,
            None => false,
        },
        _ => false,
    }
}

// The number of notices that the process of caller `p` took before place `k`.
pub(crate) fn notices_given(journal: &Journal, k: u64, p: u32) -> u64
    requires { k ≤ length journal.now.records }
    ensures count { result ≡ notices_given (first k journal.now.records) p }
    ensures bound { result ≤ k }
{
    let mut count = 0;
    for i in 0..k {
        let (entry, _) = journal.record(i);
        if share(entry.process, p) && gives_notice(entry.reply) {
            count += 1;
        }
    }
    count
}

// The notice that the process of caller `p` takes next at place `k`.
pub(crate) fn next_notice(journal: &Journal, k: u64, p: u32) -> Option<u64>
    requires { k ≤ length journal.now.records }
    ensures { result ≡ slice_get (notices (first k journal.now.records) p) 0 }
{
    let given = notices_given(journal, k, p);
    let mut seen = 0;
    let mut notice = None;
    for i in 0..k {
        let (entry, _) = journal.record(i);
        if let Some(place) = notified(entry.reply) {
            if let Some(value) = value_given(journal, i, p, place) {
                if seen == given {
                    notice = Some(value);
                }
                seen += 1;
            }
        }
    }
    notice
}
