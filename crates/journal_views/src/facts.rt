//! Queues, registrations, notices and processes, worked out from a journal.
#![tactic(auto, using(mq_model::proofs::Prefixes::prefixes))]

ghost use Rattle.std.specs.Prelude.{◌≡◌, ◌<◌, ◌≤◌, ◌==◌, ℕ, false, ◌++◌, ◌∷◌, [], IfOk, OnOk, if◌then◌else◌, is_some, length, reverse};
ghost use Rattle.std.specs.List.{list_any};
ghost use Rattle.std.specs.Option.{option_to_list};
ghost use Rattle.mq_model.specs.Record.{first};
ghost use Rattle.mq_model.specs.Descriptors.{alive, held};
ghost use Rattle.mq_model.specs.Notices.{gives_notice, notices, notices_given, registered, value_notified, value_of_notify, values_notified};
ghost use Rattle.mq_model.specs.Waits.{answered_by, open_wait};
ghost use Rattle.journal_views.specs.Followed.{Follows};
ghost use Rattle.journal_views.specs.State.{callers, held_numbers};

use crate::followed::Followed;
use mq_checker::scan_names::entry_at;
use mq_model::callers::{answer, share, wait};
use mq_model::entries::{Call, Description, Registration, Reply};
use mq_model::journals::Journal;
use mq_model::limits::{CALLERS, DESCRIPTORS};
use mq_model::owners;
use mq_model::registrations::{notified, registration_after};
use std::alloc::{AllocError, Global};

/// The queues that exist, in the order in which they were created.
pub(crate) fn alive(alloc: Global, journal: &Journal, f: &Followed) -> Result<Vec<u64>, AllocError>
    requires { Follows journal.now.records (length journal.now.records) f.now }
    ensures { IfOk result (λ queues. queues.items ≡ reverse (alive journal.now.records)) }
{
    let mut queues = Vec::new(alloc);
    for i in 0..journal.len() {
        let entry = entry_at(journal, i);
        if entry.call.creates(entry.reply) {
            if f.is_named(journal, i) || f.is_held(journal, i) {
                queues.push(i)?;
            }
        }
    }
    Ok(queues)
}

/// The registration on queue `q`.
pub(crate) fn registered(journal: &Journal, f: &Followed, q: u64) -> Option<Registration>
    requires { Follows journal.now.records (length journal.now.records) f.now }
    ensures { result ≡ registered journal.now.records q }
{
    let mut registration = None;
    for i in 0..journal.len() {
        let entry = entry_at(journal, i);
        let on = f.is_on(journal, i, entry, q);
        registration = registration_after(on, i, entry, registration);
    }
    registration
}

fn value_of_notify(call: Call) -> Option<u64>
    ensures { result ≡ value_of_notify call }
{
    match call {
        Call::MqNotify { d: _, value } => value,
        _ => None,
    }
}

// The value that the process of caller `p` gave to its registration at a place before place `k`.
fn value_notified(journal: &Journal, k: u64, p: u32, place: Option<u64>) -> Option<u64>
    requires { k ≤ length journal.now.records }
    ensures { result ≡ value_notified (first k journal.now.records) p place }
{
    let Some(m) = place else {
        return None;
    };
    if m >= k {
        return None;
    }
    let entry = entry_at(journal, m);
    if share(entry.process, p) {
        value_of_notify(entry.call)
    } else {
        None
    }
}

// Appends a value, if there is one.
fn add(values: &mut Vec<u64>, value: Option<u64>) -> Result<(), AllocError>
    ensures { OnOk result (values.new.items ≡ values.old.items ++ option_to_list value) }
{
    if let Some(v) = value {
        values.push(v)?;
    }
    Ok(())
}

// The values of the registrations of caller `p`'s process that were notified, in order.
fn values_notified(alloc: Global, journal: &Journal, p: u32) -> Result<Vec<u64>, AllocError>
    ensures { IfOk result (λ values. values.items ≡ values_notified journal.now.records p) }
{
    let mut values = Vec::new(alloc);
    for i in 0..journal.len() {
        let entry = entry_at(journal, i);
        let value = value_notified(journal, i, p, notified(entry.reply));
        add(&mut values, value)?;
    }
    Ok(values)
}

fn gives_notice(reply: Reply) -> bool
    ensures { result ≡ gives_notice reply }
{
    match reply {
        Reply::Notice(value) => value.is_some(),
        _ => false,
    }
}

// How many notices the process of caller `p` has taken.
fn notices_given(journal: &Journal, p: u32) -> u64
    ensures { result ≡ notices_given journal.now.records p }
{
    let mut count = 0;
    for i in 0..journal.len() {
        let entry = entry_at(journal, i);
        if gives_notice(entry.reply) && share(entry.process, p) {
            count += 1;
        }
    }
    count
}

/// The notices that the process of caller `p` has not yet taken, the oldest first.
pub(crate) fn notices(alloc: Global, journal: &Journal, p: u32) -> Result<Vec<u64>, AllocError>
    ensures { IfOk result (λ values. values.items ≡ notices journal.now.records p) }
{
    let values = values_notified(alloc, journal, p)?;
    let given = notices_given(journal, p).min(values.len() as u64);
    Vec::from_slice(alloc, &values[given as usize..])
}

fn has_entry(journal: &Journal, p: u32) -> bool
    ensures { result ≡ list_any (λ r. r.entry.process == p) journal.now.records }
{
    let mut found = false;
    for i in 0..journal.len() {
        let entry = entry_at(journal, i);
        found = entry.process == p || found;
    }
    found
}

// Appends a number if `is_so`.
fn add_if(numbers: &mut Vec<u32>, number: u32, is_so: bool) -> Result<(), AllocError>
    ensures { OnOk result (numbers.new.items ≡ numbers.old.items ++
        (if is_so then number ∷ [] else [])) }
{
    if is_so {
        numbers.push(number)?;
    }
    Ok(())
}

// The last caller with an entry, or 0.
fn last_caller(journal: &Journal) -> u32
    ensures few { result ≤ 2048 }
    ensures none { (p : ℕ) → result < p → p ≤ 2048 →
        list_any (λ r. r.entry.process == p) journal.now.records ≡ false }
{
    let mut last = 0;
    for i in 0..journal.len() {
        let caller = entry_at(journal, i).process;
        if last < caller && caller <= CALLERS {
            last = caller;
        }
    }
    last
}

/// The callers with an entry.
pub(crate) fn callers(alloc: Global, journal: &Journal) -> Result<Vec<u32>, AllocError>
    ensures { IfOk result (λ found. found.items ≡ callers journal.now.records) }
{
    let last = last_caller(journal);
    let mut found = Vec::new(alloc);
    for p in 1..last + 1 {
        let calls = has_entry(journal, p);
        add_if(&mut found, p, calls)?;
    }
    Ok(found)
}

/// What the process of caller `p` holds under descriptor `d`.
pub(crate) fn held(journal: &Journal, f: &Followed, p: u32, d: u32) -> Option<Description>
    requires { Follows journal.now.records (length journal.now.records) f.now }
    ensures { result ≡ held journal.now.records p d }
{
    owners::held(&f.owners, p, d)
}

// Whether the process of caller `p` holds descriptor `d`.
fn holds(journal: &Journal, f: &Followed, p: u32, d: u32) -> bool
    requires { Follows journal.now.records (length journal.now.records) f.now }
    ensures { result ≡ is_some (held journal.now.records p d) }
{
    held(journal, f, p, d).is_some()
}

/// The descriptors that the process of caller `p` holds.
pub(crate) fn held_numbers(
    alloc: Global,
    journal: &Journal,
    f: &Followed,
    p: u32,
) -> Result<Vec<u32>, AllocError>
    requires { Follows journal.now.records (length journal.now.records) f.now }
    ensures { IfOk result (λ found. found.items ≡ held_numbers journal.now.records p) }
{
    let mut found = Vec::new(alloc);
    for d in 0..DESCRIPTORS as u32 {
        let is_held = holds(journal, f, p, d);
        add_if(&mut found, d, is_held)?;
    }
    Ok(found)
}

/// The open wait of caller `p`.
pub(crate) fn open_wait(journal: &Journal, f: &Followed, p: u32) -> Option<u64>
    requires { Follows journal.now.records (length journal.now.records) f.now }
    ensures { result ≡ open_wait journal.now.records p }
{
    match wait(&f.callers, p) {
        None => None,
        Some(wait) => Some(wait.place),
    }
}

/// The entry that answers the open wait of caller `p`.
pub(crate) fn answered_by(journal: &Journal, f: &Followed, p: u32) -> Option<u64>
    requires { Follows journal.now.records (length journal.now.records) f.now }
    ensures { result ≡ answered_by journal.now.records p }
{
    answer(&f.callers, p)
}
