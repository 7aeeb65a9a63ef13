//! Messages and waiting calls, by a scan of the entries before a place.
#![tactic(auto, using(mq_model::proofs::Prefixes::prefixes))]

ghost use Rattle.std.specs.Prelude.{◌≡◌, ◌<◌, ◌≤◌, IsFalse, List, ℕ, length};
ghost use Rattle.mq_model.specs.Record.{first};
ghost use Rattle.mq_model.specs.Messages.{is_in, queues, blocks_send, admits, blocked_sends, entered, taken, present, priority, goes_first, best};
ghost use Rattle.mq_model.specs.OnePass.{better};
ghost use Rattle.mq_checker.specs.TakenTable.{TakenMirror, enters, unless_in, with_best};

use crate::scan_names::{entry_at, entry_before, is_on};
use crate::taken::is_taken;
use mq_model::entries::{Call, Entry, Reply};
use mq_model::journals::Journal;

/// Whether this call with this reply is a send whose message was queued.
pub fn queues(call: Call, reply: Reply) -> bool
    ensures { result ≡ queues call reply }
{
    match reply {
        Reply::Queued { notified: _ } => call.is_send(),
        _ => false,
    }
}

/// Whether this call with this reply is a send that waits.
pub fn blocks_send(call: Call, reply: Reply) -> bool
    ensures { result ≡ blocks_send call reply }
{
    match reply {
        Reply::Waits => call.is_send(),
        _ => false,
    }
}

/// The place of the waiting send that a receive with this reply admits.
pub fn admits(reply: Reply) -> Option<u64>
    ensures { result ≡ admits reply }
{
    match reply {
        Reply::Got {
            place: _,
            admitted,
            notified: _,
        } => admitted,
        _ => None,
    }
}

// Whether a send to queue `q` began to wait at place `w`, before place `k`.
pub(crate) fn is_blocked_send(journal: &Journal, k: u64, q: u64, w: u64) -> bool
    requires { k ≤ length journal.now.records }
    ensures { result ≡ is_in (blocked_sends (first k journal.now.records) q) w }
{
    let mut found = false;
    for i in 0..k {
        let entry = entry_at(journal, i);
        if i == w
            && blocks_send(entry.call, entry.reply)
            && is_on(journal, i, entry.process, entry.call, q)
        {
            found = true;
        }
    }
    found
}

/// The message that enters queue `q` by the entry at place `k`.
pub fn entered(journal: &Journal, k: u64, entry: Entry, q: u64) -> Option<u64>
    requires { k ≤ length journal.now.records }
    ensures { result ≡ entered (first k journal.now.records) entry q }
{
    if queues(entry.call, entry.reply) && is_on(journal, k, entry.process, entry.call, q) {
        return Some(k);
    }
    match admits(entry.reply) {
        Some(w) => {
            if is_blocked_send(journal, k, q, w) {
                Some(w)
            } else {
                None
            }
        }
        None => None,
    }
}

/// The message that enters some queue by an entry at place `i`.
pub fn enters(i: u64, entry: Entry) -> Option<u64>
    ensures { result ≡ enters i entry }
{
    if queues(entry.call, entry.reply) {
        Some(i)
    } else {
        admits(entry.reply)
    }
}

// The message that enters queue `q` by the entry at place `i`, if no entry before place `k` took
// it.
fn still_present(
    journal: &Journal,
    k: u64,
    marks: &[bool],
    i: u64,
    entry: Entry,
    q: u64,
) -> Option<u64>
    requires bound { k ≤ length journal.now.records }
    requires place { i < k }
    requires mirror { TakenMirror (first k journal.now.records) marks.now }
    ensures { result ≡ unless_in (taken (first k journal.now.records))
        (entered (first i journal.now.records) entry q) }
{
    let Some(m) = enters(i, entry) else {
        return None;
    };
    if is_taken(journal, k, marks, m) {
        return None;
    }
    entered(journal, i, entry, q)
}

// The number of messages in queue `q` before place `k`.
pub(crate) fn present_count(journal: &Journal, k: u64, marks: &[bool], q: u64) -> u64
    requires bound { k ≤ length journal.now.records }
    requires mirror { TakenMirror (first k journal.now.records) marks.now }
    ensures count { result ≡ length (present (first k journal.now.records) q) }
    ensures bound { result ≤ k }
{
    let mut count = 0;
    for i in 0..k {
        let (entry, _) = journal.record(i);
        if let Some(_) = still_present(journal, k, marks, i, entry, q) {
            count += 1;
        }
    }
    count
}

// The priority of message `m`.
pub(crate) fn priority(journal: &Journal, k: u64, m: u64) -> u32
    requires { k ≤ length journal.now.records }
    ensures { result ≡ priority (first k journal.now.records) m }
{
    match entry_before(journal, k, m) {
        Some(entry) => entry.call.priority(),
        None => 0,
    }
}

pub(crate) fn goes_first(journal: &Journal, k: u64, m: u64, n: u64) -> bool
    requires { k ≤ length journal.now.records }
    ensures { result ≡ goes_first (first k journal.now.records) m n }
{
    let one = priority(journal, k, m);
    let other = priority(journal, k, n);
    other < one || (one == other && m <= n)
}

// Whether the message that enters by an entry may be better than the best found so far.
fn may_be_better(journal: &Journal, k: u64, i: u64, entry: Entry, found: Option<u64>) -> bool
    requires bound { k ≤ length journal.now.records }
    requires place { i < k }
    ensures { IsFalse result → (q : ℕ) (places : List ℕ) →
        with_best (goes_first (first k journal.now.records))
        (unless_in places (entered (first i journal.now.records) entry q)) found ≡ found }
{
    let Some(m) = enters(i, entry) else {
        return false;
    };
    match found {
        Some(n) => goes_first(journal, k, m, n),
        None => true,
    }
}

// The oldest message of the highest priority in queue `q` before place `k`.
pub(crate) fn best(journal: &Journal, k: u64, marks: &[bool], q: u64) -> Option<u64>
    requires bound { k ≤ length journal.now.records }
    requires mirror { TakenMirror (first k journal.now.records) marks.now }
    ensures { result ≡ best (first k journal.now.records) q }
{
    let mut found = None;
    for i in 0..k {
        let (entry, _) = journal.record(i);
        found = best_with(journal, k, marks, i, entry, q, found);
    }
    found
}

// The best message of queue `q`, given the best of those that entered earlier, `found`.
fn best_with(
    journal: &Journal,
    k: u64,
    marks: &[bool],
    i: u64,
    entry: Entry,
    q: u64,
    found: Option<u64>,
) -> Option<u64>
    requires bound { k ≤ length journal.now.records }
    requires place { i < k }
    requires mirror { TakenMirror (first k journal.now.records) marks.now }
    ensures { result ≡ with_best (goes_first (first k journal.now.records))
        (unless_in (taken (first k journal.now.records))
        (entered (first i journal.now.records) entry q)) found }
{
    if !may_be_better(journal, k, i, entry, found) {
        return found;
    }
    match still_present(journal, k, marks, i, entry, q) {
        Some(m) => Some(better(journal, k, m, found)),
        None => found,
    }
}

pub(crate) fn better(journal: &Journal, k: u64, m: u64, found: Option<u64>) -> u64
    requires { k ≤ length journal.now.records }
    ensures { result ≡ better (goes_first (first k journal.now.records)) m found }
{
    match found {
        Some(n) => { if goes_first(journal, k, m, n) { m } else { n } }
        None => m,
    }
}
