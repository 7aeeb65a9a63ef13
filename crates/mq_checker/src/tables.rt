//! The checker's tables, which say what the definitions say about the entries so far: what each
//! process holds and each caller waits for, and which messages were taken.
ghost use Rattle.std.specs.Prelude.{◌≡◌, ◌+◌, ◌<◌, ◌≤◌, [], length, Some, None, ℕ, Bool};
ghost use Rattle.std.specs.Option.{unwrap_or};
ghost use Rattle.mq_model.specs.Limits.{most_callers, most_processes};
ghost use Rattle.mq_model.specs.Record.{first};
ghost use Rattle.mq_model.specs.Descriptors.{held, opened_queue, called_queue, lowest_free, is_held};
ghost use Rattle.mq_model.specs.Messages.{least};
ghost use Rattle.mq_model.specs.Waits.{open_wait, wait_deadline, answered_by};
ghost use Rattle.mq_model.specs.Owners.{OwnersMirror};
ghost use Rattle.mq_model.specs.Callers.{waiting, CallersMirror};
ghost use Rattle.mq_model.specs.Legality.{Legal};
ghost use Rattle.mq_checker.specs.CheckerTables.{TablesMirror};

use crate::scan_names::opened_queue;
use crate::taken;
use mq_model::callers::{Caller, WaitKind};
use mq_model::entries::{Call, Deadline, Description, Entry, Reply};
use mq_model::journals::Journal;
use mq_model::limits::{CALLERS, PROCESSES};
use mq_model::owners::Owner;
use mq_model::{callers, owners};

// The number of rows of the table of processes. Process p has the row at index p.
const OWNERS: usize = PROCESSES as usize + 1;

// The number of rows of the table of callers. Caller p has the row at index p.
const WAITERS: usize = CALLERS as usize + 1;

/// What each process holds and each caller waits for, and which messages were taken.
#[derive(Clone, Copy)]
pub(crate) struct Tables {
    pub(crate) owners: [Owner; OWNERS],
    pub(crate) callers: [Caller; WAITERS],
    pub(crate) marks: [bool; taken::PLACES],
}

// The rows of processes without descriptors.
fn vacant() -> [Owner; OWNERS]
    ensures mirror { OwnersMirror [] result }
    ensures count { length result ≡ most_processes + 1 }
{
    [Owner::free(); OWNERS]
}

// The rows of callers without waits.
fn idle() -> [Caller; WAITERS]
    ensures mirror { CallersMirror [] result }
    ensures count { length result ≡ most_callers + 1 }
{
    [Caller::free(); WAITERS]
}

// The tables of the empty journal.
pub(crate) fn start() -> Tables
    ensures { TablesMirror [] result }
{
    Tables {
        owners: vacant(),
        callers: idle(),
        marks: taken::unmarked(),
    }
}

// What the process of caller `p` holds under `d` at place `k`.
pub(crate) fn held(
    journal: &Journal,
    k: u64,
    tables: &Tables,
    p: u32,
    d: u32,
) -> Option<Description>
    requires { TablesMirror (first k journal.now.records) tables.now }
    ensures { result ≡ held (first k journal.now.records) p d }
{
    owners::held(&tables.owners, p, d)
}

// The lowest descriptor that the process of caller `p` does not hold at place `k`.
pub(crate) fn lowest_free(journal: &Journal, k: u64, tables: &Tables, p: u32) -> Option<u32>
    requires { TablesMirror (first k journal.now.records) tables.now }
    ensures { result ≡ lowest_free (first k journal.now.records) p }
{
    owners::free_number(&tables.owners, p)
}

// Whether some process holds a descriptor of queue `q` at place `k`.
pub(crate) fn is_held(journal: &Journal, k: u64, tables: &Tables, q: u64) -> bool
    requires { TablesMirror (first k journal.now.records) tables.now }
    ensures { result ≡ is_held (first k journal.now.records) q }
{
    owners::is_held(&tables.owners, q)
}

// The place of the open wait of caller `p` at place `k`.
pub(crate) fn wait(journal: &Journal, k: u64, tables: &Tables, p: u32) -> Option<u64>
    requires { TablesMirror (first k journal.now.records) tables.now }
    ensures { result ≡ open_wait (first k journal.now.records) p }
{
    match callers::wait(&tables.callers, p) {
        None => None,
        Some(wait) => Some(wait.place),
    }
}

// The deadline of the open wait of caller `p` at place `k`.
pub(crate) fn deadline(journal: &Journal, k: u64, tables: &Tables, p: u32) -> Option<Deadline>
    requires { TablesMirror (first k journal.now.records) tables.now }
    ensures { result ≡ wait_deadline (first k journal.now.records) p }
{
    match callers::wait(&tables.callers, p) {
        None => None,
        Some(wait) => wait.until,
    }
}

// The place of the entry that answers the open wait of caller `p` at place `k`.
pub(crate) fn answer(journal: &Journal, k: u64, tables: &Tables, p: u32) -> Option<u64>
    requires { TablesMirror (first k journal.now.records) tables.now }
    ensures { result ≡ answered_by (first k journal.now.records) p }
{
    callers::answer(&tables.callers, p)
}

// The send, or receive, that has waited longest on queue `q` at place `k`.
pub(crate) fn first_wait(
    journal: &Journal,
    k: u64,
    tables: &Tables,
    q: u64,
    kind: WaitKind,
) -> Option<u64>
    requires mirror { TablesMirror (first k journal.now.records) tables.now }
    requires legal { Legal (first k journal.now.records) }
    ensures { result ≡ least (waiting (first k journal.now.records) kind q) }
{
    match callers::first_wait(&tables.callers, q, kind) {
        None => None,
        Some((_, place)) => Some(place),
    }
}

// The queue that a call is made on.
fn called_queue(journal: &Journal, k: u64, tables: &Tables, p: u32, call: Call) -> Option<u64>
    requires { TablesMirror (first k journal.now.records) tables.now }
    ensures { result ≡ called_queue (first k journal.now.records) p call }
{
    match call.descriptor() {
        Some(d) => match held(journal, k, tables, p, d) {
            Some(h) => Some(h.queue),
            None => None,
        },
        None => None,
    }
}

// The queue that an entry opened, or that its call was made on.
fn entry_queue(journal: &Journal, k: u64, tables: &Tables, entry: Entry, payload: &[u8]) -> u64
    requires bound { k ≤ length journal.now.records }
    requires mirror { TablesMirror (first k journal.now.records) tables.now }
    ensures opened { (d : ℕ) (created : Bool) → entry.reply ≡ Reply.Opened d created →
        result ≡ opened_queue (first k journal.now.records) payload.now created }
    ensures waits { entry.reply ≡ Reply.Waits →
        result ≡ unwrap_or (called_queue (first k journal.now.records) entry.process entry.call) 0 }
{
    match entry.reply {
        Reply::Opened { d: _, created } => opened_queue(journal, k, payload, created),
        _ => called_queue(journal, k, tables, entry.process, entry.call).unwrap_or(0),
    }
}

// Updates the tables for the entry at place `k`, with which the journal is legal.
pub(crate) fn note(journal: &Journal, k: u64, tables: &mut Tables)
    requires place { k < length journal.now.records }
    requires mirror { TablesMirror (first k journal.now.records) tables.old }
    requires legal { Legal (first (k + 1) journal.now.records) }
    ensures { TablesMirror (first (k + 1) journal.now.records) tables.new }
{
    let (entry, payload) = journal.record(k);
    let queue = entry_queue(journal, k, tables, entry, payload);
    taken::note(&mut tables.marks, k, entry.reply);
    owners::note(&mut tables.owners, entry, queue);
    callers::note(&mut tables.callers, k, entry, queue);
}
